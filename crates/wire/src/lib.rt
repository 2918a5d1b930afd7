// Words on the wire: little-endian bytes.
#![tactic(auto)]

ghost use Rattle.std.specs.Prelude.{◌≡◌, [], ◌∷◌, ◌++◌, ◌+◌, ◌*◌, ◌≤◌, length, drop};
ghost use Rattle.std.proofs.Math.Seq.{paste};
ghost use Rattle.definition.specs.Host.{word_at, words_of, bytes_of};

// The word i of b.
pub fn word_at(b: &[u8], i: usize) -> u32
    requires { 4 * i + 4 ≤ length b.now }
    ensures { result ≡ word_at b.now i }
{
    let j = 4 * i;
    u32::from_le_bytes([b[j], b[j + 1], b[j + 2], b[j + 3]])
}

// The first n words of b, into ws.
pub fn read_words(b: &[u8], ws: &mut [u32], n: usize)
    requires { (4 * n ≤ length b.now) × (n ≤ length ws.old) }
    ensures { ws.new ≡ words_of b.now n ++ drop n ws.old }
{
    for (i, w) in ws[..n].iter_mut().enumerate() {
        *w = word_at(b, i);
    }
}

// The word x at a place.
fn put_word(dst: &mut [u8], at: usize, x: u32)
    requires { at + 4 ≤ length dst.old }
    ensures { dst.new ≡ paste dst.old at (bytes_of (x ∷ [])) 4 }
{
    dst[at..at + 4].copy_from_slice(&x.to_le_bytes());
}

// The words ws from a place on.
fn put_words(dst: &mut [u8], at: usize, ws: &[u32])
    requires { at + 4 * length ws.now ≤ length dst.old }
    ensures { dst.new ≡ paste dst.old at (bytes_of ws.now) (4 * length ws.now) }
{
    for (i, w) in ws.iter().enumerate() {
        put_word(dst, at + 4 * i, *w);
    }
}

// A reply: its four numbers, then the words of its report.
pub fn put_reply(reply: &mut [u8], numbers: [u32; 4], report: &[u32])
    requires { 16 + 4 * length report.now ≤ length reply.old }
    ensures { reply.new ≡ bytes_of (numbers ++ report.now) ++ drop (16 + 4 * length report.now) reply.old }
{
    put_words(reply, 0, &numbers);
    put_words(reply, 16, report);
}
