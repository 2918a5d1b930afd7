// Lines of decimal numbers, as bytes in a buffer that the caller lends.
#![tactic(auto)]

ghost use Rattle.std.specs.Prelude.{◌≡◌, [], ◌∷◌, ◌++◌, ◌+◌, ◌*◌, ◌≤◌, length, take};
ghost use Rattle.io.specs.Counts.{IsPrefixLen};
ghost use Rattle.lines.specs.Lines.{decimal, line_of, PutBytes};

// The digits of x at the start of out; how many they are.
fn digits_of(x: u32, out: &mut [u8; 20]) -> usize
    ensures { (IsPrefixLen result out.new) × (result ≤ 10) × (take result out.new ≡ decimal x) }
{
    io::decimal(x as u64, out)
}

// The number x and then the byte end.
fn number(out: &mut [u8], at: usize, x: u32, end: u8) -> usize
    requires { at + 11 ≤ length out.old }
    ensures { (PutBytes out.old out.new at (decimal x ++ (end ∷ [])) result) × (result ≤ at + 11) }
{
    let mut digits = [0u8; 20];
    let n = digits_of(x, &mut digits);
    let next = at + n;
    out[at..next].copy_from_slice(&digits[..n]);
    out[next] = end;
    next + 1
}

// A line of numbers, empty where there are none.
pub fn line(out: &mut [u8], from: usize, ws: &[u32]) -> usize
    requires { from + 11 * length ws.now + 1 ≤ length out.old }
    ensures { (PutBytes out.old out.new from (line_of ws.now) result) × (result ≤ from + 11 * length ws.now + 1) }
{
    let Some((last, rest)) = ws.split_last() else {
        out[from] = b'\n';
        return from + 1;
    };
    let mut at = from;
    for w in rest {
        at = number(out, at, *w, b' ');
    }
    number(out, at, *last, b'\n')
}
