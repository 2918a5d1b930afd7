// The table of ends: for each place of the question, the place past the item that stands there and, for a type, whether it is a monotype.
// Later steps find an item's parts, and learn whether a type holds a Forall, by it, with no walk.
ghost use Rattle.std.specs.Prelude.{true, ◌≡◌, ◌≤◌, length, get_or};
ghost use Rattle.layout.specs.Words.{Put2};
ghost use Rattle.layout.specs.Monotypes.{with_mono};
ghost use Rattle.loading.specs.Table.{Sized, ReadyAt, NoLeaf, RowAt, PastIs, RowIs, Laid};

// The table's word for i; past the question 0, which no item leads to: an Option would be unwrapped to some number just the same.
fn row(q: &[u32], work: &[u32], i: usize) -> usize
    requires { Sized q.now work.now }
    ensures { RowAt q.now work.now i result }
{
    if q.len() <= i {
        return 0;
    }
    layout::word(work, layout::ENDS + i)
}

// The place past the item at i, by the table; 0 past the question.
fn past(q: &[u32], work: &[u32], i: usize) -> usize
    requires { Sized q.now work.now }
    ensures { PastIs q.now work.now i result }
{
    row(q, work, i) % layout::MONO
}

// An Arrow's word is its right part's, without the monotype mark where the left part has none.
fn arrow_row(q: &[u32], work: &[u32], p: usize) -> usize
    requires { ReadyAt q.now work.now p × get_or q.now p 0 ≡ 5 }
    ensures { RowIs q.now p result }
{
    let left = row(q, work, p + 1);
    let right = row(q, work, left % layout::MONO);
    if layout::MONO <= left {
        return right;
    }
    right % layout::MONO
}

// The word for what is no type without parts; some number where no item stands. By number: any word may stand there, and the code of a type
// or of an expression, so neither enum of forms fits.
fn other_row(q: &[u32], work: &[u32], p: usize) -> usize
    requires { ReadyAt q.now work.now p × NoLeaf q.now p }
    ensures { RowIs q.now p result }
{
    let one = p + 1;
    let two = p + 2;
    match q[p] {
        5 => arrow_row(q, work, p),
        16 | 23 => two,
        22 => p + 3,
        6 | 20 => past(q, work, two),
        17 | 19 | 21 => past(q, work, past(q, work, one)),
        18 | 24 | 26 => past(q, work, past(q, work, two)),
        25 => past(q, work, past(q, work, past(q, work, one))),
        _ => one,
    }
}

// The table's word for p, by those from p + 1 on. By number, as other_row. Int, Bool, Var and ETVar first: the processor foresees a comparison
// better than a match.
fn row_of(q: &[u32], work: &[u32], p: usize) -> usize
    requires { ReadyAt q.now work.now p }
    ensures { RowIs q.now p result }
{
    match q[p] {
        1..=2 => p + 1 + layout::MONO,
        3..=4 => p + 2 + layout::MONO,
        _ => other_row(q, work, p),
    }
}

// Puts the records of Int and Bool.
fn put_bases(work: &mut [u32])
    requires { 2 ≤ length work.old }
    ensures { Put2 work.old work.new 0 (with_mono 1 true) (with_mono 2 true) }
{
    layout::put2(
        work,
        0,
        layout::with_mono(1, true),
        layout::with_mono(2, true),
    );
}

// Lays the bottom of work: the records of Int and Bool, and the table of ends, from the question's last word back to its first.
pub fn fill_ends(q: &[u32], work: &mut [u32])
    requires { Sized q.now work.old }
    ensures { Laid q.now work.old work.new }
{
    put_bases(work);
    for p in (0..q.len()).rev() {
        let row = row_of(q, work, p);
        layout::put(work, layout::ENDS + p, row);
    }
}
