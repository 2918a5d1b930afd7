// Reading: one pass from left to right over the question's words; what it accepts, what it refuses and where, is the definition's.
// It writes nothing.
#![tactic(auto)]

ghost use Rattle.std.specs.Prelude.{◌≡◌, ◌≤◌, length};
ghost use Rattle.layout.specs.Kinds.{kind_number};
ghost use Rattle.reading.specs.Faults.{refusal_code, bad_shape};
ghost use Rattle.reading.specs.Items.{Inside, WordRead, NameRead, WithinRead, TypeRead, ExprRead};
ghost use Rattle.reading.specs.Contexts.{EntryRead, ContextRead};
ghost use Rattle.reading.specs.Sections.{UnknownRead, Whole, SectionRead};
ghost use Rattle.reading.specs.Questions.{Planned, SectionsRead, ReadIs};

use layout::Kind;

// Why a question is refused, by document 01's codes: "4 BadShape", "5 ReservedName".
#[derive(Clone, Copy)]
pub enum Refusal {
    BadShape = 4,
    ReservedName = 5,
}

impl Refusal {
    pub fn code(self) -> u32
        ensures { result ≡ refusal_code self }
    {
        self as u32
    }
}

// A fault of the question: why it is refused, and the place.
#[derive(Clone, Copy)]
pub struct Fault {
    pub why: Refusal,
    pub at: usize,
}

impl Fault {
    fn bad_shape(at: usize) -> Fault
        ensures { result ≡ bad_shape at }
    {
        Fault {
            why: Refusal::BadShape,
            at,
        }
    }
}

// What a section leaves: the place of its item or the number of its entries (0 where it is empty), and the place past it.
#[derive(Clone, Copy)]
pub struct Part {
    pub value: usize,
    pub past: usize,
}

// What a section of a question holds.
#[derive(Clone, Copy)]
pub enum Holds {
    Nothing,
    Entries,
    Expr,
    Ty,
    ETVar,
}

// "Mode is 0 plain or 1 strict."
#[derive(Clone, Copy)]
pub enum Mode {
    Plain,
    Strict,
}

// A question's parts: kind and mode, how many entries its context has, and the places of the first entry, of the expression, of the left
// and of the right type (0 where there is none).
#[derive(Clone, Copy)]
pub struct Question {
    pub kind: Kind,
    pub mode: Mode,
    pub entries: usize,
    pub context: usize,
    pub expr: usize,
    pub left: usize,
    pub right: usize,
}

// The word at p, in a section that ends at end.
fn read_word(q: &[u32], p: usize, end: usize) -> Result<u32, Fault>
    requires { Inside q.now p end }
    ensures { WordRead q.now p end result }
{
    if end <= p {
        return Err(Fault::bad_shape(p));
    }
    Ok(q[p])
}

// Reads a written name at p. As each reader of an item does, it gives the place past it.
fn read_name(q: &[u32], p: usize, end: usize) -> Result<usize, Fault>
    requires { Inside q.now p end }
    ensures { NameRead q.now p end result }
{
    if read_word(q, p, end)? < definition::FIRST_FRESH {
        return Ok(p + 1);
    }
    Err(Fault {
        why: Refusal::ReservedName,
        at: p,
    })
}

// Reads a number from low to high at p.
fn read_within(q: &[u32], p: usize, end: usize, low: u32, high: u32) -> Result<usize, Fault>
    requires { Inside q.now p end }
    ensures { WithinRead q.now p end low high result }
{
    let n = read_word(q, p, end)?;
    if (low..=high).contains(&n) {
        return Ok(p + 1);
    }
    Err(Fault::bad_shape(p))
}

// Reads a type at p. What a call of itself gives last is made anew, by Ok and ?: passed on whole it would be copied with its padding, and
// the processor waits for that at each level.
fn read_type(q: &[u32], p: usize, end: usize) -> Result<usize, Fault>
    requires { Inside q.now p end }
    ensures { TypeRead q.now p end result }
{
    let code = read_word(q, p, end)?;
    let next = p + 1;
    match code {
        // Int, Bool
        1 | 2 => Ok(next),
        // Var, ETVar
        3 | 4 => read_name(q, next, end),
        // Arrow
        5 => Ok(read_type(q, read_type(q, next, end)?, end)?),
        // Forall
        6 => Ok(read_type(q, read_name(q, next, end)?, end)?),
        _ => Err(Fault::bad_shape(p)),
    }
}

// Reads an expression at p.
#[cycle(read_expr_sub_expr)]
fn read_expr(q: &[u32], p: usize, end: usize) -> Result<usize, Fault>
    requires { Inside q.now p end }
    ensures { ExprRead q.now p end result }
{
    let code = read_word(q, p, end)?;
    let next = p + 1;
    match code {
        // Var
        16 => read_name(q, next, end),
        // App
        17 => sub_expr(q, sub_expr(q, next, end)?, end),
        // Abs
        18 => sub_expr(q, read_type(q, read_name(q, next, end)?, end)?, end),
        // TApp, Ann
        19 | 21 => Ok(read_type(q, sub_expr(q, next, end)?, end)?),
        // TAbs
        20 => sub_expr(q, read_name(q, next, end)?, end),
        // LitInt: two words, any
        22 => {
            let past = p + 3;
            if end < past {
                return Err(Fault::bad_shape(end));
            }
            Ok(past)
        }
        // LitBool
        23 => read_within(q, next, end, 0, 1),
        // Let
        24 => sub_expr(q, sub_expr(q, read_name(q, next, end)?, end)?, end),
        // If
        25 => sub_expr(q, sub_expr(q, sub_expr(q, next, end)?, end)?, end),
        // BinOp
        26 => sub_expr(q, sub_expr(q, read_within(q, next, end, 1, 12)?, end)?, end),
        _ => Err(Fault::bad_shape(p)),
    }
}

// The same inside an expression, made anew as in read_type. Inlined, for its calls share a place on the stack: where read_expr called itself,
// each call had a place of its own, 368 bytes a level, and docs/STACK.md allows 224.
#[cycle(read_expr_sub_expr)]
#[inline(always)]
fn sub_expr(q: &[u32], p: usize, end: usize) -> Result<usize, Fault>
    requires { Inside q.now p end }
    ensures { ExprRead q.now p end result }
{
    Ok(read_expr(q, p, end)?)
}

// Reads an entry at p.
fn read_entry(q: &[u32], p: usize, end: usize) -> Result<usize, Fault>
    requires { Inside q.now p end }
    ensures { EntryRead q.now p end result }
{
    let code = read_word(q, p, end)?;
    let next = p + 1;
    match code {
        // Var, SETVar
        32 | 35 => read_type(q, read_name(q, next, end)?, end),
        // TVar, ETVar, Mark
        33 | 34 | 36 => read_name(q, next, end),
        _ => Err(Fault::bad_shape(p)),
    }
}

// Reads entries from first to the end of the section, and counts them. No `for`: where an entry ends is known once it is read.
fn read_context(q: &[u32], first: usize, end: usize) -> Result<Part, Fault>
    requires { Inside q.now first end }
    ensures { ContextRead q.now first end result }
{
    let mut past = first;
    let mut value = 0;
    while past < end {
        past = read_entry(q, past, end)?;
        value += 1;
    }
    Ok(Part { value, past })
}

// Reads the one ETVar of kinds 5 and 6 at p.
fn read_unknown(q: &[u32], p: usize, end: usize) -> Result<usize, Fault>
    requires { Inside q.now p end }
    ensures { UnknownRead q.now p end result }
{
    if read_word(q, p, end)? == 4 {
        return read_name(q, p + 1, end);
    }
    Err(Fault::bad_shape(p))
}

// What an item that stands from first up to past leaves of a section that ends at end: one item, and no word too many.
fn whole(first: usize, past: usize, end: usize) -> Result<Part, Fault>
    ensures { Whole first end past result }
{
    if past == end {
        return Ok(Part { value: first, past });
    }
    Err(Fault::bad_shape(past))
}

// Reads the section whose count stands at p.
fn read_section(q: &[u32], p: usize, holds: Holds) -> Result<Part, Fault>
    requires { Inside q.now p (length q.now) }
    ensures { SectionRead q.now p holds result }
{
    let count = read_word(q, p, q.len())? as usize;
    let first = p + 1;
    if q.len() - first < count {
        return Err(Fault::bad_shape(p));
    }
    let end = first + count;
    match holds {
        Holds::Nothing if count == 0 => Ok(Part {
            value: 0,
            past: first,
        }),
        Holds::Nothing => Err(Fault::bad_shape(p)),
        Holds::Entries => read_context(q, first, end),
        Holds::Expr => whole(first, read_expr(q, first, end)?, end),
        Holds::Ty => whole(first, read_type(q, first, end)?, end),
        Holds::ETVar => whole(first, read_unknown(q, first, end)?, end),
    }
}

// What each kind's sections hold: context, expression, left type, right type. "Any other section has count 0."
fn plan_of(kind: Kind) -> (Holds, Holds, Holds, Holds)
    ensures { Planned (kind_number kind) result.0 result.1 result.2 result.3 }
{
    use Holds::{ETVar, Entries, Expr, Nothing, Ty};
    match kind {
        Kind::Infer => (Entries, Expr, Nothing, Nothing),
        Kind::Check => (Entries, Expr, Nothing, Ty),
        Kind::InferApp => (Entries, Expr, Ty, Nothing),
        Kind::Subtype => (Entries, Nothing, Ty, Ty),
        Kind::InstL => (Entries, Nothing, ETVar, Ty),
        Kind::InstR => (Entries, Nothing, Ty, ETVar),
        Kind::Resolve => (Nothing, Expr, Nothing, Nothing),
    }
}

// Reads the four sections, and the question's end.
fn read_sections(q: &[u32], kind: Kind, mode: Mode) -> Result<Question, Fault>
    requires { Inside q.now 2 (length q.now) }
    ensures { SectionsRead q.now kind mode result }
{
    let (a, b, c, d) = plan_of(kind);
    let context = read_section(q, 2, a)?;
    let expr = read_section(q, context.past, b)?;
    let left = read_section(q, expr.past, c)?;
    let right = read_section(q, left.past, d)?;
    if right.past < q.len() {
        return Err(Fault::bad_shape(right.past));
    }
    Ok(Question {
        kind,
        mode,
        entries: context.value,
        context: 3,
        expr: expr.value,
        left: left.value,
        right: right.value,
    })
}

// Reads a question.
pub fn read_question(q: &[u32]) -> Result<Question, Fault>
    requires { (1 ≤ length q.now) × (length q.now ≤ 2048) }
    ensures { ReadIs q.now result }
{
    let Ok(kind) = Kind::try_from(q[0]) else {
        return Err(Fault::bad_shape(0));
    };
    let mode = match read_word(q, 1, q.len())? {
        0 => Mode::Plain,
        1 => Mode::Strict,
        _ => return Err(Fault::bad_shape(1)),
    };
    read_sections(q, kind, mode)
}
