// Words into the report: types with no recursion, sections, contexts; each function writes at a place and returns the next.
// A struct of slice and place would be no plainer: contracts speak of the slice before and after, and of both places.
#![tactic(auto)]

ghost use Rattle.std.specs.Prelude.{◌≡◌, ◌+◌, ◌≤◌, ◌^◌, min, length};
ghost use Rattle.types.specs.Reading.{form_number};
ghost use Rattle.writing.specs.Spelling.{AfterCount, Long, Spelled, PutWords, Writable, Writes};
ghost use Rattle.writing.specs.Types.{OfType, OfPart, Waiting, Steps};
ghost use Rattle.writing.specs.Contexts.{holds_type, held_at, OfEntry, OfContext};
ghost use Rattle.writing.specs.After.{Measures, Stands, WritesAfter};

use layout::{BASE, Span, copy, put, word};
use types::{Form, Store, sum_to};

// A length stops at this, one more than the longest report.
const OVER: usize = 4_294_967_296;

// Where the next word is written, and where the next waiting reference stands.
#[derive(Clone, Copy)]
struct Pen {
    at: usize,
    low: usize,
}

// A form's code.
fn code(form: Form) -> usize
    ensures { result ≡ form_number form }
{
    form as usize
}

// Takes the reference that waits at low: writes its first words, and leaves its parts to wait.
fn write_head(store: Store, report: &mut [u32], at: usize, low: usize) -> Pen
    requires { Waiting store.q.now store.work.now store.top report.old at low }
    ensures { Steps store.entry.q.now store.entry.work.now store.entry.top report.old report.new at low result }
{
    let r = report[low] as usize;
    let form = store.form(r);
    put(report, at, code(form));
    match form {
        Form::Int | Form::Bool => Pen {
            at: at + 1,
            low: low + 1,
        },
        Form::Var | Form::ETVar => {
            put(report, at + 1, store.name_of(r).0 as usize);
            Pen {
                at: at + 2,
                low: low + 1,
            }
        }
        Form::Arrow => {
            put(report, low, store.right_of(r));
            put(report, low - 1, store.left_of(r));
            Pen {
                at: at + 1,
                low: low - 1,
            }
        }
        Form::Forall => {
            put(report, at + 1, store.name_of(r).0 as usize);
            put(report, low, store.body_of(r));
            Pen { at: at + 2, low }
        }
    }
}

// Writes a type part by part. What waits is kept in the part of its words that is not written yet, from its far end: how many steps there
// are is known at the end alone, so no `for`.
fn walk_type(store: Store, r: usize, report: &mut [u32], at: usize) -> usize
    requires { Writable store.q.now store.work.now store.top (OfType store.q.now store.work.now store.top r) report.old at }
    ensures { Writes (OfType store.entry.q.now store.entry.work.now store.entry.top r) report.old report.new at result }
{
    let end = at + store.type_length(r);
    let mut pen = Pen { at, low: end - 1 };
    put(report, pen.low, r);
    while pen.low < end {
        pen = write_head(store, report, pen.at, pen.low);
    }
    end
}

// Writes the words of a slice as they are. One by one, as layout's copy.
fn copy_words(src: &[u32], report: &mut [u32], at: usize) -> usize
    requires { at + length src.now ≤ length report.old }
    ensures { PutWords report.old report.new at src.now result }
{
    for (i, x) in src.iter().enumerate() {
        report[at + i] = *x;
    }
    at + src.len()
}

// Writes a type. Int and Bool are their code; one that stands in the question has its words there, in the same order, and is copied.
pub fn write_type(store: Store, r: usize, report: &mut [u32], at: usize) -> usize
    requires { Writable store.q.now store.work.now store.top (OfType store.q.now store.work.now store.top r) report.old at }
    ensures { Writes (OfType store.entry.q.now store.entry.work.now store.entry.top r) report.old report.new at result }
{
    match store.form(r) {
        form @ (Form::Int | Form::Bool) => {
            put(report, at, code(form));
            at + 1
        }
        _ if r < BASE => copy_words(store.type_words(r), report, at),
        _ => walk_type(store, r, report, at),
    }
}

// The sum of two lengths.
pub fn sum(a: usize, b: usize) -> usize
    ensures { result ≡ min (a + b) (2 ^ 32) }
{
    sum_to::<OVER>(a, b)
}

// How long a type is, or an unused part (0). It stops one earlier than a sum: something always goes before it.
fn part_length(store: Store, part: Option<usize>) -> usize
    requires { Spelled store.q.now store.work.now store.top (OfPart store.q.now store.work.now store.top part) }
    ensures { Long 4294967295 (OfPart store.entry.q.now store.entry.work.now store.entry.top part) result }
{
    match part {
        Some(r) => store.type_length(r),
        None => 0,
    }
}

// Writes a type, or an unused part: nothing.
fn write_part(store: Store, part: Option<usize>, report: &mut [u32], at: usize) -> usize
    requires { Writable store.q.now store.work.now store.top (OfPart store.q.now store.work.now store.top part) report.old at }
    ensures { Writes (OfPart store.entry.q.now store.entry.work.now store.entry.top part) report.old report.new at result }
{
    match part {
        Some(r) => write_type(store, r, report, at),
        None => at,
    }
}

// How long a type's section is.
pub fn section_length(store: Store, part: Option<usize>) -> usize
    requires { Spelled store.q.now store.work.now store.top (AfterCount (OfPart store.q.now store.work.now store.top part)) }
    ensures { Long (2 ^ 32) (AfterCount (OfPart store.entry.q.now store.entry.work.now store.entry.top part)) result }
{
    sum(1, part_length(store, part))
}

// Writes a type's section: its words, and before them their count.
pub fn write_section(store: Store, part: Option<usize>, report: &mut [u32], at: usize) -> usize
    requires { Writable store.q.now store.work.now store.top (AfterCount (OfPart store.q.now store.work.now store.top part)) report.old at }
    ensures { Writes (AfterCount (OfPart store.entry.q.now store.entry.work.now store.entry.top part)) report.old report.new at result }
{
    let first = at + 1;
    let next = write_part(store, part, report, first);
    put(report, at, next - first);
    next
}

// Whether entries of this kind, a word of work, hold a type: VarBnd and SETVarBnd do.
fn holds_type(kind: usize) -> bool
    ensures { result ≡ holds_type kind }
{
    matches!(kind, 32 | 35)
}

// The type that the entry at i holds, if it holds one.
fn held(work: &[u32], i: usize) -> Option<usize>
    requires { i + 4 ≤ length work.now }
    ensures { result ≡ held_at work.now i }
{
    holds_type(word(work, i)).then_some(word(work, i + 2))
}

// How long the entry at i is.
fn entry_length(store: Store, i: usize) -> usize
    requires { Spelled store.q.now store.work.now store.top (OfEntry store.q.now store.work.now store.top i) }
    ensures { Long (2 ^ 32) (OfEntry store.entry.q.now store.entry.work.now store.entry.top i) result }
{
    sum(2, part_length(store, held(store.work, i)))
}

// Writes the entry at i: its kind, its name, and its type if it holds one.
fn write_entry(store: Store, i: usize, report: &mut [u32], at: usize) -> usize
    requires { Writable store.q.now store.work.now store.top (OfEntry store.q.now store.work.now store.top i) report.old at }
    ensures { Writes (OfEntry store.entry.q.now store.entry.work.now store.entry.top i) report.old report.new at result }
{
    put(report, at, word(store.work, i));
    put(report, at + 1, word(store.work, i + 1));
    write_part(store, held(store.work, i), report, at + 2)
}

// How long a context's section is.
pub fn context_length(store: Store, g: Span) -> usize
    requires { Spelled store.q.now store.work.now store.top (AfterCount (OfContext store.q.now store.work.now store.top g)) }
    ensures { Long (2 ^ 32) (AfterCount (OfContext store.entry.q.now store.entry.work.now store.entry.top g)) result }
{
    let mut total = 0;
    for k in 0..g.n {
        total = sum(total, entry_length(store, g.at + 4 * k));
    }
    sum(1, total)
}

// Writes a context's section: its entries, oldest first, and before them the count of their words.
pub fn write_context(store: Store, g: Span, report: &mut [u32], at: usize) -> usize
    requires { Writable store.q.now store.work.now store.top (AfterCount (OfContext store.q.now store.work.now store.top g)) report.old at }
    ensures { Writes (AfterCount (OfContext store.entry.q.now store.entry.work.now store.entry.top g)) report.old report.new at result }
{
    let first = at + 1;
    let mut next = first;
    for k in 0..g.n {
        next = write_entry(store, g.at + 4 * k, report, next);
    }
    put(report, at, next - first);
    next
}

// A context, and how long its section is.
#[derive(Clone, Copy)]
pub struct Known {
    pub g: Span,
    pub length: usize,
}

// A context, and where its section stands in the report.
#[derive(Clone, Copy)]
pub struct Standing {
    pub g: Span,
    pub at: usize,
    pub end: usize,
}

// How long a context's section is, after another: most nodes have the context of the node before.
pub fn length_after(store: Store, g: Span, last: Known) -> Known
    requires { (Spelled store.q.now store.work.now store.top (AfterCount (OfContext store.q.now store.work.now store.top g))) × Measures store.q.now store.work.now store.top last.g last }
    ensures { Measures store.entry.q.now store.entry.work.now store.entry.top g result }
{
    if g == last.g {
        return last;
    }
    let length = context_length(store, g);
    Known { g, length }
}

// Writes a context's section after another; where it is the same context, its words are copied.
pub fn write_after(store: Store, g: Span, report: &mut [u32], at: usize, last: Standing) -> Standing
    requires { (Writable store.q.now store.work.now store.top (AfterCount (OfContext store.q.now store.work.now store.top g)) report.old at) × Stands store.q.now store.work.now store.top report.old at last }
    ensures { WritesAfter store.entry.q.now store.entry.work.now store.entry.top g report.old report.new at result }
{
    let end = if g == last.g {
        let n = last.end - last.at;
        copy(report, last.at, at, n);
        at + n
    } else {
        write_context(store, g, report, at)
    };
    Standing { g, at, end }
}
