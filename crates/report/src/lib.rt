// The report: how long it is, from the records' own lengths; then its words, or that there is no room for them.
#![tactic(auto)]

ghost use Rattle.std.specs.Prelude.{◌≡◌, ◌+◌, ◌≤◌, ◌^◌, length};
ghost use Rattle.definition.specs.Reply.{gives_type};
ghost use Rattle.writing.specs.Spelling.{AfterCount, Long, Spelled, Writable, Writes};
ghost use Rattle.writing.specs.After.{Measures, Stands};
ghost use Rattle.report.specs.Nodes.{NodeRead, WordsFit, Three, OfNode, OfNodes, NodeLong, WritesNode};
ghost use Rattle.report.specs.Reports.{OfResult, ResultParts, OfError, slots_of, ErrorParts, ByLength, Reports};

use judging::{Answer, Bad, NODE, Shown};
use layout::{MOST, Span, put, word};
use types::Store;
use writing::{
    Known, Standing, context_length, length_after, section_length, sum, write_after, write_context,
    write_section,
};

// The slice is too short for a report: the length that is needed (at most MOST).
#[derive(Clone, Copy)]
pub struct NoRoom(pub usize);

// A node as its words in work give it: a type where its kind has one.
#[derive(Clone, Copy)]
struct Node {
    rule: usize,
    kids: usize,
    place: usize,
    input: Span,
    left: Option<usize>,
    right: Option<usize>,
    output: Span,
    result: Option<usize>,
}

// Reads the node at m. Its kind, a word that is asked here alone and so by its number, is as in the question of the judgement: 1 infer,
// 2 check, 3 infer_app, 4 subtype, 5 inst_l, 6 inst_r; a result only for 1 and 3.
fn node_at(work: &[u32], m: usize) -> Node
    requires { m + 12 ≤ length work.now }
    ensures { NodeRead work.now m result }
{
    let l = word(work, m + 5);
    let r = word(work, m + 6);
    let ty = word(work, m + 9);
    let (left, right, result) = match word(work, m + 10) {
        1 => (None, None, Some(ty)),
        2 => (None, Some(r), None),
        3 => (Some(l), None, Some(ty)),
        _ => (Some(l), Some(r), None),
    };
    Node {
        rule: word(work, m),
        kids: word(work, m + 1),
        place: word(work, m + 2),
        input: Span {
            at: word(work, m + 3),
            n: word(work, m + 4),
        },
        left,
        right,
        output: Span {
            at: word(work, m + 7),
            n: word(work, m + 8),
        },
        result,
    }
}

// How long a node is, and its output context, by which the next node's contexts are known.
#[derive(Clone, Copy)]
struct Measured {
    length: usize,
    output: Known,
}

// How long the node at m is, after another context.
fn node_length(store: Store, m: usize, last: Known) -> Measured
    requires { (Spelled store.q.now store.work.now store.top (OfNode store.q.now store.work.now store.top m)) × Measures store.q.now store.work.now store.top last.g last }
    ensures { NodeLong store.entry.q.now store.entry.work.now store.entry.top m result }
{
    let n = node_at(store.work, m);
    let input = length_after(store, n.input, last);
    let left = section_length(store, n.left);
    let right = section_length(store, n.right);
    let output = length_after(store, n.output, input);
    let result = section_length(store, n.result);
    let types = sum(left, sum(right, sum(output.length, result)));
    let length = sum(3, sum(input.length, types));
    Measured { length, output }
}

// Writes three words.
fn write_three(report: &mut [u32], at: usize, a: usize, b: usize, c: usize) -> usize
    requires { WordsFit report.old at a b c }
    ensures { Writes (Three a b c) report.old report.new at result }
{
    put(report, at, a);
    put(report, at + 1, b);
    put(report, at + 2, c);
    at + 3
}

// Where a node ends that was written, and where its output context stands.
#[derive(Clone, Copy)]
struct Wrote {
    end: usize,
    output: Standing,
}

// Writes the node at m, after another context: rule, number of children, place, five sections.
fn write_node(store: Store, m: usize, report: &mut [u32], at: usize, last: Standing) -> Wrote
    requires { (Writable store.q.now store.work.now store.top (OfNode store.q.now store.work.now store.top m) report.old at) × Stands store.q.now store.work.now store.top report.old at last }
    ensures { WritesNode store.entry.q.now store.entry.work.now store.entry.top m report.old report.new at result }
{
    let n = node_at(store.work, m);
    let first = write_three(report, at, n.rule, n.kids, n.place);
    let input = write_after(store, n.input, report, first, last);
    let right = write_section(store, n.left, report, input.end);
    let next = write_section(store, n.right, report, right);
    let output = write_after(store, n.output, report, next, input);
    let end = write_section(store, n.result, report, output.end);
    Wrote { end, output }
}

// How long the tree's section is, whose nodes stand from high down to low, after another context.
// A `for` would count the nodes by a division, and find each by the count; the places themselves fall by NODE.
fn tree_length(store: Store, low: usize, high: usize, context: Known) -> usize
    requires { (Spelled store.q.now store.work.now store.top (AfterCount (OfNodes store.q.now store.work.now store.top low high))) × Measures store.q.now store.work.now store.top context.g context }
    ensures { Long (2 ^ 32) (AfterCount (OfNodes store.entry.q.now store.entry.work.now store.entry.top low high)) result }
{
    let mut total = 0;
    let mut m = high;
    let mut last = context;
    while low < m {
        m -= NODE;
        let z = node_length(store, m, last);
        total = sum(total, z.length);
        last = z.output;
    }
    sum(1, total)
}

// Writes the tree's section after another context: its nodes, parent first, and before them the count of their words.
fn write_tree(
    store: Store,
    low: usize,
    high: usize,
    report: &mut [u32],
    at: usize,
    context: Standing,
) -> usize
    requires { (Writable store.q.now store.work.now store.top (AfterCount (OfNodes store.q.now store.work.now store.top low high)) report.old at) × Stands store.q.now store.work.now store.top report.old at context }
    ensures { Writes (AfterCount (OfNodes store.entry.q.now store.entry.work.now store.entry.top low high)) report.old report.new at result }
{
    let first = at + 1;
    let mut next = first;
    let mut m = high;
    let mut last = context;
    // As in tree_length.
    while low < m {
        m -= NODE;
        let z = write_node(store, m, report, next, last);
        next = z.end;
        last = z.output;
    }
    put(report, at, next - first);
    next
}

// Whether a question of this kind is answered by a type: infer, infer_app, and infer with its type resolved. By the kind's number, since
// report_result is promised of any.
fn gives_type(kind: usize) -> bool
    ensures { result ≡ gives_type kind }
{
    match kind {
        1 => true,
        3 => true,
        7 => true,
        _ => false,
    }
}

// How long a result is: type, context, tree.
fn result_length(store: Store, ty: Option<usize>, a: Answer, high: usize) -> usize
    requires { Spelled store.q.now store.work.now store.top (ResultParts store.q.now store.work.now store.top ty a high) }
    ensures { Long (2 ^ 32) (ResultParts store.entry.q.now store.entry.work.now store.entry.top ty a high) result }
{
    let first = section_length(store, ty);
    let length = context_length(store, a.g);
    let tree = tree_length(store, a.st.low, high, Known { g: a.g, length });
    sum(first, sum(length, tree))
}

// Writes a result.
fn write_result(
    store: Store,
    ty: Option<usize>,
    a: Answer,
    high: usize,
    report: &mut [u32],
) -> usize
    requires { Writable store.q.now store.work.now store.top (ResultParts store.q.now store.work.now store.top ty a high) report.old 0 }
    ensures { Writes (ResultParts store.entry.q.now store.entry.work.now store.entry.top ty a high) report.old report.new 0 result }
{
    let at = write_section(store, ty, report, 0);
    let end = write_context(store, a.g, report, at);
    let context = Standing { g: a.g, at, end };
    write_tree(store, a.st.low, high, report, end, context)
}

// What fills a type error's two sections.
type Slots = (Option<usize>, Option<usize>);

// Each type that is shown fills a section, the first one first.
fn slots_of(shown: Shown) -> Slots
    ensures { result ≡ slots_of shown }
{
    match shown {
        Shown::NoType => (None, None),
        Shown::OneType(a) => (Some(a), None),
        Shown::TwoTypes(a, b) => (Some(a), Some(b)),
    }
}

// How long a type error's report is: its two sections.
fn error_length(store: Store, s: Slots) -> usize
    requires { Spelled store.q.now store.work.now store.top (ErrorParts store.q.now store.work.now store.top s) }
    ensures { Long (2 ^ 32) (ErrorParts store.entry.q.now store.entry.work.now store.entry.top s) result }
{
    sum(section_length(store, s.0), section_length(store, s.1))
}

// Writes a type error's report.
fn write_error(store: Store, s: Slots, report: &mut [u32]) -> usize
    requires { Writable store.q.now store.work.now store.top (ErrorParts store.q.now store.work.now store.top s) report.old 0 }
    ensures { Writes (ErrorParts store.entry.q.now store.entry.work.now store.entry.top s) report.old report.new 0 result }
{
    let second = write_section(store, s.0, report, 0);
    write_section(store, s.1, report, second)
}

// What becomes of a report of length n in a slice of so many words.
fn outcome(n: usize, room: usize) -> Result<usize, NoRoom>
    ensures { ByLength n room result }
{
    if MOST < n {
        return Err(NoRoom(MOST));
    }
    if room < n {
        return Err(NoRoom(n));
    }
    Ok(n)
}

// Reports an answer whose nodes stand from high down: three sections, and how long they are; or that there is no room for them.
pub fn report_result(
    q: &[u32],
    work: &[u32],
    kind: usize,
    a: Answer,
    high: usize,
    report: &mut [u32],
) -> Result<usize, NoRoom>
    requires { Spelled q.now work.now a.st.top (OfResult q.now work.now kind a high) }
    ensures { Reports (OfResult q.now work.now kind a high) report.old report.new result }
{
    let top = a.st.top;
    let store = Store { q, work, top };
    let ty = gives_type(kind).then_some(a.ty);
    let n = outcome(result_length(store, ty, a, high), report.len())?;
    write_result(store, ty, a, high, report);
    Ok(n)
}

// Reports a type error: two sections, and how long they are; or that there is no room for them.
pub fn report_error(q: &[u32], work: &[u32], b: Bad, report: &mut [u32]) -> Result<usize, NoRoom>
    requires { Spelled q.now work.now b.st.top (OfError q.now work.now b) }
    ensures { Reports (OfError q.now work.now b) report.old report.new result }
{
    let top = b.st.top;
    let store = Store { q, work, top };
    let s = slots_of(b.shown);
    let n = outcome(error_length(store, s), report.len())?;
    write_error(store, s, report);
    Ok(n)
}
