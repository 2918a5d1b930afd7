// A report's sections, each as the part of the report slice that it fills, count excluded, empty where there is none; and its tree, node by node.
#![tactic(auto)]

ghost use Rattle.std.specs.Prelude.{◌≡◌, ◌≤◌, length, take};
ghost use Rattle.sections.specs.Sections.{is_error, has_section, order_of, part_of, PlacedPart, PartAt, PartOf};
ghost use Rattle.sections.specs.Nodes.{whole_at, node_in};

use definition::LAST_ERROR;
use replies::Reply;

// What is asked for: on 0 a report has a type, a context and a tree; on 11 to 17 a first and a second type, those of the error.
#[derive(Clone, Copy)]
pub enum Section {
    Ty,
    Context,
    Tree,
    First,
    Second,
}

// A part of a slice; no std Range, which is not Copy as this and a node of five are.
#[derive(Clone, Copy)]
pub struct Bounds {
    pub from: usize,
    pub to: usize,
}

// A node of a tree, as it is written: the place is its expression's in the question. The next node stands where its own words end.
#[derive(Clone, Copy)]
pub struct Node {
    pub rule: u32,
    pub children: u32,
    pub place: u32,
    pub input: Bounds,
    pub left: Bounds,
    pub right: Bounds,
    pub output: Bounds,
    pub result: Bounds,
    pub end: usize,
}

// The words of the section whose count stands at a place of the first n words.
fn part_at(report: &[u32], n: usize, at: usize) -> Bounds
    requires { n ≤ length report.now }
    ensures { PartAt report.now n at result }
{
    if n <= at {
        return Bounds { from: n, to: n };
    }
    let count = report[at] as usize;
    let from = at + 1;
    if count <= n - from {
        return Bounds {
            from,
            to: from + count,
        };
    }
    Bounds { from: n, to: n }
}

// The words of section k of a report of the given length.
fn part_of(report: &[u32], len: usize, k: usize) -> Bounds
    ensures { PartOf report.now len k result }
{
    let n = report.len().min(len);
    let mut b = part_at(report, n, 0);
    for _ in 0..k {
        b = part_at(report, n, b.to);
    }
    b
}

// Whether a code is a type error's.
fn is_error(code: u32) -> bool
    ensures { result ≡ is_error code }
{
    matches!(code, 11..=LAST_ERROR)
}

// Whether the report of a reply with this code has the section.
fn has_section(s: Section, code: u32) -> bool
    ensures { result ≡ has_section s code }
{
    match s {
        Section::Ty | Section::Context | Section::Tree => code == 0,
        Section::First | Section::Second => is_error(code),
    }
}

// How many sections stand before it.
fn place_of(s: Section) -> usize
    ensures { result ≡ order_of s }
{
    match s {
        Section::Ty | Section::First => 0,
        Section::Context | Section::Second => 1,
        Section::Tree => 2,
    }
}

// Where the section of a reply's report stands: a caller whose report is lent as `&mut` takes `&mut report[from..to]`.
pub fn bounds_of(report: &[u32], r: Reply, s: Section) -> Bounds
    ensures { PlacedPart report.now r s result }
{
    if has_section(s, r.code) {
        return part_of(report, r.len as usize, place_of(s));
    }
    Bounds { from: 0, to: 0 }
}

// The section of a reply's report.
pub fn section_of(report: &[u32], r: Reply, s: Section) -> &[u32]
    ensures { result.now ≡ part_of s r.code (take r.len report.now) }
{
    let Bounds { from, to } = bounds_of(report, r, s);
    &report[from..to]
}

// Whether the section whose count stands at a place lies within the words.
fn whole_at(words: &[u32], at: usize) -> bool
    ensures { result ≡ whole_at words.now at }
{
    let n = words.len();
    at < n && words[at] as usize <= n - (at + 1)
}

// The node whose rule number stands at a place of any words; none where those that stand there are no whole one.
pub fn node_at(words: &[u32], at: usize) -> Option<Node>
    ensures { result ≡ node_in words.now at }
{
    let n = words.len();
    if n.saturating_sub(3) <= at {
        return None;
    }
    let input = part_at(words, n, at + 3);
    let left = part_at(words, n, input.to);
    let right = part_at(words, n, left.to);
    let output = part_at(words, n, right.to);
    if !whole_at(words, output.to) {
        return None;
    }
    let result = part_at(words, n, output.to);
    Some(Node {
        rule: words[at],
        children: words[at + 1],
        place: words[at + 2],
        input,
        left,
        right,
        output,
        result,
        end: result.to,
    })
}
