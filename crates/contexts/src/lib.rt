// Contexts as runs of entries in work: searched by kind and name, and built anew at top; words below top never change.
#![tactic(auto)]

ghost use Rattle.std.specs.Prelude.{◌+◌, ◌-◌, ◌*◌, ◌≤◌, ◌<◌, ◌^◌, ◌≡◌, length, get_or};
ghost use Rattle.layout.specs.Sizes.{CAP};
ghost use Rattle.layout.specs.Names.{ty, key};
ghost use Rattle.contexts.specs.Search.{First, Split, Looked, Before, Right};
ghost use Rattle.contexts.specs.Build.{Space, SmallEntries, Past, CopiedRight, Spliced, Put, Pushed, Replaced, Kept, KeptBoth};

use layout::{Entry, Key, Span, State, TyVar, copy, put_entry, word};

// The kind of a solved entry, as a word says it.
const SETVAR: usize = 35;

// A context that was built at top, and the state past it.
#[derive(Clone, Copy)]
pub struct Opened {
    pub st: State,
    pub g: Span,
}

// The index of the earliest entry of that kind and name, or n.
fn first(work: &[u32], g: Span, kind: usize, name: usize) -> usize
    requires { g.at + 4 * g.n ≤ length work.now }
    ensures { First work.now g.at g.n kind name result }
{
    for i in 0..g.n {
        let p = g.at + 4 * i;
        if word(work, p) == kind && word(work, p + 1) == name {
            return i;
        }
    }
    g.n
}

// find and break3 at once: the index of the earliest entry with the key, or n. Left of it is break3's left, right of it its right. No Option:
// where there is none, break3's left is the n entries.
pub fn find(work: &[u32], g: Span, k: Key) -> usize
    requires { g.at + 4 * g.n ≤ length work.now }
    ensures { Split work.now g (key k) result }
{
    first(work, g, k.kind(), k.name())
}

// The type reference that entry i holds.
pub fn type_at(work: &[u32], g: Span, i: usize) -> usize
    requires { (g.at + 4 * g.n ≤ length work.now) × (i < g.n) }
    ensures { (result ≡ get_or work.now (g.at + 4 * i + 2) 0) × (result < 2 ^ 32) }
{
    word(work, g.at + 4 * i + 2)
}

// The type reference that the earliest entry with the key holds.
pub fn lookup(work: &[u32], g: Span, k: Key) -> Option<usize>
    requires { g.at + 4 * g.n ≤ length work.now }
    ensures { Looked work.now g (key k) result }
{
    let i = find(work, g, k);
    if i == g.n {
        return None;
    }
    Some(type_at(work, g, i))
}

// Whether both have an unsolved entry and a's earliest one stands later.
pub fn before(work: &[u32], g: Span, a: TyVar, b: TyVar) -> bool
    requires { g.at + 4 * g.n ≤ length work.now }
    ensures { Before work.now g (ty a) (ty b) result }
{
    let i = find(work, g, Key::ETVar(a));
    if i == g.n {
        return false;
    }
    let left = Span { at: g.at, n: i };
    find(work, left, Key::ETVar(b)) < i
}

// The run right of the earliest entry with the key; nothing where there is none.
pub fn right_of(work: &[u32], g: Span, k: Key) -> Span
    requires { g.at + 4 * g.n ≤ length work.now }
    ensures { Right work.now g (key k) result }
{
    let i = find(work, g, k);
    if i == g.n {
        return Span { at: g.at, n: 0 };
    }
    Span {
        at: g.at + 4 * (i + 1),
        n: g.n - (i + 1),
    }
}

// The run of n entries at top, and the state past it.
fn past(st: State, n: usize) -> Opened
    requires { st.top + 4 * n ≤ CAP }
    ensures { Past st n result }
{
    Opened {
        st: st.raise(4 * n),
        g: Span { at: st.top, n },
    }
}

// Copies the entries right of i; how many they are.
fn copy_right(work: &mut [u32], g: Span, i: usize, to: usize) -> usize
    requires { (g.at + 4 * g.n ≤ to) × (to + 4 * (g.n - (i + 1)) ≤ length work.old) }
    ensures { CopiedRight work.old work.new g i to result }
{
    if g.n <= i {
        return 0;
    }
    let rest = g.n - (i + 1);
    copy(work, g.at + 4 * (i + 1), to, 4 * rest);
    rest
}

// Copies the entries left of i to top, and those right of it past a gap of m entries.
fn splice(work: &mut [u32], st: State, g: Span, i: usize, m: usize) -> Opened
    requires { (Space work.old st g m) × (i ≤ g.n) }
    ensures { Spliced work.old work.new st g i m result }
{
    let gap = i + m;
    copy(work, g.at, st.top, 4 * i);
    let rest = copy_right(work, g, i, st.top + 4 * gap);
    past(st, gap + rest)
}

// Puts entries one after another.
fn put_entries<const N: usize>(work: &mut [u32], at: usize, es: [Entry; N])
    requires { (at + 4 * N ≤ length work.old) × (SmallEntries es) }
    ensures { Put work.old work.new at es.entry }
{
    for (i, e) in es.iter().enumerate() {
        put_entry(work, at + 4 * i, *e);
    }
}

// Pushes entries.
pub fn push<const N: usize>(work: &mut [u32], st: State, g: Span, es: [Entry; N]) -> Opened
    requires { (Space work.old st g N) × (SmallEntries es) }
    ensures { Pushed work.old work.new st g es.entry result }
{
    let o = splice(work, st, g, g.n, N);
    put_entries(work, st.top + 4 * g.n, es);
    o
}

// Entries in the place of the earliest unsolved a, or at the end.
pub fn replace<const N: usize>(
    work: &mut [u32],
    st: State,
    g: Span,
    a: TyVar,
    es: [Entry; N],
) -> Opened
    requires { (Space work.old st g N) × (SmallEntries es) }
    ensures { Replaced work.old work.new st g (ty a) es.entry result }
{
    let i = find(work, g, Key::ETVar(a));
    let o = splice(work, st, g, i, N);
    put_entries(work, st.top + 4 * i, es);
    o
}

// Copies an entry if it is solved; how many were copied.
fn keep_solved(work: &mut [u32], from: usize, to: usize) -> usize
    requires { (from + 4 ≤ to) × (to + 4 ≤ length work.old) }
    ensures { Kept work.old work.new from 1 to result }
{
    let kind = word(work, from);
    if kind == SETVAR {
        copy(work, from, to, 4);
        return 1;
    }
    0
}

// Copies the solved ones of a run of entries; how many they are.
fn solved(work: &mut [u32], g: Span, to: usize) -> usize
    requires { (g.at + 4 * g.n ≤ to) × (to + 4 * g.n ≤ length work.old) }
    ensures { Kept work.old work.new g.at g.n to result }
{
    let mut m = 0;
    for i in 0..g.n {
        m += keep_solved(work, g.at + 4 * i, to + 4 * m);
    }
    m
}

// The solved entries left of the earliest entry with the key, then those right of it.
pub fn solved_and_right(work: &mut [u32], st: State, g: Span, k: Key) -> Opened
    requires { Space work.old st g 0 }
    ensures { KeptBoth work.old work.new st g (key k) result }
{
    let i = find(work, g, k);
    let m = solved(work, Span { at: g.at, n: i }, st.top);
    let rest = copy_right(work, g, i, st.top + 4 * m);
    past(st, m + rest)
}
