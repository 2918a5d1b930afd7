// What is laid into work once a question is read: the table of ends (`ends`), and its context as a run of entries.
#![tactic(auto)]

ghost use Rattle.loading.specs.Loading.{Loads, LoadedFrom, Loading, Loaded, Readable, EntryRest};

use contexts::Opened;
use layout::{INT, Span, State, past, put4, word};

pub mod ends;

// An entry's type reference (INT where it holds none), and the place past the entry.
#[derive(Clone, Copy)]
pub struct Rest {
    pub ty: usize,
    pub next: usize,
}

// What stands after the kind and the name of the entry at p. By the word that was read there: a Key would need the name besides.
fn rest_of(work: &[u32], kind: usize, p: usize) -> Rest
    requires { Readable work.now kind p }
    ensures { EntryRest work.now kind p result }
{
    let first = p + 2;
    match kind {
        32 | 35 => Rest {
            ty: first,
            next: past(work, first),
        },
        _ => Rest {
            ty: INT,
            next: first,
        },
    }
}

// Puts n entries of the question, from place p on, at a place of work and onward.
fn load_from(q: &[u32], work: &mut [u32], p: usize, at: usize, n: usize)
    requires { Loads q.now work.old p at n }
    ensures { LoadedFrom q.now work.old work.new p at n }
{
    let mut next = p;
    for i in 0..n {
        let kind = word(q, next);
        let name = word(q, next + 1);
        let r = rest_of(work, kind, next);
        put4(work, at + 4 * i, kind, name, r.ty, 0);
        next = r.next;
    }
}

// The context that stands from place p of the question on, n entries, as a run at top.
pub fn load_context(q: &[u32], work: &mut [u32], st: State, p: usize, n: usize) -> Opened
    requires { Loading q.now work.old st p n }
    ensures { Loaded q.now work.old work.new st p n result }
{
    load_from(q, work, p, st.top, n);
    Opened {
        st: st.raise(4 * n),
        g: Span { at: st.top, n },
    }
}
