// Types by reference, in the question or in work, shared where 000 clones: form, name, parts, lengths, words; records made at the top of work.
#![tactic(auto)]

ghost use Rattle.std.specs.Prelude.{◌≡◌, ◌+◌, ◌≤◌, min, length};
ghost use Rattle.types.specs.Reading.{Held, HeldAs, HeldNamed, Tagged, FormOf, Mono, Named, LeftOf, RightOf, BodyOf, LengthOf, RecordLength, WordsOf};
ghost use Rattle.types.specs.Making.{ArrowRoom, ForallRoom, PutETVar, PutArrow, PutForall};

use layout::{BASE, ENDS, MOST, TyVar, mono, number, past, put2, put4, with_mono, word};

// A type's form, numbered as its code.
#[derive(Clone, Copy, PartialEq, Eq)]
pub enum Form {
    Int = 1,
    Bool = 2,
    Var = 3,
    ETVar = 4,
    Arrow = 5,
    Forall = 6,
}

// Where types are read: the question, and work below top.
#[derive(Clone, Copy)]
pub struct Store<'a> {
    pub q: &'a [u32],
    pub work: &'a [u32],
    pub top: usize,
}

impl<'a> Store<'a> {
    // The type's code: 1 Int, 2 Bool, 3 Var, 4 ETVar, 5 Arrow, 6 Forall.
    pub fn tag(self, r: usize) -> usize
        requires { Held self.q.now self.work.now self.top r }
        ensures { Tagged self.entry.q.now self.entry.work.now self.entry.top r result }
    {
        if r < BASE {
            word(self.q, r)
        } else {
            number(self.work, r - BASE)
        }
    }

    // The type's form.
    pub fn form(self, r: usize) -> Form
        requires { Held self.q.now self.work.now self.top r }
        ensures { FormOf self.entry.q.now self.entry.work.now self.entry.top r result }
    {
        match self.tag(r) {
            1 => Form::Int,
            2 => Form::Bool,
            3 => Form::Var,
            4 => Form::ETVar,
            5 => Form::Arrow,
            _ => Form::Forall,
        }
    }

    // Whether no Forall is in the type, by its monotype mark.
    pub fn is_mono(self, r: usize) -> bool
        requires { Held self.q.now self.work.now self.top r }
        ensures { Mono self.entry.q.now self.entry.work.now self.entry.top r result }
    {
        if r < BASE {
            mono(self.work, ENDS + r)
        } else {
            mono(self.work, r - BASE)
        }
    }

    // The name of a Var, an ETVar or a Forall.
    pub fn name_of(self, r: usize) -> TyVar
        requires { HeldNamed self.q.now self.work.now self.top r }
        ensures { Named self.entry.q.now self.entry.work.now self.entry.top r result }
    {
        if r < BASE {
            TyVar(self.q[r + 1])
        } else {
            TyVar(self.work[r - BASE + 1])
        }
    }

    // What an Arrow takes.
    pub fn left_of(self, r: usize) -> usize
        requires { HeldAs self.q.now self.work.now self.top r 5 }
        ensures { LeftOf self.entry.q.now self.entry.work.now self.entry.top r result }
    {
        if r < BASE {
            r + 1
        } else {
            word(self.work, r - BASE + 1)
        }
    }

    // What an Arrow gives; in the question it stands where the left part ends.
    pub fn right_of(self, r: usize) -> usize
        requires { HeldAs self.q.now self.work.now self.top r 5 }
        ensures { RightOf self.entry.q.now self.entry.work.now self.entry.top r result }
    {
        if r < BASE {
            past(self.work, r + 1)
        } else {
            word(self.work, r - BASE + 2)
        }
    }

    // The type under a Forall. As left_of with 2 for 1, but one function over the number could not say in its contract which part it gives.
    pub fn body_of(self, r: usize) -> usize
        requires { HeldAs self.q.now self.work.now self.top r 6 }
        ensures { BodyOf self.entry.q.now self.entry.work.now self.entry.top r result }
    {
        if r < BASE {
            r + 2
        } else {
            word(self.work, r - BASE + 2)
        }
    }

    // The type's length in words, without a walk: by the table of ends, or as its record keeps it.
    pub fn type_length(self, r: usize) -> usize
        requires { Held self.q.now self.work.now self.top r }
        ensures { LengthOf self.entry.q.now self.entry.work.now self.entry.top r result }
    {
        if r < BASE {
            return past(self.work, r) - r;
        }
        let code = self.tag(r);
        if code < 5 {
            return record_length(code);
        }
        word(self.work, r - BASE + 3)
    }

    // A type's words as the part of whichever slice holds it: of the question, or its record in work.
    pub fn type_words(self, r: usize) -> &'a [u32]
        requires { Held self.q.now self.work.now self.top r }
        ensures { WordsOf self.entry.q.now self.entry.work.now self.entry.top r result.now }
    {
        if r < BASE {
            return &self.q[r..past(self.work, r)];
        }
        let i = r - BASE;
        &self.work[i..i + record_length(self.tag(r))]
    }
}

// How many words the record of a type of this code has. Of any number, as it was promised, and so of no Form.
pub fn record_length(code: usize) -> usize
    ensures { RecordLength code result }
{
    match code {
        1..=2 => 1,
        3..=4 => 2,
        _ => 4,
    }
}

// The sum of two lengths, stopping at LIMIT.
pub fn sum_to<const LIMIT: usize>(a: usize, b: usize) -> usize
    ensures { result ≡ min (a + b) LIMIT }
{
    a.saturating_add(b).min(LIMIT)
}

// Makes an ETVar's record, two words.
pub fn put_etvar(work: &mut [u32], top: usize, a: TyVar) -> usize
    requires { top + 2 ≤ length work.old }
    ensures { PutETVar work.old work.new top a result }
{
    put2(work, top, with_mono(4, true), a.0 as usize);
    BASE + top
}

// Makes an Arrow's record, four words, with its length; a monotype where both parts are. No method of Store, which only lends work.
pub fn put_arrow(q: &[u32], work: &mut [u32], top: usize, left: usize, right: usize) -> usize
    requires { ArrowRoom q.now work.old top left right }
    ensures { PutArrow q.now work.old work.new top left right result }
{
    let store = Store { q, work, top };
    let parts = sum_to::<MOST>(store.type_length(left), store.type_length(right));
    let length = sum_to::<MOST>(1, parts);
    let head = with_mono(5, store.is_mono(left) & store.is_mono(right));
    put4(work, top, head, left, right, length);
    BASE + top
}

// Makes a Forall's record, four words, with its length; no monotype.
pub fn put_forall(q: &[u32], work: &mut [u32], top: usize, a: TyVar, body: usize) -> usize
    requires { ForallRoom q.now work.old top body }
    ensures { PutForall q.now work.old work.new top a body result }
{
    let length = sum_to::<MOST>(2, Store { q, work, top }.type_length(body));
    put4(work, top, with_mono(6, false), a.0 as usize, body, length);
    BASE + top
}
