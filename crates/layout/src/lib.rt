// How types, contexts and a run's state lie in the question and in work (docs/LAYOUT.md), and the words they are made of.
#![tactic(auto)]

ghost use Rattle.std.specs.Prelude.{◌≡◌, ◌+◌, ◌-◌, ◌≤◌, ◌<◌, ◌^◌, length, get_or, set};
ghost use Rattle.definition.specs.Contexts.{kind_of, name_of};
ghost use Rattle.layout.specs.Sizes.{ENDS, MONO, CAP};
ghost use Rattle.layout.specs.Monotypes.{with_mono, number_at, mono_at, past};
ghost use Rattle.layout.specs.Names.{key};
ghost use Rattle.layout.specs.Kinds.{kind_number, OfNumber};
ghost use Rattle.layout.specs.Words.{Put2, Put4, Copied};
ghost use Rattle.layout.specs.Denotes.{SmallEntry, PutEntry};
ghost use Rattle.layout.specs.States.{started, raised, lowered, Draws, Charges};

// A type reference below this is a place in the question; from here on, this plus a place in work.
pub const BASE: usize = definition::QUESTION_MOST;

// The records of Int and Bool stand at the bottom of work.
pub const INT: usize = BASE;

pub const BOOL: usize = BASE + 1;

// From here on work holds, for each place of the question, the place past the item that stands there, of a type with its monotype mark.
pub const ENDS: usize = 16;

// Types and runs of entries grow up from here.
pub const FLOOR: usize = ENDS + BASE;

// A word has this more where it says that a type is a monotype: more than any code, and than any place past an item of the question.
pub const MONO: usize = 4_096;

// A length in words stops at this.
pub const MOST: usize = 4_294_967_295;

// A variable's name and a type's name: two kinds, so that a lookup cannot take the other.
#[derive(Clone, Copy, PartialEq, Eq)]
pub struct TmVar(pub u32);

#[derive(Clone, Copy, PartialEq, Eq)]
pub struct TyVar(pub u32);

// What is asked, as a question's kind and as a node of the tree say it: one of the six judgements, or infer with its type resolved.
#[derive(Clone, Copy, PartialEq, Eq)]
pub enum Kind {
    Infer = 1,
    Check = 2,
    InferApp = 3,
    Subtype = 4,
    InstL = 5,
    InstR = 6,
    Resolve = 7,
}

impl Kind {
    pub fn number(self) -> usize
        ensures { result ≡ kind_number self }
    {
        self as usize
    }
}

// A word that is no kind's number.
#[derive(Clone, Copy)]
pub struct NoKind;

impl TryFrom<u32> for Kind {
    type Error = NoKind;

    ghost try_from_gives = { OfNumber };

    fn try_from(number: u32) -> Result<Kind, NoKind> {
        match number {
            1 => Ok(Kind::Infer),
            2 => Ok(Kind::Check),
            3 => Ok(Kind::InferApp),
            4 => Ok(Kind::Subtype),
            5 => Ok(Kind::InstL),
            6 => Ok(Kind::InstR),
            7 => Ok(Kind::Resolve),
            _ => Err(NoKind),
        }
    }
}

// What a search asks for: an entry's kind and name.
#[derive(Clone, Copy)]
pub enum Key {
    Var(TmVar),
    TVar(TyVar),
    ETVar(TyVar),
    SETVar(TyVar),
    Mark(TyVar),
}

impl Key {
    pub fn kind(self) -> usize
        ensures { result ≡ kind_of (key self) }
    {
        match self {
            Key::Var(_) => 32,
            Key::TVar(_) => 33,
            Key::ETVar(_) => 34,
            Key::SETVar(_) => 35,
            Key::Mark(_) => 36,
        }
    }

    pub fn name(self) -> usize
        ensures { (result ≡ name_of (key self)) × (result < 2 ^ 32) }
    {
        match self {
            Key::Var(x) => x.0 as usize,
            Key::TVar(a) => a.0 as usize,
            Key::ETVar(a) => a.0 as usize,
            Key::SETVar(a) => a.0 as usize,
            Key::Mark(a) => a.0 as usize,
        }
    }
}

// A run's state: types and runs of entries grow up from top, nodes down from low; the budget left; the fresh names taken.
#[derive(Clone, Copy)]
pub struct State {
    pub top: usize,
    pub low: usize,
    pub left: usize,
    pub fresh: usize,
}

// A fresh name, and the state once it is taken.
#[derive(Clone, Copy)]
pub struct Drawn {
    pub st: State,
    pub name: TyVar,
}

// The next charge would pass the budget.
#[derive(Clone, Copy)]
pub struct Spent;

// The state in which a run starts: nothing is built above the table of ends, nodes go down from low, the whole budget is left.
pub fn start(low: usize, budget: usize) -> State
    ensures { result ≡ started low budget }
{
    State {
        top: FLOOR,
        low,
        left: budget,
        fresh: 0,
    }
}

impl State {
    // Pays c units.
    pub fn charge(self, c: usize) -> Result<State, Spent>
        ensures { Charges self c result }
    {
        if self.left < c {
            return Err(Spent);
        }
        Ok(State {
            left: self.left - c,
            ..self
        })
    }

    // What was charged from an earlier state on.
    pub fn charged_since(self, from: State) -> usize
        requires { self.left ≤ from.left }
        ensures { result ≡ from.left - self.left }
    {
        from.left - self.left
    }

    // Takes the next fresh name.
    pub fn draw(self) -> Drawn
        requires { self.fresh < CAP }
        ensures { Draws self result }
    {
        Drawn {
            st: State {
                fresh: self.fresh + 1,
                ..self
            },
            name: TyVar(definition::FIRST_FRESH + self.fresh as u32),
        }
    }

    // Past n words that were built at top.
    pub fn raise(self, n: usize) -> State
        requires { self.top + n ≤ CAP }
        ensures { result ≡ raised self n }
    {
        State {
            top: self.top + n,
            ..self
        }
    }

    // Reserves the n words below low.
    pub fn lower(self, n: usize) -> State
        requires { n ≤ self.low }
        ensures { result ≡ lowered self n }
    {
        State {
            low: self.low - n,
            ..self
        }
    }
}

// An entry: its kind and name, and a reference to the type that it holds (INT where it holds none).
#[derive(Clone, Copy)]
pub struct Entry {
    pub key: Key,
    pub ty: usize,
}

// A context: n entries of four words (kind, name, type reference, spare) from a place of work on.
#[derive(Clone, Copy, PartialEq, Eq)]
pub struct Span {
    pub at: usize,
    pub n: usize,
}

// A type that was made (or found), by reference, and the state then.
#[derive(Clone, Copy)]
pub struct Made {
    pub st: State,
    pub ty: usize,
}

// The word at i, as a number that indexes.
pub fn word(s: &[u32], i: usize) -> usize
    requires { i < length s.now }
    ensures { (result ≡ get_or s.now i 0) × (result < 2 ^ 32) }
{
    s[i] as usize
}

// Puts v at i.
pub fn put(w: &mut [u32], i: usize, v: usize)
    requires { (i < length w.old) × (v < 2 ^ 32) }
    ensures { w.new ≡ set w.old i v }
{
    w[i] = v as u32;
}

// The number n, below MONO, and a yes or no in one word.
pub fn with_mono(n: usize, yes: bool) -> usize
    requires { n < MONO }
    ensures { (result ≡ with_mono n yes) × (result < 2 ^ 32) }
{
    if yes {
        return n + MONO;
    }
    n
}

// The number that the word at i keeps.
pub fn number(w: &[u32], i: usize) -> usize
    requires { i < length w.now }
    ensures { result ≡ number_at w.now i }
{
    word(w, i) % MONO
}

// The yes or no that the word at i keeps.
pub fn mono(w: &[u32], i: usize) -> bool
    requires { i < length w.now }
    ensures { result ≡ mono_at w.now i }
{
    MONO <= word(w, i)
}

// The place past the item that stands at p of the question, by the table of ends.
pub fn past(work: &[u32], p: usize) -> usize
    requires { ENDS + p < length work.now }
    ensures { result ≡ past work.now p }
{
    number(work, ENDS + p)
}

// Puts two words. Over an array of N, the contract of this and of put4 would have to say by index what theirs say by name.
pub fn put2(w: &mut [u32], i: usize, a: usize, b: usize)
    requires { (i + 2 ≤ length w.old) × (a < 2 ^ 32) × (b < 2 ^ 32) }
    ensures { Put2 w.old w.new i a b }
{
    put(w, i, a);
    put(w, i + 1, b);
}

// Puts four words.
pub fn put4(w: &mut [u32], i: usize, a: usize, b: usize, c: usize, d: usize)
    requires { (i + 4 ≤ length w.old) × (a < 2 ^ 32) × (b < 2 ^ 32) × (c < 2 ^ 32) × (d < 2 ^ 32) }
    ensures { Put4 w.old w.new i a b c d }
{
    put(w, i, a);
    put(w, i + 1, b);
    put(w, i + 2, c);
    put(w, i + 3, d);
}

// Puts an entry.
pub fn put_entry(work: &mut [u32], at: usize, e: Entry)
    requires { (at + 4 ≤ length work.old) × (SmallEntry e) }
    ensures { PutEntry work.old work.new at e }
{
    put4(work, at, e.key.kind(), e.key.name(), e.ty, 0);
}

// Copies n words to a place past them. Word by word: copy_from_slice calls memmove, which the archive for C would newly need.
pub fn copy(words: &mut [u32], from: usize, to: usize, n: usize)
    requires { (from + n ≤ to) × (to + n ≤ length words.old) }
    ensures { Copied words.old words.new from to n }
{
    for i in 0..n {
        words[to + i] = words[from + i];
    }
}
