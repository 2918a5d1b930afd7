// What the six judgements share: what is asked and what comes back, entering and leaving, the nodes of the tree.
#![tactic(auto)]

ghost use Rattle.std.specs.Prelude.{◌≡◌, ◌<◌};
ghost use Rattle.definition.specs.Syntax.{rule_number};
ghost use Rattle.definition.specs.Reply.{error_code};
ghost use Rattle.definition.specs.Rules as rules;
ghost use Rattle.judging.specs.Asking.{mode, here, EntryFrom};
ghost use Rattle.judging.specs.Names.{rule_of, error_of};
ghost use Rattle.judging.specs.declared.Stop.TheVariants as Stop;
ghost use Rattle.judging.specs.Leaving.{Entering, EnteredBy, ConcludePre, Concludes, LeavePre, Left};

use layout::{Entry, Key, Span, Spent, State, put4};

// The words of a node.
pub const NODE: usize = 12;

// What varies with the mode.
#[derive(Clone, Copy)]
pub struct Mode {
    pub compares_parameter: bool,
    pub applies_branches: bool,
}

// What a judgement runs in: the mode. Question, work and this are handed on one by one: a struct that lends work as `&mut` needs, at each
// function, two clauses more, that it lends the same slice and the same question when it comes back. So are state and context: what applies
// or builds a type goes on with another state in the same context.
#[derive(Clone, Copy)]
pub struct Here {
    pub manner: Mode,
}

// What the question's judgement runs in.
pub fn outside(m: Mode) -> Here
    ensures { here result ≡ rules.outside (mode m) }
{
    Here { manner: m }
}

// The entry that a rule pushes or solves here.
pub fn entry(h: Here, k: Key, ty: usize) -> Entry
    ensures { EntryFrom h k ty result }
{
    Entry { key: k, ty: ty }
}

// A judgement besides its context: its kind (1 to 6), the place of its expression, its left and its right type; 0 where there is none.
#[derive(Clone, Copy)]
pub struct Ask {
    pub kind: usize,
    pub ex: usize,
    pub left: usize,
    pub right: usize,
}

// The rules, by their numbers.
#[derive(Clone, Copy, PartialEq, Eq)]
pub enum Rule {
    InfVar = 1,
    InfLitInt = 2,
    InfLitBool = 3,
    InfLam = 4,
    InfApp = 5,
    InfLet = 6,
    InfIf = 7,
    InfArith = 8,
    InfBool = 9,
    InfCmp = 10,
    InfEq = 11,
    InfAnn = 12,
    InfTAbs = 13,
    InfTApp = 14,
    InfAppArr = 15,
    InfAppETVar = 16,
    ChkLitInt = 17,
    ChkLitBool = 18,
    ChkLam = 19,
    ChkAll = 20,
    ChkSub = 21,
    SubRefl = 22,
    SubReflTVar = 23,
    SubReflETVar = 24,
    SubArr = 25,
    SubAllR = 26,
    SubAllL = 27,
    SubInstL = 28,
    SubInstR = 29,
    InstLSolve = 30,
    InstLReach = 31,
    InstLArr = 32,
    InstLAllR = 33,
    InstRSolve = 34,
    InstRReach = 35,
    InstRArr = 36,
    InstRAllL = 37,
}

impl Rule {
    pub fn number(self) -> usize
        ensures { (result ≡ rule_number (rule_of self)) × (result < 38) }
    {
        self as usize
    }
}

// What a rule gives: the output context, the result type (INT where there is none), the rule's number, how many children. Its judgement
// adds what it was charged, from entering on (0 before).
#[derive(Clone, Copy)]
pub struct Answer {
    pub st: State,
    pub g: Span,
    pub ty: usize,
    pub rule: usize,
    pub kids: usize,
    pub charge: usize,
}

// Type errors, by their codes.
#[derive(Clone, Copy, PartialEq, Eq)]
pub enum TypeError {
    UnboundVariable = 11,
    ApplicationTypeError = 12,
    TypeApplicationError = 13,
    OccursCheck = 14,
    SubtypingError = 15,
    InstantiationError = 16,
    ParameterMismatch = 17,
}

impl TypeError {
    pub fn code(self) -> u32
        ensures { result ≡ error_code (error_of self) }
    {
        self as u32
    }
}

// The types that a type error shows, by reference.
#[derive(Clone, Copy)]
pub enum Shown {
    NoType,
    OneType(usize),
    TwoTypes(usize, usize),
}

// A type error: its code, the name that it is about (0 where there is none), the types that it shows; and what the judgement was charged.
#[derive(Clone, Copy)]
pub struct Bad {
    pub st: State,
    pub code: usize,
    pub name: u32,
    pub shown: Shown,
    pub charge: usize,
}

// Why there is no answer: a type error; or the next charge would pass the budget.
#[derive(Clone, Copy)]
pub enum Stop {
    Fail(Bad),
    Spent,
}

impl Stop {
    // A type error; what its judgement was charged is not known yet.
    pub fn fail(st: State, error: TypeError, name: u32, shown: Shown) -> Stop
        ensures { result ≡ Stop.Fail (record { st = st; code = error_code (error_of error); name = name; shown = shown; charge = 0 }) }
    {
        Stop::Fail(Bad {
            st,
            code: error.code() as usize,
            name,
            shown,
            charge: 0,
        })
    }
}

impl From<layout::Spent> for Stop {
    ghost from_gives = { λ _ e. e ≡ Stop.Spent };

    fn from(_spent: layout::Spent) -> Stop {
        Stop::Spent
    }
}

// What a rule or a judgement comes to.
pub type Step = Result<Answer, Stop>;

// Pays for entering with a context, and reserves the judgement's node: the state in which the judgement's rule starts.
pub fn enter(st: State, g: Span) -> Result<State, Spent>
    requires { Entering st g }
    ensures { EnteredBy st g result }
{
    let paid = st.charge(g.n + 1)?;
    Ok(paid.lower(NODE))
}

// Pays for the output context and writes the judgement's node; st is the state in which the judgement was asked.
fn conclude(work: &mut [u32], st: State, g: Span, ask: Ask, r: Answer) -> Step
    requires { ConcludePre work.old st g ask r }
    ensures { Concludes work.old work.new st g ask r result }
{
    let paid = r.st.charge(r.g.n)?;
    let m = st.low - NODE;
    put4(work, m, r.rule, r.kids, ask.ex, g.at);
    put4(work, m + 4, g.n, ask.left, ask.right, r.g.at);
    put4(work, m + 8, r.g.n, r.ty, ask.kind, 0);
    Ok(Answer {
        st: paid,
        charge: paid.charged_since(st),
        ..r
    })
}

// A judgement comes to what its rule came to, z, with what it was charged; st is the state in which it was asked.
pub fn leave(work: &mut [u32], st: State, g: Span, ask: Ask, z: Step) -> Step
    requires { LeavePre work.old st g ask z }
    ensures { Left work.old work.new st g ask z result }
{
    match z {
        Ok(r) => conclude(work, st, g, ask, r),
        Err(Stop::Fail(b)) => Err(Stop::Fail(Bad {
            charge: b.st.charged_since(st),
            ..b
        })),
        Err(Stop::Spent) => Err(Stop::Spent),
    }
}
