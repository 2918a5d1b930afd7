// An expression's parts by its form: names and places in the question. A part that stands behind another begins where that one ends.
#![tactic(auto)]

ghost use Rattle.std.specs.Prelude.{◌≡◌, get_or};
ghost use Rattle.definition.specs.Syntax.{ann, tapp};
ghost use Rattle.layout.specs.Places.{CodeAt};
ghost use Rattle.expressions.specs.Forms.{form_number, Stands, Shaped, HasType, VarOf, AppOf, AbsOf, TypedOf, TAbsOf, LetOf, IfOf, BinOpOf};

use layout::{TmVar, TyVar, past, word};

// The parts of each form: names, the operator's number, else places of the question. Some look alike, but hold a type where others hold an
// expression, and their contracts say which.
#[derive(Clone, Copy)]
pub struct App {
    pub func: usize,
    pub arg: usize,
}

#[derive(Clone, Copy)]
pub struct Abs {
    pub x: TmVar,
    pub ty: usize,
    pub body: usize,
}

// An Ann or a TApp.
#[derive(Clone, Copy)]
pub struct Typed {
    pub e: usize,
    pub ty: usize,
}

#[derive(Clone, Copy)]
pub struct TAbs {
    pub a: TyVar,
    pub body: usize,
}

#[derive(Clone, Copy)]
pub struct Let {
    pub x: TmVar,
    pub first: usize,
    pub body: usize,
}

#[derive(Clone, Copy)]
pub struct If {
    pub cond: usize,
    pub yes: usize,
    pub no: usize,
}

#[derive(Clone, Copy)]
pub struct BinOp {
    pub op: usize,
    pub left: usize,
    pub right: usize,
}

// An expression's form, numbered as its code.
#[derive(Clone, Copy, PartialEq, Eq)]
pub enum Form {
    Var = 16,
    App = 17,
    Abs = 18,
    TApp = 19,
    TAbs = 20,
    Ann = 21,
    LitInt = 22,
    LitBool = 23,
    Let = 24,
    If = 25,
    BinOp = 26,
}

// The form of the expression at ex.
pub fn form_of(q: &[u32], ex: usize) -> Form
    requires { Stands q.now ex }
    ensures { get_or q.now ex 0 ≡ form_number result }
{
    match q[ex] {
        16 => Form::Var,
        17 => Form::App,
        18 => Form::Abs,
        19 => Form::TApp,
        20 => Form::TAbs,
        21 => Form::Ann,
        22 => Form::LitInt,
        23 => Form::LitBool,
        24 => Form::Let,
        25 => Form::If,
        _ => Form::BinOp,
    }
}

// The name of a Var. Here and below no type that question and work are put into: each is asked once, of one expression.
pub fn var_of(q: &[u32], work: &[u32], ex: usize) -> TmVar
    requires { Shaped q.now work.now ex 16 }
    ensures { VarOf q.now ex result }
{
    TmVar(q[ex + 1])
}

// The parts of an App.
pub fn app_of(q: &[u32], work: &[u32], ex: usize) -> App
    requires { Shaped q.now work.now ex 17 }
    ensures { AppOf q.now ex result }
{
    let func = ex + 1;
    App {
        func,
        arg: past(work, func),
    }
}

// The parts of an Abs: its body stands behind its type.
pub fn abs_of(q: &[u32], work: &[u32], ex: usize) -> Abs
    requires { Shaped q.now work.now ex 18 }
    ensures { AbsOf q.now ex result }
{
    let ty = ex + 2;
    Abs {
        x: TmVar(q[ex + 1]),
        ty,
        body: past(work, ty),
    }
}

// The parts of an Ann or of a TApp.
pub fn typed_of(q: &[u32], work: &[u32], ex: usize) -> Typed
    requires { HasType q.now work.now ex }
    ensures ann { CodeAt q.now ex 21 → TypedOf ann q.now ex result }
    ensures tapp { CodeAt q.now ex 19 → TypedOf tapp q.now ex result }
{
    let e = ex + 1;
    Typed {
        e,
        ty: past(work, e),
    }
}

// The parts of a TAbs.
pub fn tabs_of(q: &[u32], work: &[u32], ex: usize) -> TAbs
    requires { Shaped q.now work.now ex 20 }
    ensures { TAbsOf q.now ex result }
{
    TAbs {
        a: TyVar(q[ex + 1]),
        body: ex + 2,
    }
}

// The parts of a Let.
pub fn let_of(q: &[u32], work: &[u32], ex: usize) -> Let
    requires { Shaped q.now work.now ex 24 }
    ensures { LetOf q.now ex result }
{
    let first = ex + 2;
    Let {
        x: TmVar(q[ex + 1]),
        first,
        body: past(work, first),
    }
}

// The parts of an If: the second branch stands behind the first.
pub fn if_of(q: &[u32], work: &[u32], ex: usize) -> If
    requires { Shaped q.now work.now ex 25 }
    ensures { IfOf q.now ex result }
{
    let cond = ex + 1;
    let yes = past(work, cond);
    If {
        cond,
        yes,
        no: past(work, yes),
    }
}

// The parts of a BinOp.
pub fn binop_of(q: &[u32], work: &[u32], ex: usize) -> BinOp
    requires { Shaped q.now work.now ex 26 }
    ensures { BinOpOf q.now ex result }
{
    let left = ex + 2;
    BinOp {
        op: word(q, ex + 1),
        left,
        right: past(work, left),
    }
}
