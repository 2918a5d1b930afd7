// What rules do before, between and after the judgements that they ask, and the rules that ask none. Functions named as 000's do its work.
#![tactic(auto)]

ghost use Rattle.std.specs.Prelude.{◌≡◌, Ok};
ghost use Rattle.definition.specs.Syntax.{on_l, on_r};
ghost use Rattle.layout.specs.Names.{ty as tyName, key};
ghost use Rattle.contexts.specs.Build.{Space};
ghost use Rattle.judging.specs.Asking.{infer_ask, check_ask, app_ask};
ghost use Rattle.judging.specs.Ending.{Fires};
ghost use Rattle.rules.specs.Parting.{PartPre, Parts};
ghost use Rattle.rules.specs.Opening.{ForallPre, OpensOn};
ghost use Rattle.rules.specs.Sides.{side, binder};
ghost use Rattle.rules.specs.Taking.{InferPre, Choice, OfLiteral, CheckPre, RefusePre};
ghost use Rattle.rules.specs.Going.{LamPre, LamIn, Two, TwoIn, Compared, AppliedBoth, Instantiated, PlainOut, KeepOut, TabsPre, TabsOut};

use judging::{Answer, Here, Rule, Shown, Step, Stop, TypeError};
use layout::{BOOL, INT, Key, Made, Span, Spent, State, TmVar, TyVar};
use types::{Form, Store};

// A side of subtype, inst_l or inst_r, on which a type stands.
#[derive(Clone, Copy)]
pub enum Side {
    L,
    R,
}

// A context in which an unknown is solved as an arrow of two fresh ones, and their types.
#[derive(Clone, Copy)]
pub struct Parted {
    pub st: State,
    pub g: Span,
    pub b: usize,
    pub c: usize,
}

// What stands under a Forall, its name, and the context for it.
#[derive(Clone, Copy)]
pub struct Body {
    pub st: State,
    pub g: Span,
    pub b: TyVar,
    pub ty: usize,
}

// What a lambda's body is checked in: the context with the parameter and a fresh unknown, the unknown, the lambda's type.
#[derive(Clone, Copy)]
pub struct Lam {
    pub st: State,
    pub g: Span,
    pub b: usize,
    pub ty: usize,
}

// Two types that subtype is asked of, and the state then.
#[derive(Clone, Copy)]
pub struct Both {
    pub st: State,
    pub a: usize,
    pub b: usize,
}

// ---- Rules that ask no judgement

// InfVar: the type of the variable's earliest entry; 11 if there is none.
pub fn infer_var(q: &[u32], work: &[u32], h: Here, st: State, g: Span, ex: usize) -> Step
    requires { InferPre q.now work.now st g ex 16 }
    ensures { Fires h q.now work.now work.now st g (infer_ask ex) result }
{
    let x = expressions::var_of(q, work, ex);
    match contexts::lookup(work, g, Key::Var(x)) {
        Some(ty) => Ok(plain_out(st, g, ty, Rule::InfVar as usize, 0)),
        None => Err(Stop::fail(st, TypeError::UnboundVariable, x.0, Shown::NoType)),
    }
}

// InfLitInt. One function for this and InfLitBool would take the type and the rule besides, and ask that they fit the literal: no plainer.
pub fn infer_lit_int(q: &[u32], work: &[u32], h: Here, st: State, g: Span, ex: usize) -> Step
    requires { InferPre q.now work.now st g ex 22 }
    ensures { Fires h q.now work.now work.now st g (infer_ask ex) result }
{
    Ok(plain_out(st, g, INT, Rule::InfLitInt as usize, 0))
}

// InfLitBool.
pub fn infer_lit_bool(q: &[u32], work: &[u32], h: Here, st: State, g: Span, ex: usize) -> Step
    requires { InferPre q.now work.now st g ex 23 }
    ensures { Fires h q.now work.now work.now st g (infer_ask ex) result }
{
    Ok(plain_out(st, g, BOOL, Rule::InfLitBool as usize, 0))
}

// The rule that checks an expression of code k against a type of code c: 000's arms in their order. Of any two numbers, as it was promised,
// and so of no forms.
pub fn check_choice(k: usize, c: usize) -> Rule
    ensures { Choice k c result }
{
    match (k, c) {
        (22, 1) => Rule::ChkLitInt,
        (23, 2) => Rule::ChkLitBool,
        (18, 5) => Rule::ChkLam,
        (_, 6) => Rule::ChkAll,
        _ => Rule::ChkSub,
    }
}

// ChkLitInt and ChkLitBool.
pub fn check_lit(
    q: &[u32],
    work: &[u32],
    h: Here,
    st: State,
    g: Span,
    ex: usize,
    ty: usize,
    rule: Rule,
) -> Step
    requires { (CheckPre q.now work.now st g ex ty rule) × OfLiteral rule }
    ensures { Fires h q.now work.now work.now st g (check_ask ex ty) result }
{
    Ok(plain_out(st, g, INT, rule.number(), 0))
}

// What is applied is no function: 12.
pub fn refuse_app(
    q: &[u32],
    work: &[u32],
    h: Here,
    st: State,
    g: Span,
    ty: usize,
    ex: usize,
) -> Step
    requires { RefusePre q.now work.now st g ty ex }
    ensures { Fires h q.now work.now work.now st g (app_ask ty ex) result }
{
    Err(Stop::fail(st, TypeError::ApplicationTypeError, 0, Shown::OneType(ty)))
}

// ---- Before a judgement

// InfLam: a fresh unknown, the type a to the unknown, and the context with x : a and the unknown.
pub fn lam_in(q: &[u32], work: &mut [u32], h: Here, st: State, g: Span, x: TmVar, a: usize) -> Lam
    requires { LamPre q.now work.old st g a }
    ensures { LamIn h q.now work.old work.new st g x a result }
{
    let one = st.draw();
    let b = types::put_etvar(work, st.top, one.name);
    let ty = types::put_arrow(q, work, st.top + 2, a, b);
    let e = judging::entry(h, Key::Var(x), a);
    let e2 = judging::entry(h, Key::ETVar(one.name), INT);
    let o = contexts::push(work, one.st.raise(6), g, [e, e2]);
    Lam {
        st: o.st,
        g: o.g,
        b,
        ty,
    }
}

// Solves a as an arrow of two fresh unknowns, which stand right of it.
pub fn part(q: &[u32], work: &mut [u32], h: Here, st: State, g: Span, a: TyVar) -> Parted
    requires { PartPre q.now work.old st g }
    ensures { Parts h q.now work.old work.new st g a result }
{
    let one = st.draw();
    let two = one.st.draw();
    let b = types::put_etvar(work, st.top, one.name);
    let c = types::put_etvar(work, st.top + 2, two.name);
    let arrow = types::put_arrow(q, work, st.top + 4, b, c);
    let e = judging::entry(h, Key::SETVar(a), arrow);
    let e2 = judging::entry(h, Key::ETVar(one.name), INT);
    let e3 = judging::entry(h, Key::ETVar(two.name), INT);
    let o = contexts::replace(work, two.st.raise(8), g, a, [e, e2, e3]);
    Parted {
        st: o.st,
        g: o.g,
        b,
        c,
    }
}

// Opens a Forall on the right: its body, with its name pushed.
pub fn open_right(q: &[u32], work: &mut [u32], h: Here, st: State, g: Span, r: usize) -> Body
    requires { ForallPre q.now work.old st g r }
    ensures { OpensOn h q.now work.old work.new st g r on_r (Ok result) }
{
    let store = Store {
        q,
        work,
        top: st.top,
    };
    let (b, ty) = (store.name_of(r), store.body_of(r));
    let o = contexts::push(work, st, g, [judging::entry(h, Key::TVar(b), INT)]);
    Body {
        st: o.st,
        g: o.g,
        b,
        ty,
    }
}

// Opens a Forall on the left: its body with an unknown for its name, with the unknown and a mark pushed.
fn open_left(
    q: &[u32],
    work: &mut [u32],
    h: Here,
    st: State,
    g: Span,
    r: usize,
) -> Result<Body, Spent>
    requires { ForallPre q.now work.old st g r }
    ensures { OpensOn h q.now work.old work.new st g r on_l result }
{
    let store = Store {
        q,
        work,
        top: st.top,
    };
    let (b, body) = (store.name_of(r), store.body_of(r));
    let unknown = types::put_etvar(work, st.top, b);
    let made = substitution::subst_type(q, work, st.raise(2), b, unknown, body)?;
    let e = judging::entry(h, Key::ETVar(b), INT);
    let e2 = judging::entry(h, Key::Mark(b), INT);
    let o = contexts::push(work, made.st, g, [e, e2]);
    Ok(Body {
        st: o.st,
        g: o.g,
        b,
        ty: made.ty,
    })
}

// Opens the Forall r, which stands on side s.
pub fn open_on(
    q: &[u32],
    work: &mut [u32],
    h: Here,
    st: State,
    g: Span,
    s: Side,
    r: usize,
) -> Result<Body, Spent>
    requires { ForallPre q.now work.old st g r }
    ensures { OpensOn h q.now work.old work.new st g r (side s) result }
{
    match s {
        Side::L => open_left(q, work, h, st, g, r),
        Side::R => Ok(open_right(q, work, h, st, g, r)),
    }
}

// What opening on side s pushed last, right of which the output stands: the mark of the name b, or the name.
pub fn pushed(s: Side, b: TyVar) -> Key
    ensures { key result ≡ binder (side s) (tyName b) }
{
    match s {
        Side::L => Key::Mark(b),
        Side::R => Key::TVar(b),
    }
}

// ---- Between judgements

// Strict mode's ChkLam: the written parameter a against the expected p with the context applied; 17 if they differ in more than the names
// bound by Forall.
pub fn parameter(
    q: &[u32],
    work: &mut [u32],
    h: Here,
    st: State,
    g: Span,
    a: usize,
    p: usize,
) -> Result<State, Stop>
    requires { TwoIn q.now work.old st g a p }
    ensures { Compared h q.now work.old work.new st g a p result }
{
    if !h.manner.compares_parameter {
        return Ok(st);
    }
    let applied = substitution::apply_ctx_type(q, work, st, g, p)?;
    if walks::same_type(q, work, applied.st.top, 0, a, applied.ty) {
        return Ok(applied.st);
    }
    Err(Stop::fail(
        applied.st,
        TypeError::ParameterMismatch,
        0,
        Shown::TwoTypes(a, applied.ty),
    ))
}

// Two types for subtype, with the context applied where `applies`, the first first: ChkSub and strict mode's InfIf apply it, plain mode's
// InfIf and SubArr take them as they are. One function over the switch, and so one law of both.
pub fn apply_both(
    q: &[u32],
    work: &mut [u32],
    applies: bool,
    st: State,
    g: Span,
    a: usize,
    b: usize,
) -> Result<Both, Stop>
    requires { TwoIn q.now work.old st g a b }
    ensures { AppliedBoth applies q.now work.old work.new st g a b result }
{
    if !applies {
        return Ok(Both { st, a, b });
    }
    let first = substitution::apply_ctx_type(q, work, st, g, a)?;
    let second = substitution::apply_ctx_type(q, work, first.st, g, b)?;
    Ok(Both {
        st: second.st,
        a: first.ty,
        b: second.ty,
    })
}

// InfTApp: the type `by` for the name that the Forall ty binds; 13 if ty is none.
pub fn instantiate(
    q: &[u32],
    work: &mut [u32],
    st: State,
    ty: usize,
    by: usize,
) -> Result<Made, Stop>
    requires { Two q.now work.old st ty by }
    ensures { Instantiated q.now work.old work.new st ty by result }
{
    let store = Store {
        q,
        work,
        top: st.top,
    };
    if store.form(ty) != Form::Forall {
        return Err(Stop::fail(st, TypeError::TypeApplicationError, 0, Shown::OneType(ty)));
    }
    let (a, body) = (store.name_of(ty), store.body_of(ty));
    Ok(substitution::subst_type(q, work, st, a, by, body)?)
}

// ---- The end

// The context as it came back. Here and in keep_out the rule is any number, as it was promised.
pub fn plain_out(st: State, g: Span, ty: usize, rule: usize, kids: usize) -> Answer
    ensures { PlainOut st g ty rule kids (Ok result) }
{
    Answer {
        st,
        g,
        ty,
        rule,
        kids,
        charge: 0,
    }
}

// break3's right; where `keeps`, as infer's rules do and check's do not, the solved entries of its left stand before. One function over the
// switch, as above.
pub fn keep_out(
    work: &mut [u32],
    keeps: bool,
    r: Answer,
    k: Key,
    ty: usize,
    rule: usize,
    kids: usize,
) -> Answer
    requires { Space work.old r.st r.g 0 }
    ensures { KeepOut keeps work.old work.new r (key k) ty rule kids (Ok result) }
{
    if keeps {
        let o = contexts::solved_and_right(work, r.st, r.g, k);
        return plain_out(o.st, o.g, ty, rule, kids);
    }
    plain_out(r.st, contexts::right_of(work, r.g, k), ty, rule, kids)
}

// InfTAbs: the Forall of the applied body type; the solved entries of break3's left, then its right.
pub fn tabs_out(q: &[u32], work: &mut [u32], st: State, g: Span, a: TyVar, body: usize) -> Answer
    requires { TabsPre q.now work.old st g body }
    ensures { TabsOut q.now work.old work.new st g (tyName a) body (Ok result) }
{
    let ty = types::put_forall(q, work, st.top, a, body);
    let o = contexts::solved_and_right(work, st.raise(4), g, Key::TVar(a));
    plain_out(o.st, o.g, ty, Rule::InfTAbs as usize, 1)
}
