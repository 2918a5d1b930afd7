// The judgements infer, check and infer_app and their rules, after 000: one cycle of calls, which ends because the budget left falls.
#![tactic(auto)]

ghost use Rattle.judging.specs.Asking.{infer_ask, check_ask, app_ask, JudgePre, RulePre};
ghost use Rattle.judging.specs.declared.Rule.TheVariants as rule;
ghost use Rattle.judging.specs.Ending.{Judged, Fires};
ghost use Rattle.rules.specs.Taking.{InferPre, CheckPre, AppPre};
ghost use Rattle.rules.specs.Going.{TwoIn};
ghost use Rattle.inference.specs.Rules.{Operates, Related};

use expressions::Form as Expr;
use judging::{Ask, Here, Rule, Step};
use layout::{BOOL, INT, Key, Kind, Span, State, word};
use types::{Form, Store};

// ---- infer

// The type of an expression.
#[cycle(infer_check_infer_app)]
pub fn infer(q: &[u32], work: &mut [u32], h: Here, st: State, g: Span, ex: usize) -> Step
    requires { JudgePre q.now work.old st g (infer_ask ex) }
    ensures { Judged h q.now work.old work.new st g (infer_ask ex) result }
{
    let inner = judging::enter(st, g)?;
    let z = inf_rule(q, work, h, inner, g, ex);
    let ask = Ask {
        kind: Kind::Infer as usize,
        ex,
        left: 0,
        right: 0,
    };
    judging::leave(work, st, g, ask, z)
}

// The rule for the expression's form, as 000's infer matches.
#[cycle(infer_check_infer_app)]
fn inf_rule(q: &[u32], work: &mut [u32], h: Here, st: State, g: Span, ex: usize) -> Step
    requires { RulePre q.now work.old st g (infer_ask ex) }
    ensures { Fires h q.now work.old work.new st g (infer_ask ex) result }
{
    match expressions::form_of(q, ex) {
        Expr::Var => rules::infer_var(q, work, h, st, g, ex),
        Expr::Ann => infer_ann(q, work, h, st, g, ex),
        Expr::LitInt => rules::infer_lit_int(q, work, h, st, g, ex),
        Expr::LitBool => rules::infer_lit_bool(q, work, h, st, g, ex),
        Expr::Abs => infer_abs(q, work, h, st, g, ex),
        Expr::App => infer_application(q, work, h, st, g, ex),
        Expr::TAbs => infer_tabs(q, work, h, st, g, ex),
        Expr::TApp => infer_tapp(q, work, h, st, g, ex),
        Expr::Let => infer_let(q, work, h, st, g, ex),
        Expr::If => infer_if(q, work, h, st, g, ex),
        Expr::BinOp => infer_binop(q, work, h, st, g, ex),
    }
}

// InfAnn: the expression is checked against the written type.
#[cycle(infer_check_infer_app)]
fn infer_ann(q: &[u32], work: &mut [u32], h: Here, st: State, g: Span, ex: usize) -> Step
    requires { InferPre q.now work.old st g ex 21 }
    ensures { Fires h q.now work.old work.new st g (infer_ask ex) result }
{
    let p = expressions::typed_of(q, work, ex);
    let r = check(q, work, h, st, g, p.e, p.ty)?;
    Ok(rules::plain_out(r.st, r.g, p.ty, Rule::InfAnn as usize, 1))
}

// InfLam: the body is checked against a fresh unknown; solved entries of left, then right.
#[cycle(infer_check_infer_app)]
fn infer_abs(q: &[u32], work: &mut [u32], h: Here, st: State, g: Span, ex: usize) -> Step
    requires { InferPre q.now work.old st g ex 18 }
    ensures { Fires h q.now work.old work.new st g (infer_ask ex) result }
{
    let p = expressions::abs_of(q, work, ex);
    let o = rules::lam_in(q, work, h, st, g, p.x, p.ty);
    let r = check(q, work, h, o.st, o.g, p.body, o.b)?;
    Ok(rules::keep_out(work, true, r, Key::Var(p.x), o.ty, Rule::InfLam as usize, 1))
}

// InfApp: the function's type, with the context applied, takes the argument.
#[cycle(infer_check_infer_app)]
fn infer_application(q: &[u32], work: &mut [u32], h: Here, st: State, g: Span, ex: usize) -> Step
    requires { InferPre q.now work.old st g ex 17 }
    ensures { Fires h q.now work.old work.new st g (infer_ask ex) result }
{
    let p = expressions::app_of(q, work, ex);
    let r = infer(q, work, h, st, g, p.func)?;
    let applied = substitution::apply_ctx_type(q, work, r.st, r.g, r.ty)?;
    let u = infer_app(q, work, h, applied.st, r.g, applied.ty, p.arg)?;
    Ok(rules::plain_out(u.st, u.g, u.ty, Rule::InfApp as usize, 2))
}

// InfTAbs: the body is inferred under the name; solved entries of left, then right.
#[cycle(infer_check_infer_app)]
fn infer_tabs(q: &[u32], work: &mut [u32], h: Here, st: State, g: Span, ex: usize) -> Step
    requires { InferPre q.now work.old st g ex 20 }
    ensures { Fires h q.now work.old work.new st g (infer_ask ex) result }
{
    let p = expressions::tabs_of(q, work, ex);
    let e = judging::entry(h, Key::TVar(p.a), INT);
    let o = contexts::push(work, st, g, [e]);
    let r = infer(q, work, h, o.st, o.g, p.body)?;
    let applied = substitution::apply_ctx_type(q, work, r.st, r.g, r.ty)?;
    Ok(rules::tabs_out(q, work, applied.st, r.g, p.a, applied.ty))
}

// InfTApp: the written type for the name that the Forall binds.
#[cycle(infer_check_infer_app)]
fn infer_tapp(q: &[u32], work: &mut [u32], h: Here, st: State, g: Span, ex: usize) -> Step
    requires { InferPre q.now work.old st g ex 19 }
    ensures { Fires h q.now work.old work.new st g (infer_ask ex) result }
{
    let p = expressions::typed_of(q, work, ex);
    let r = infer(q, work, h, st, g, p.e)?;
    let made = rules::instantiate(q, work, r.st, r.ty, p.ty)?;
    Ok(rules::plain_out(made.st, r.g, made.ty, Rule::InfTApp as usize, 1))
}

// InfLet: the body is inferred under the name with the first expression's type; solved entries of left, then right.
#[cycle(infer_check_infer_app)]
fn infer_let(q: &[u32], work: &mut [u32], h: Here, st: State, g: Span, ex: usize) -> Step
    requires { InferPre q.now work.old st g ex 24 }
    ensures { Fires h q.now work.old work.new st g (infer_ask ex) result }
{
    let p = expressions::let_of(q, work, ex);
    let r = infer(q, work, h, st, g, p.first)?;
    let e = judging::entry(h, Key::Var(p.x), r.ty);
    let o = contexts::push(work, r.st, r.g, [e]);
    let u = infer(q, work, h, o.st, o.g, p.body)?;
    Ok(rules::keep_out(work, true, u, Key::Var(p.x), u.ty, Rule::InfLet as usize, 2))
}

// InfIf: a Bool, two branches, the first's type below the second's; strict mode applies the context to both before.
#[cycle(infer_check_infer_app)]
fn infer_if(q: &[u32], work: &mut [u32], h: Here, st: State, g: Span, ex: usize) -> Step
    requires { InferPre q.now work.old st g ex 25 }
    ensures { Fires h q.now work.old work.new st g (infer_ask ex) result }
{
    let p = expressions::if_of(q, work, ex);
    let r = check(q, work, h, st, g, p.cond, BOOL)?;
    let u = infer(q, work, h, r.st, r.g, p.yes)?;
    let v = infer(q, work, h, u.st, u.g, p.no)?;
    let o = subtype_applied(q, work, h, h.manner.applies_branches, v.st, v.g, u.ty, v.ty)?;
    Ok(rules::plain_out(o.st, o.g, u.ty, Rule::InfIf as usize, 4))
}

// What an operator's rule asks: the type that its left side is checked against (None where it is inferred), the result; and which it is.
#[derive(Clone, Copy)]
struct Sides {
    against: Option<usize>,
    gives: usize,
    rule: Rule,
}

// InfArith, InfBool, InfEq or InfCmp, as 000's infer_binop matches. An operator stays a number: the definition's `bin_op` holds one, and
// `inf_binop` compares it.
fn operator(op: usize) -> Sides
    ensures { Operates op result }
{
    let (against, gives, rule) = match op {
        1..=4 => (Some(INT), INT, Rule::InfArith),
        5..=6 => (Some(BOOL), BOOL, Rule::InfBool),
        7..=8 => (None, BOOL, Rule::InfEq),
        _ => (Some(INT), BOOL, Rule::InfCmp),
    };
    Sides {
        against,
        gives,
        rule,
    }
}

// The operator's rule: the left side is inferred or checked, then the right side is checked against the same type.
#[cycle(infer_check_infer_app)]
fn infer_binop(q: &[u32], work: &mut [u32], h: Here, st: State, g: Span, ex: usize) -> Step
    requires { InferPre q.now work.old st g ex 26 }
    ensures { Fires h q.now work.old work.new st g (infer_ask ex) result }
{
    let p = expressions::binop_of(q, work, ex);
    let sides = operator(p.op);
    let r = match sides.against {
        Some(ty) => check(q, work, h, st, g, p.left, ty),
        None => infer(q, work, h, st, g, p.left),
    }?;
    let ty = sides.against.unwrap_or(r.ty);
    let u = check(q, work, h, r.st, r.g, p.right, ty)?;
    Ok(rules::plain_out(u.st, u.g, sides.gives, sides.rule.number(), 2))
}

// ---- check

// Whether an expression has a type.
#[cycle(infer_check_infer_app)]
pub fn check(q: &[u32], work: &mut [u32], h: Here, st: State, g: Span, ex: usize, ty: usize) -> Step
    requires { JudgePre q.now work.old st g (check_ask ex ty) }
    ensures { Judged h q.now work.old work.new st g (check_ask ex ty) result }
{
    let inner = judging::enter(st, g)?;
    let z = chk_rule(q, work, h, inner, g, ex, ty);
    let ask = Ask {
        kind: Kind::Check as usize,
        ex,
        left: 0,
        right: ty,
    };
    judging::leave(work, st, g, ask, z)
}

// The first arm of 000's check that fits.
#[cycle(infer_check_infer_app)]
fn chk_rule(q: &[u32], work: &mut [u32], h: Here, st: State, g: Span, ex: usize, ty: usize) -> Step
    requires { RulePre q.now work.old st g (check_ask ex ty) }
    ensures { Fires h q.now work.old work.new st g (check_ask ex ty) result }
{
    let store = Store {
        q,
        work,
        top: st.top,
    };
    let rule = rules::check_choice(word(q, ex), store.tag(ty));
    match rule {
        Rule::ChkLitInt | Rule::ChkLitBool => rules::check_lit(q, work, h, st, g, ex, ty, rule),
        Rule::ChkLam => chk_lam(q, work, h, st, g, ex, ty),
        Rule::ChkAll => chk_all(q, work, h, st, g, ex, ty),
        _ => chk_sub(q, work, h, st, g, ex, ty),
    }
}

// ChkLam: the body under the expected parameter, which strict mode compares first; right alone.
#[cycle(infer_check_infer_app)]
fn chk_lam(q: &[u32], work: &mut [u32], h: Here, st: State, g: Span, ex: usize, ty: usize) -> Step
    requires { CheckPre q.now work.old st g ex ty rule.ChkLam }
    ensures { Fires h q.now work.old work.new st g (check_ask ex ty) result }
{
    let store = Store {
        q,
        work,
        top: st.top,
    };
    let l = expressions::abs_of(q, work, ex);
    let (p, c) = (store.left_of(ty), store.right_of(ty));
    let compared = rules::parameter(q, work, h, st, g, l.ty, p)?;
    let e = judging::entry(h, Key::Var(l.x), p);
    let o = contexts::push(work, compared, g, [e]);
    let r = check(q, work, h, o.st, o.g, l.body, c)?;
    Ok(rules::keep_out(work, false, r, Key::Var(l.x), INT, Rule::ChkLam as usize, 1))
}

// ChkAll: under the name that the Forall binds; right alone.
#[cycle(infer_check_infer_app)]
fn chk_all(q: &[u32], work: &mut [u32], h: Here, st: State, g: Span, ex: usize, ty: usize) -> Step
    requires { CheckPre q.now work.old st g ex ty rule.ChkAll }
    ensures { Fires h q.now work.old work.new st g (check_ask ex ty) result }
{
    let o = rules::open_right(q, work, h, st, g, ty);
    let r = check(q, work, h, o.st, o.g, ex, o.ty)?;
    Ok(rules::keep_out(
        work,
        false,
        r,
        Key::TVar(o.b),
        INT,
        Rule::ChkAll as usize,
        1,
    ))
}

// ChkSub: the inferred type below the expected one, both with the context applied.
#[cycle(infer_check_infer_app)]
fn chk_sub(q: &[u32], work: &mut [u32], h: Here, st: State, g: Span, ex: usize, ty: usize) -> Step
    requires { CheckPre q.now work.old st g ex ty rule.ChkSub }
    ensures { Fires h q.now work.old work.new st g (check_ask ex ty) result }
{
    let r = infer(q, work, h, st, g, ex)?;
    let u = subtype_applied(q, work, h, true, r.st, r.g, r.ty, ty)?;
    Ok(rules::plain_out(u.st, u.g, INT, Rule::ChkSub as usize, 2))
}

// subtype of two types, with the context applied to both where `applies`.
fn subtype_applied(
    q: &[u32],
    work: &mut [u32],
    h: Here,
    applies: bool,
    st: State,
    g: Span,
    a: usize,
    b: usize,
) -> Step
    requires { TwoIn q.now work.old st g a b }
    ensures { Related h applies q.now work.old work.new st g a b result }
{
    let both = rules::apply_both(q, work, applies, st, g, a, b)?;
    subtyping::subtype(q, work, h, both.st, g, both.a, both.b)
}

// ---- infer_app

// What a function of the type ty gives for the argument.
#[cycle(infer_check_infer_app)]
pub fn infer_app(
    q: &[u32],
    work: &mut [u32],
    h: Here,
    st: State,
    g: Span,
    ty: usize,
    ex: usize,
) -> Step
    requires { JudgePre q.now work.old st g (app_ask ty ex) }
    ensures { Judged h q.now work.old work.new st g (app_ask ty ex) result }
{
    let inner = judging::enter(st, g)?;
    let z = app_rule(q, work, h, inner, g, ty, ex);
    let ask = Ask {
        kind: Kind::InferApp as usize,
        ex,
        left: ty,
        right: 0,
    };
    judging::leave(work, st, g, ask, z)
}

// The rule for the form of the function's type.
#[cycle(infer_check_infer_app)]
fn app_rule(q: &[u32], work: &mut [u32], h: Here, st: State, g: Span, ty: usize, ex: usize) -> Step
    requires { RulePre q.now work.old st g (app_ask ty ex) }
    ensures { Fires h q.now work.old work.new st g (app_ask ty ex) result }
{
    let store = Store {
        q,
        work,
        top: st.top,
    };
    match store.form(ty) {
        Form::Arrow => app_arr(q, work, h, st, g, ty, ex),
        Form::ETVar => app_etvar(q, work, h, st, g, ty, ex),
        _ => rules::refuse_app(q, work, h, st, g, ty, ex),
    }
}

// InfAppArr: the argument is checked against what the Arrow takes.
#[cycle(infer_check_infer_app)]
fn app_arr(q: &[u32], work: &mut [u32], h: Here, st: State, g: Span, ty: usize, ex: usize) -> Step
    requires { AppPre q.now work.old st g ty ex 5 }
    ensures { Fires h q.now work.old work.new st g (app_ask ty ex) result }
{
    let store = Store {
        q,
        work,
        top: st.top,
    };
    let (a, c) = (store.left_of(ty), store.right_of(ty));
    let r = check(q, work, h, st, g, ex, a)?;
    Ok(rules::plain_out(r.st, r.g, c, Rule::InfAppArr as usize, 1))
}

// InfAppETVar: the unknown becomes an Arrow of two fresh ones.
#[cycle(infer_check_infer_app)]
fn app_etvar(q: &[u32], work: &mut [u32], h: Here, st: State, g: Span, ty: usize, ex: usize) -> Step
    requires { AppPre q.now work.old st g ty ex 4 }
    ensures { Fires h q.now work.old work.new st g (app_ask ty ex) result }
{
    let store = Store {
        q,
        work,
        top: st.top,
    };
    let a = store.name_of(ty);
    let o = rules::part(q, work, h, st, g, a);
    let r = check(q, work, h, o.st, o.g, ex, o.b)?;
    Ok(rules::plain_out(r.st, r.g, o.c, Rule::InfAppETVar as usize, 1))
}
