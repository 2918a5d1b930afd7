// Instantiation: inst_l and inst_r with their rules. A reference a denotes the unknown, on side s, ty the type that it is to be.
#![tactic(auto)]

ghost use Rattle.std.specs.Prelude.{◌≡◌, ◌<◌, ◌^◌};
ghost use Rattle.definition.specs.Syntax.{on_l, on_r};
ghost use Rattle.contexts.specs.Build.{Space};
ghost use Rattle.judging.specs.Asking.{inst_ask, JudgePre, RulePre};
ghost use Rattle.judging.specs.Ending.{Judged, Fires};
ghost use Rattle.rules.specs.Sides.{side};
ghost use Rattle.instantiation.specs.Sides.{on_side, other_of, FormPre, SolvedBy, SolvePre, ReachPre};

use judging::{Answer, Ask, Here, Rule, Shown, Step, Stop, TypeError};
use layout::{INT, Key, Kind, Span, State, TyVar};
use rules::Side;
use types::{Form, Store};

// The other side.
fn other(s: Side) -> Side
    ensures { result ≡ other_of s }
{
    match s {
        Side::L => Side::R,
        Side::R => Side::L,
    }
}

// The one of the two that stands on side s.
pub fn one<T: Copy>(s: Side, left: T, right: T) -> T
    ensures { result ≡ on_side (side s) left right }
{
    match s {
        Side::L => left,
        Side::R => right,
    }
}

// What is asked: inst_l or inst_r.
fn asked(s: Side, a: usize, ty: usize) -> Ask
    ensures { result ≡ inst_ask (side s) a ty }
{
    match s {
        Side::L => Ask {
            kind: Kind::InstL as usize,
            ex: 0,
            left: a,
            right: ty,
        },
        Side::R => Ask {
            kind: Kind::InstR as usize,
            ex: 0,
            left: ty,
            right: a,
        },
    }
}

// The output context with a solved by the type r, and no children.
fn solved(work: &mut [u32], h: Here, st: State, g: Span, a: TyVar, r: usize, rule: Rule) -> Step
    requires { (Space work.old st g 1) × (r < 2 ^ 32) }
    ensures { SolvedBy h work.old work.new st g a r rule result }
{
    let e = judging::entry(h, Key::SETVar(a), r);
    let o = contexts::replace(work, st, g, a, [e]);
    Ok(Answer {
        st: o.st,
        g: o.g,
        ty: INT,
        rule: rule.number(),
        kids: 0,
        charge: 0,
    })
}

// InstLSolve, InstRSolve. Arrow and Forall have rules of their own, so that only monotypes come here: the monotype mark never says no, and
// 000's last arm, 16, is not reached.
fn solve(
    q: &[u32],
    work: &mut [u32],
    h: Here,
    st: State,
    g: Span,
    s: Side,
    a: usize,
    ty: usize,
) -> Step
    requires { SolvePre (side s) q.now work.old st g a ty }
    ensures { Fires h q.now work.old work.new st g (inst_ask (side s) a ty) result }
{
    let top = st.top;
    let store = Store { q, work, top };
    let x = store.name_of(a);
    if !store.is_mono(ty) {
        return Err(Stop::fail(st, TypeError::InstantiationError, x.0, Shown::OneType(ty)));
    }
    if walks::occurs_check(store, x, ty) {
        return Err(Stop::fail(st, TypeError::OccursCheck, x.0, Shown::OneType(ty)));
    }
    let rule = one(s, Rule::InstLSolve, Rule::InstRSolve);
    solved(work, h, st, g, x, ty, rule)
}

// InstLReach, InstRReach: the unknown ty is solved by a.
fn reach(
    q: &[u32],
    work: &mut [u32],
    h: Here,
    st: State,
    g: Span,
    s: Side,
    a: usize,
    ty: usize,
) -> Step
    requires { ReachPre (side s) q.now work.old st g a ty }
    ensures { Fires h q.now work.old work.new st g (inst_ask (side s) a ty) result }
{
    let top = st.top;
    let y = Store { q, work, top }.name_of(ty);
    let rule = one(s, Rule::InstLReach, Rule::InstRReach);
    solved(work, h, st, g, y, a, rule)
}

// An unknown against the unknown ty: reached where a stands later, else solved.
fn meet(
    q: &[u32],
    work: &mut [u32],
    h: Here,
    st: State,
    g: Span,
    s: Side,
    a: usize,
    ty: usize,
) -> Step
    requires { FormPre (side s) q.now work.old st g a ty 4 }
    ensures { Fires h q.now work.old work.new st g (inst_ask (side s) a ty) result }
{
    let top = st.top;
    let store = Store { q, work, top };
    let reaches = contexts::before(work, g, store.name_of(a), store.name_of(ty));
    if reaches {
        return reach(q, work, h, st, g, s, a, ty);
    }
    solve(q, work, h, st, g, s, a, ty)
}

// The unknown a on the left of ty.
#[cycle(inst_l_inst_r)]
pub fn inst_l(q: &[u32], work: &mut [u32], h: Here, st: State, g: Span, a: usize, ty: usize) -> Step
    requires { JudgePre q.now work.old st g (inst_ask on_l a ty) }
    ensures { Judged h q.now work.old work.new st g (inst_ask on_l a ty) result }
{
    inst(q, work, h, st, g, Side::L, a, ty)
}

// The unknown a on the right of ty.
#[cycle(inst_l_inst_r)]
pub fn inst_r(q: &[u32], work: &mut [u32], h: Here, st: State, g: Span, ty: usize, a: usize) -> Step
    requires { JudgePre q.now work.old st g (inst_ask on_r a ty) }
    ensures { Judged h q.now work.old work.new st g (inst_ask on_r a ty) result }
{
    inst(q, work, h, st, g, Side::R, a, ty)
}

// The one of the two that has the unknown on side s.
#[cycle(inst_l_inst_r)]
fn inst_on(
    q: &[u32],
    work: &mut [u32],
    h: Here,
    st: State,
    g: Span,
    s: Side,
    a: usize,
    ty: usize,
) -> Step
    requires { JudgePre q.now work.old st g (inst_ask (side s) a ty) }
    ensures { Judged h q.now work.old work.new st g (inst_ask (side s) a ty) result }
{
    match s {
        Side::L => inst_l(q, work, h, st, g, a, ty),
        Side::R => inst_r(q, work, h, st, g, ty, a),
    }
}

// Both, over the side: enters, asks the rule that fits, leaves.
// Not a function that takes the rule as a closure, for subtype too: the closure would state inst_rule's two clauses again.
#[cycle(inst_l_inst_r)]
pub fn inst(
    q: &[u32],
    work: &mut [u32],
    h: Here,
    st: State,
    g: Span,
    s: Side,
    a: usize,
    ty: usize,
) -> Step
    requires { JudgePre q.now work.old st g (inst_ask (side s) a ty) }
    ensures { Judged h q.now work.old work.new st g (inst_ask (side s) a ty) result }
{
    let inner = judging::enter(st, g)?;
    let z = inst_rule(q, work, h, inner, g, s, a, ty);
    judging::leave(work, st, g, asked(s, a, ty), z)
}

// The rule that fits, by the type's form.
#[cycle(inst_l_inst_r)]
fn inst_rule(
    q: &[u32],
    work: &mut [u32],
    h: Here,
    st: State,
    g: Span,
    s: Side,
    a: usize,
    ty: usize,
) -> Step
    requires { RulePre q.now work.old st g (inst_ask (side s) a ty) }
    ensures { Fires h q.now work.old work.new st g (inst_ask (side s) a ty) result }
{
    let top = st.top;
    match (Store { q, work, top }).form(ty) {
        Form::Int | Form::Bool | Form::Var => solve(q, work, h, st, g, s, a, ty),
        Form::ETVar => meet(q, work, h, st, g, s, a, ty),
        Form::Arrow => inst_arr(q, work, h, st, g, s, a, ty),
        Form::Forall => inst_all(q, work, h, st, g, s, a, ty),
    }
}

// InstLArr, InstRArr: a becomes an arrow of unknowns, the first to be of the left half on the other side, the second of the right half,
// applied.
#[cycle(inst_l_inst_r)]
fn inst_arr(
    q: &[u32],
    work: &mut [u32],
    h: Here,
    st: State,
    g: Span,
    s: Side,
    a: usize,
    ty: usize,
) -> Step
    requires { FormPre (side s) q.now work.old st g a ty 5 }
    ensures { Fires h q.now work.old work.new st g (inst_ask (side s) a ty) result }
{
    let top = st.top;
    let store = Store { q, work, top };
    let (left, right, x) = (store.left_of(ty), store.right_of(ty), store.name_of(a));
    let o = rules::part(q, work, h, st, g, x);
    let r = inst_on(q, work, h, o.st, o.g, other(s), o.b, left)?;
    let applied = substitution::apply_ctx_type(q, work, r.st, r.g, right)?;
    let u = inst_on(q, work, h, applied.st, r.g, s, o.c, applied.ty)?;
    let rule = one(s, Rule::InstLArr, Rule::InstRArr);
    Ok(rules::plain_out(u.st, u.g, INT, rule.number(), 2))
}

// InstLAllR, InstRAllL: the Forall, on the other side, opened; of the output what stands right of what opening pushed.
#[cycle(inst_l_inst_r)]
fn inst_all(
    q: &[u32],
    work: &mut [u32],
    h: Here,
    st: State,
    g: Span,
    s: Side,
    a: usize,
    ty: usize,
) -> Step
    requires { FormPre (side s) q.now work.old st g a ty 6 }
    ensures { Fires h q.now work.old work.new st g (inst_ask (side s) a ty) result }
{
    let back = other(s);
    let o = rules::open_on(q, work, h, st, g, back, ty)?;
    let r = inst_on(q, work, h, o.st, o.g, s, a, o.ty)?;
    let rule = one(s, Rule::InstLAllR, Rule::InstRAllL);
    let k = rules::pushed(back, o.b);
    Ok(rules::keep_out(work, false, r, k, INT, rule.number(), 1))
}
