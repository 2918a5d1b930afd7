// Subtyping: subtype with its rules. References a and b denote the left and the right type.
#![tactic(auto)]

ghost use Rattle.judging.specs.Asking.{sub_ask, JudgePre, RulePre};
ghost use Rattle.judging.specs.Ending.{Judged, Fires};
ghost use Rattle.subtyping.specs.Arms.{BothHeld, AlikeTypes, Absent, Formed, ByUnknown, ArmChosen, ArmPre};
ghost use Rattle.subtyping.specs.declared.Arm.TheVariants as arm;

use instantiation::one;
use judging::{Ask, Here, Rule, Shown, Step, Stop, TypeError};
use layout::{INT, Kind, Span, State};
use rules::Side;
use types::{Form, Store};

// 000's arms: the same Int, Bool, Var or ETVar (with the rule), Arrows, a Forall on a side, an unknown on a side that does not occur on the
// other.
#[derive(Clone, Copy)]
pub enum Arm {
    Refl(Rule),
    Arr,
    All(Side),
    Inst(Side),
    Neither,
}

// SubRefl, SubReflTVar, SubReflETVar: the rule by which two types without parts are the same.
fn alike(store: Store, a: usize, b: usize) -> Option<Rule>
    requires { BothHeld store.q.now store.work.now store.top a b }
    ensures { AlikeTypes store.entry.q.now store.entry.work.now store.entry.top a b result }
{
    let form = store.form(a);
    if form != store.form(b) {
        return None;
    }
    match form {
        Form::Int | Form::Bool => Some(Rule::SubRefl),
        Form::Arrow | Form::Forall => None,
        Form::Var if store.name_of(a) == store.name_of(b) => Some(Rule::SubReflTVar),
        Form::ETVar if store.name_of(a) == store.name_of(b) => Some(Rule::SubReflETVar),
        _ => None,
    }
}

// Whether a is an unknown that does not occur in b.
fn absent(store: Store, a: usize, b: usize) -> bool
    requires { BothHeld store.q.now store.work.now store.top a b }
    ensures { Absent store.entry.q.now store.entry.work.now store.entry.top a b result }
{
    store.form(a) == Form::ETVar && !walks::occurs_check(store, store.name_of(a), b)
}

// The arm that the forms of the two types tell, in 000's order; Neither where none does.
#[tactic(auto, using(crate::proofs::Arms::formed))]
fn by_form(k: Form, m: Form) -> Arm
    ensures { Formed k m result }
{
    match (k, m) {
        (Form::Arrow, Form::Arrow) => Arm::Arr,
        (_, Form::Forall) => Arm::All(Side::R),
        (Form::Forall, _) => Arm::All(Side::L),
        _ => Arm::Neither,
    }
}

// The arm of an unknown, the left one first; Neither where there is none that does not occur in the other type.
fn by_unknown(store: Store, a: usize, b: usize) -> Arm
    requires { BothHeld store.q.now store.work.now store.top a b }
    ensures { ByUnknown store.entry.q.now store.entry.work.now store.entry.top a b result }
{
    if absent(store, a, b) {
        return Arm::Inst(Side::L);
    }
    if absent(store, b, a) {
        return Arm::Inst(Side::R);
    }
    Arm::Neither
}

// The first arm that is there, in 000's order.
fn choose(store: Store, a: usize, b: usize) -> Arm
    requires { BothHeld store.q.now store.work.now store.top a b }
    ensures { ArmChosen store.entry.q.now store.entry.work.now store.entry.top a b result }
{
    if let Some(rule) = alike(store, a, b) {
        return Arm::Refl(rule);
    }
    match by_form(store.form(a), store.form(b)) {
        Arm::Neither => by_unknown(store, a, b),
        arm => arm,
    }
}

// SubInstL, SubInstR: inst_l or inst_r of the unknown, which stands on side s.
fn sub_inst(
    q: &[u32],
    work: &mut [u32],
    h: Here,
    st: State,
    g: Span,
    s: Side,
    a: usize,
    b: usize,
) -> Step
    requires { ArmPre q.now work.old st g a b (arm.Inst s) }
    ensures { Fires h q.now work.old work.new st g (sub_ask a b) result }
{
    let (unknown, ty) = (one(s, a, b), one(s, b, a));
    let r = instantiation::inst(q, work, h, st, g, s, unknown, ty)?;
    let rule = one(s, Rule::SubInstL, Rule::SubInstR);
    Ok(rules::plain_out(r.st, r.g, INT, rule.number(), 1))
}

// The type a is a subtype of b.
#[cycle(subtype_and_rules)]
pub fn subtype(q: &[u32], work: &mut [u32], h: Here, st: State, g: Span, a: usize, b: usize) -> Step
    requires { JudgePre q.now work.old st g (sub_ask a b) }
    ensures { Judged h q.now work.old work.new st g (sub_ask a b) result }
{
    let inner = judging::enter(st, g)?;
    let z = sub_rule(q, work, h, inner, g, a, b);
    let ask = Ask {
        kind: Kind::Subtype as usize,
        ex: 0,
        left: a,
        right: b,
    };
    judging::leave(work, st, g, ask, z)
}

// The rule in the first arm that is there; 15 where there is none.
#[cycle(subtype_and_rules)]
fn sub_rule(q: &[u32], work: &mut [u32], h: Here, st: State, g: Span, a: usize, b: usize) -> Step
    requires { RulePre q.now work.old st g (sub_ask a b) }
    ensures { Fires h q.now work.old work.new st g (sub_ask a b) result }
{
    let top = st.top;
    let store = Store { q, work, top };
    match choose(store, a, b) {
        Arm::Refl(rule) => Ok(rules::plain_out(st, g, INT, rule.number(), 0)),
        Arm::Arr => sub_arr(q, work, h, st, g, a, b),
        Arm::All(s) => sub_all(q, work, h, st, g, s, a, b),
        Arm::Inst(s) => sub_inst(q, work, h, st, g, s, a, b),
        Arm::Neither => Err(Stop::fail(st, TypeError::SubtypingError, 0, Shown::TwoTypes(a, b))),
    }
}

// SubArr: the left halves exchanged, then the right halves, with no context applied between them.
#[cycle(subtype_and_rules)]
fn sub_arr(q: &[u32], work: &mut [u32], h: Here, st: State, g: Span, a: usize, b: usize) -> Step
    requires { ArmPre q.now work.old st g a b arm.Arr }
    ensures { Fires h q.now work.old work.new st g (sub_ask a b) result }
{
    let top = st.top;
    let store = Store { q, work, top };
    let (a1, a2) = (store.left_of(a), store.right_of(a));
    let (b1, b2) = (store.left_of(b), store.right_of(b));
    let r = subtype(q, work, h, st, g, b1, a1)?;
    let both = rules::apply_both(q, work, false, r.st, r.g, a2, b2)?;
    let u = subtype(q, work, h, both.st, r.g, both.a, both.b)?;
    Ok(rules::plain_out(u.st, u.g, INT, Rule::SubArr as usize, 2))
}

// SubAllR, SubAllL: the Forall on side s opened, against the other type; of the output what stands right of what opening pushed.
#[cycle(subtype_and_rules)]
fn sub_all(
    q: &[u32],
    work: &mut [u32],
    h: Here,
    st: State,
    g: Span,
    s: Side,
    a: usize,
    b: usize,
) -> Step
    requires { ArmPre q.now work.old st g a b (arm.All s) }
    ensures { Fires h q.now work.old work.new st g (sub_ask a b) result }
{
    let o = rules::open_on(q, work, h, st, g, s, one(s, a, b))?;
    let (left, right) = (one(s, o.ty, a), one(s, b, o.ty));
    let r = subtype(q, work, h, o.st, o.g, left, right)?;
    let rule = one(s, Rule::SubAllL, Rule::SubAllR);
    let k = rules::pushed(s, o.b);
    Ok(rules::keep_out(work, false, r, k, INT, rule.number(), 1))
}
