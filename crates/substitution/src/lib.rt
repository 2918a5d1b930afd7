// Substitution and context application, by reference: each call pays one unit, and builds one record of four words at most.
#![tactic(auto)]

ghost use Rattle.types.specs.Reading.{HeldNamed};
ghost use Rattle.types.specs.Making.{ArrowRoom, ForallRoom};
ghost use Rattle.substitution.specs.Passing.{Chosen, ArrowMade, ForallMade};
ghost use Rattle.substitution.specs.Calls.{SubstPre, Substed, ApplyPre, Applied};

use layout::{Key, Made, Span, Spent, State, TyVar};
use types::{Form, Store};

// What the name r, a Var or an ETVar, becomes: `by` where it is a, else r itself.
fn chosen(store: Store, a: TyVar, by: usize, r: usize) -> usize
    requires { HeldNamed store.q.now store.work.now store.top r }
    ensures { Chosen store.entry.q.now store.entry.work.now store.entry.top a by r result }
{
    if store.name_of(r) == a { by } else { r }
}

// An Arrow of two parts, as a new record. Apart from forall_made: what is put has another contract.
fn arrow_made(q: &[u32], work: &mut [u32], st: State, left: usize, right: usize) -> Made
    requires { ArrowRoom q.now work.old st.top left right }
    ensures { ArrowMade q.now work.old work.new st left right result }
{
    let ty = types::put_arrow(q, work, st.top, left, right);
    Made {
        st: st.raise(4),
        ty,
    }
}

// A Forall, as a new record.
fn forall_made(q: &[u32], work: &mut [u32], st: State, a: TyVar, body: usize) -> Made
    requires { ForallRoom q.now work.old st.top body }
    ensures { ForallMade q.now work.old work.new st a body result }
{
    let ty = types::put_forall(q, work, st.top, a, body);
    Made {
        st: st.raise(4),
        ty,
    }
}

// The type `by` for the name a in the type r; Var and ETVar of one name count alike.
// An Arrow, and a Forall that does not shadow a, are built anew; what else stays is shared.
pub fn subst_type(
    q: &[u32],
    work: &mut [u32],
    st: State,
    a: TyVar,
    by: usize,
    r: usize,
) -> Result<Made, Spent>
    requires { SubstPre q.now work.old st by r }
    ensures { Substed q.now work.old work.new st a by r result }
{
    let paid = st.charge(1)?;
    let store = Store {
        q,
        work,
        top: st.top,
    };
    match store.form(r) {
        Form::Int | Form::Bool => Ok(Made { st: paid, ty: r }),
        Form::Var | Form::ETVar => Ok(Made {
            st: paid,
            ty: chosen(store, a, by, r),
        }),
        Form::Arrow => {
            let (left, right) = (store.left_of(r), store.right_of(r));
            let left = subst_type(q, work, paid, a, by, left)?;
            let right = subst_type(q, work, left.st, a, by, right)?;
            Ok(arrow_made(q, work, right.st, left.ty, right.ty))
        }
        Form::Forall => {
            let b = store.name_of(r);
            if b == a {
                return Ok(Made { st: paid, ty: r });
            }
            let body = store.body_of(r);
            let body = subst_type(q, work, paid, a, by, body)?;
            Ok(forall_made(q, work, body.st, b, body.ty))
        }
    }
}

// The first pass of 000's apply_ctx_type: the solutions of the context g for the unknowns of the type r, followed to their end.
pub fn apply_ctx_type(
    q: &[u32],
    work: &mut [u32],
    st: State,
    g: Span,
    r: usize,
) -> Result<Made, Spent>
    requires { ApplyPre q.now work.old st g r }
    ensures { Applied q.now work.old work.new st g r result }
{
    let paid = st.charge(1)?;
    let store = Store {
        q,
        work,
        top: st.top,
    };
    match store.form(r) {
        Form::Int | Form::Bool | Form::Var => Ok(Made { st: paid, ty: r }),
        Form::ETVar => match contexts::lookup(work, g, Key::SETVar(store.name_of(r))) {
            Some(solution) => apply_ctx_type(q, work, paid, g, solution),
            None => Ok(Made { st: paid, ty: r }),
        },
        Form::Arrow => {
            let (left, right) = (store.left_of(r), store.right_of(r));
            let left = apply_ctx_type(q, work, paid, g, left)?;
            let right = apply_ctx_type(q, work, left.st, g, right)?;
            Ok(arrow_made(q, work, right.st, left.ty, right.ty))
        }
        Form::Forall => {
            let a = store.name_of(r);
            let body = store.body_of(r);
            let body = apply_ctx_type(q, work, paid, g, body)?;
            Ok(forall_made(q, work, body.st, a, body.ty))
        }
    }
}
