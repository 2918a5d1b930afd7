// Walks over types by reference that are not charged: they end because the parts of a type rank below it.
#![tactic(auto)]

ghost use Rattle.std.specs.Prelude.{◌≡◌, ◌+◌, ◌*◌, ◌≤◌, length};
ghost use Rattle.definition.specs.Rules.{same_var};
ghost use Rattle.layout.specs.Names.{ty};
ghost use Rattle.types.specs.Reading.{Held};
ghost use Rattle.walks.specs.Walks.{Occurs};
ghost use Rattle.walks.specs.Letters.{BothNamed, BothNames, letters_at, Comparing, Same};

use layout::{TyVar, put2};
use types::{Form, Store};

// Whether a occurs free in the type, as a Var or as an ETVar: what 000 asks of occurs_check, and of free_vars by `contains`.
pub fn occurs_check(store: Store, a: TyVar, r: usize) -> bool
    requires { Held store.q.now store.work.now store.top r }
    ensures { Occurs store.entry.q.now store.entry.work.now store.entry.top a r result }
{
    match store.form(r) {
        Form::Int | Form::Bool => false,
        Form::Var | Form::ETVar => store.name_of(r) == a,
        Form::Arrow => {
            occurs_check(store, a, store.left_of(r)) || occurs_check(store, a, store.right_of(r))
        }
        Form::Forall => store.name_of(r) != a && occurs_check(store, a, store.body_of(r)),
    }
}

// The names of two Vars, two ETVars or two Foralls.
#[derive(Clone, Copy)]
struct NamePair {
    a: TyVar,
    b: TyVar,
}

fn names_of(store: Store, r: usize, s: usize) -> NamePair
    requires { BothNamed store.q.now store.work.now store.top r s }
    ensures { BothNames store.entry.q.now store.entry.work.now store.entry.top r s result }
{
    NamePair {
        a: store.name_of(r),
        b: store.name_of(s),
    }
}

// Whether two Vars mean the same under n pairs of letters in work, the innermost last: the innermost pair that has one of them has both; where
// none has, both are free.
fn same_var(work: &[u32], top: usize, n: usize, p: NamePair) -> bool
    requires { top + 2 * n ≤ length work.now }
    ensures { result ≡ same_var (letters_at work.now top n) (ty p.a) (ty p.b) }
{
    for i in (0..n).rev() {
        let c = TyVar(work[top + 2 * i]);
        let d = TyVar(work[top + 2 * i + 1]);
        if c == p.a {
            return d == p.b;
        }
        if d == p.b {
            return false;
        }
    }
    p.a == p.b
}

// Whether two types differ at most in the names bound by Forall, under n pairs of letters that lie in work from top on. For each two Foralls
// passed their pair is laid past the others, so that work comes by &mut and not in a Store. An ETVar is compared under none of them.
pub fn same_type(q: &[u32], work: &mut [u32], top: usize, n: usize, r: usize, s: usize) -> bool
    requires { Comparing q.now work.old top n r s }
    ensures { Same q.now work.old work.new top n r s result }
{
    let store = Store { q, work, top };
    let form = store.form(r);
    if form != store.form(s) {
        return false;
    }
    match form {
        Form::Int | Form::Bool => true,
        Form::Var => same_var(work, top, n, names_of(store, r, s)),
        Form::ETVar => same_var(work, top, 0, names_of(store, r, s)),
        Form::Arrow => {
            let (left, right) = (store.left_of(r), store.right_of(r));
            let (other_left, other_right) = (store.left_of(s), store.right_of(s));
            same_type(q, work, top, n, left, other_left)
                && same_type(q, work, top, n, right, other_right)
        }
        Form::Forall => {
            let p = names_of(store, r, s);
            let (body, other_body) = (store.body_of(r), store.body_of(s));
            put2(work, top + 2 * n, p.a.0 as usize, p.b.0 as usize);
            same_type(q, work, top, n + 1, body, other_body)
        }
    }
}
