//! Where primed names stand.
ghost use Rattle.std.specs.Prelude.{◌≡◌};
ghost use Rattle.std.specs.List.{list_all};
ghost use Rattle.scr_spec.specs.Formed.{is_side_plain, is_unprimed};
ghost use Rattle.scr_spec.specs.Parts.{sides_pass};
ghost use Rattle.scr_resolve_asserts.specs.Primes as spec;

use scr_parse::DraftCond;
use scr_scope::has_primes;
use scr_spec::{Cond, Expr, Item, Operand};

/// Whether each primed name is in an item of a comparison.
#[cycle(compared)]
#[tactic(auto, using(crate::proofs::PrimeLaws::compared_laws, scr_parse::specs::declared::draft::DraftCond::TheViews::the_lemmas))]
pub(crate) fn are_primes_compared(cond: &DraftCond) -> bool
    ensures { result ≡ spec.are_primes_compared cond.now }
{
    match cond {
        DraftCond::Alone(side) => !has_primes(side),
        DraftCond::Compare(_, _, _) => true,
        DraftCond::Not(cond) => are_primes_compared(cond.get()),
        DraftCond::And(conds) | DraftCond::Or(conds) => are_all_compared(conds.as_slice()),
    }
}

#[cycle(compared)]
fn are_all_compared(conds: &[DraftCond]) -> bool
    ensures { result ≡ list_all spec.are_primes_compared conds.now }
{
    for cond in conds {
        if !are_primes_compared(cond) {
            return false;
        }
    }
    true
}

fn is_unprimed(item: &Item) -> bool
    ensures { result ≡ is_unprimed item.now.operand }
{
    !matches!(&item.operand, Operand::Primed(_))
}

fn is_plain_side(side: &Expr) -> bool
    ensures { result ≡ is_side_plain side.now }
{
    side.items.as_slice().iter().all(is_unprimed)
}

#[cycle(plain)]
#[tactic(auto, using(crate::proofs::PrimeLaws::plain_laws, scr_spec::specs::declared::cond::Cond::TheViews::the_lemmas))]
fn is_plain(cond: &Cond) -> bool
    ensures { result ≡ sides_pass is_side_plain cond.now }
{
    match cond {
        Cond::Truth(_) | Cond::Holds(_) => true,
        Cond::Compare(left, _, right) => is_plain_side(left) && is_plain_side(right),
        Cond::Not(cond) => is_plain(cond.get()),
        Cond::And(conds) | Cond::Or(conds) => are_plain(conds.as_slice()),
    }
}

#[cycle(plain)]
fn are_plain(conds: &[Cond]) -> bool
    ensures { result ≡ list_all (sides_pass is_side_plain) conds.now }
{
    for cond in conds {
        if !is_plain(cond) {
            return false;
        }
    }
    true
}

/// Whether a name in the condition is primed.
pub(crate) fn has_primed_name(cond: &Cond) -> bool
    ensures { result ≡ spec.has_primed_name cond.now }
{
    !is_plain(cond)
}
