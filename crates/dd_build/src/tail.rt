//! What the last terms of a sum can add to it.

ghost use Rattle.std.specs.Prelude.{◌+◌, ◌*◌, ◌<◌, ◌^◌, length, sum_by, unsigned_abs, IfOk, IfSome};
ghost use Rattle.std.specs.Int.{IsGcd};
ghost use Rattle.dd_formula.specs.Domains.{domain_bound};
ghost use Rattle.dd_formula.specs.declared.formula.Op.TheVariants.{Eq};
ghost use Rattle.dd_store.specs.Kept.{IsHeld};
ghost use Rattle.dd_build.specs.Atoms.{term_measure};
ghost use Rattle.dd_build.specs.Sums.{AreOrderedTerms};
ghost use Rattle.dd_build.specs.Tails.{AreEnds, AreTails, IsSettled, IsWithTerm};

use crate::interval::{FAR, Room};
use base::NoMemory;
use dd_formula::{Domain, Op, Term};
use dd_store::Store;

/// The least and the greatest number that some terms can add to a sum, and a divisor of all of them.
#[derive(Clone, Copy)]
pub(crate) struct Tail {
    pub(crate) least: i64,
    pub(crate) greatest: i64,
    pub(crate) divisor: u64,
}

/// A truth, and how far below and above a sum it stays.
#[derive(Clone, Copy)]
pub(crate) struct Settled {
    pub(crate) value: bool,
    pub(crate) room: Room,
}

/// The greatest common divisor, which is the other number where one is 0.
fn common_divisor(a: u64, b: u64) -> u64
    ensures { IsGcd a b result }
{
    let mut x = a;
    let mut y = b;
    while y != 0 {
        let rest = x % y;
        x = y;
        y = rest;
    }
    x
}

/// The codes of a domain with the least and the greatest product with a factor.
fn ends_for(factor: i64, domain: Domain) -> (i64, i64)
    ensures { AreEnds factor domain result }
{
    if factor > 0 {
        (domain.lo, domain.hi)
    } else {
        (domain.hi, domain.lo)
    }
}

/// What is added with one term more, whose level has this domain.
fn with_term(tail: Tail, term: Term, domain: Domain) -> Tail
    requires low { unsigned_abs tail.least + unsigned_abs term.factor * domain_bound domain < 2 ^ 62 }
    requires high { unsigned_abs tail.greatest + unsigned_abs term.factor * domain_bound domain < 2 ^ 62 }
    ensures { IsWithTerm tail term domain result }
{
    let (first, last) = ends_for(term.factor, domain);
    Tail {
        least: tail.least + term.factor * first,
        greatest: tail.greatest + term.factor * last,
        divisor: common_divisor(tail.divisor, term.factor.unsigned_abs()),
    }
}

/// What the last terms can add: an entry for none, for the last one, and so on to all.
pub(crate) fn tails_of(store: &Store, terms: &[Term]) -> Result<Vec<Tail>, NoMemory>
    requires ordered { AreOrderedTerms 0 (length store.now.domains) terms.now }
    requires small { sum_by (term_measure store.now.domains) terms.now < 2 ^ 62 }
    ensures tails { IfOk result (λ tails. AreTails store.now.domains terms.now (length terms.now) tails.items) }
    ensures held { IsHeld store.now }
{
    store.reveal();
    let mut tail = Tail {
        least: 0,
        greatest: 0,
        divisor: 0,
    };
    let mut tails = Vec::new(store.allocator());
    tails.push(tail)?;
    let mut place = terms.len();
    while place > 0 {
        place -= 1;
        let term = terms[place];
        tail = with_term(tail, term, store.domain(term.level));
        tails.push(tail)?;
    }
    Ok(tails)
}

/// How a sum compares with 0 whatever is added, where the range tells.
fn by_range(op: Op, tail: Tail, sum: i64) -> Option<Settled>
    requires low { unsigned_abs sum + unsigned_abs tail.least < 2 ^ 62 }
    requires high { unsigned_abs sum + unsigned_abs tail.greatest < 2 ^ 62 }
    ensures { IfSome result (IsSettled op tail sum) }
{
    let least = sum + tail.least;
    if least > 0 {
        return Some(Settled {
            value: false,
            room: Room {
                below: least.unsigned_abs() - 1,
                above: FAR,
            },
        });
    }
    let greatest = sum + tail.greatest;
    let size = greatest.unsigned_abs();
    match op {
        Op::Le if greatest <= 0 => Some(Settled {
            value: true,
            room: Room {
                below: FAR,
                above: size,
            },
        }),
        Op::Eq if greatest < 0 => Some(Settled {
            value: false,
            room: Room {
                below: FAR,
                above: size - 1,
            },
        }),
        _ => None,
    }
}

/// That a sum is not 0 whatever is added, where the divisor tells: it is between two multiples.
fn by_divisor(tail: Tail, sum: i64) -> Option<Settled>
    ensures { IfSome result (IsSettled Eq tail sum) }
{
    if tail.divisor < 2 {
        return None;
    }
    let inner = sum.unsigned_abs() % tail.divisor;
    if inner == 0 {
        return None;
    }
    let toward_zero = (inner - 1).min(FAR);
    let away = (tail.divisor - inner - 1).min(FAR);
    let room = if sum > 0 {
        Room {
            below: toward_zero,
            above: away,
        }
    } else {
        Room {
            below: away,
            above: toward_zero,
        }
    };
    Some(Settled { value: false, room })
}

/// How a sum compares with 0 whatever is added, where the range or the divisor tells.
pub(crate) fn settle(op: Op, tail: Tail, sum: i64) -> Option<Settled>
    requires low { unsigned_abs sum + unsigned_abs tail.least < 2 ^ 62 }
    requires high { unsigned_abs sum + unsigned_abs tail.greatest < 2 ^ 62 }
    ensures { IfSome result (IsSettled op tail sum) }
{
    if let Some(settled) = by_range(op, tail, sum) {
        return Some(settled);
    }
    match op {
        Op::Le => None,
        Op::Eq => by_divisor(tail, sum),
    }
}
