//! Terms brought into the order of the levels.

ghost use Rattle.std.specs.Prelude.{◌≡◌, ◌<◌, ◌≤◌, ◌^◌, ◌==◌, ◌++◌, if◌then◌else◌, pos, length, sum_by, IfOk, OnOk};
ghost use Rattle.dd_formula.specs.Domains.{domain_bound};
ghost use Rattle.dd_store.specs.Kept.{IsHeld};
ghost use Rattle.dd_build.specs.Atoms.{term_measure};
ghost use Rattle.dd_build.specs.Sums.{factor_of, factors_bound, own_factor, term_with, ordered_from, IsNextLevel};

use base::NoMemory;
use dd_formula::{Domain, Term};
use dd_store::Store;

/// The factor of a term of the level, and 0 of another.
fn factor_in(term: Term, level: usize) -> i64
    ensures { result ≡ (if term.level == level then term.factor else pos 0) }
{
    if term.level == level { term.factor } else { 0 }
}

/// The sum of the factors of a level's terms.
fn sum_of_factors(terms: &[Term], level: usize) -> i64
    requires { factors_bound level terms.now < 2 ^ 62 }
    ensures { result ≡ factor_of level terms.now }
{
    let mut sum = 0;
    for term in terms {
        sum += factor_in(*term, level);
    }
    sum
}

/// Whether 0 is the only code of a domain.
fn is_zero_alone(domain: Domain) -> bool
    ensures { result ≡ (domain_bound domain == 0) }
{
    domain.lo == 0 && domain.hi == 0
}

/// The factor of a level. Where 0 is the level's only code its terms count for nothing, and the sum of
/// their factors may be too large.
fn factor_at(store: &Store, terms: &[Term], level: usize) -> i64
    requires level { level < length store.now.domains }
    requires small { sum_by (term_measure store.now.domains) terms.now < 2 ^ 62 }
    ensures { result ≡ own_factor store.now.domains terms.now level }
{
    if is_zero_alone(store.domain(level)) {
        return 0;
    }
    sum_of_factors(terms, level)
}

/// The first level from one on that a term names, up to a limit.
fn next_level(terms: &[Term], from: usize, limit: usize) -> usize
    requires { from ≤ limit }
    ensures from { from ≤ result }
    ensures limit { result ≤ limit }
    ensures next { IsNextLevel from terms.now result }
{
    let mut next = limit;
    for term in terms {
        if from <= term.level && term.level < next {
            next = term.level;
        }
    }
    next
}

/// Adds the term of a level, if its factor is not 0.
fn push_term(out: &mut Vec<Term>, factor: i64, level: usize) -> Result<(), NoMemory>
    ensures { OnOk result (out.new.items ≡ out.old.items ++ term_with factor level) }
{
    if factor == 0 {
        return Ok(());
    }
    out.push(Term { factor, level })?;
    Ok(())
}

/// One term for each level whose factor is not 0, in the order of the levels. Only levels that a term
/// names are looked at.
pub(crate) fn ordered_terms(store: &Store, terms: &[Term]) -> Result<Vec<Term>, NoMemory>
    requires { sum_by (term_measure store.now.domains) terms.now < 2 ^ 62 }
    ensures ordered { IfOk result (λ out. out.items ≡ ordered_from store.now.domains terms.now 0 (length store.now.domains)) }
    ensures held { IsHeld store.now }
{
    let levels = store.levels();
    let mut out = Vec::new(store.allocator());
    let mut level = next_level(terms, 0, levels);
    while level < levels {
        push_term(&mut out, factor_at(store, terms, level), level)?;
        level = next_level(terms, level + 1, levels);
    }
    Ok(out)
}
