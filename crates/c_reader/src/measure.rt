//! Weight and call depth of statements.

ghost use Rattle.std.specs.Prelude.{◌≡◌, ◌+◌, min, max, map, sum_by};
ghost use Rattle.c_subset.specs.Nesting.{greatest};
ghost use Rattle.c_subset.specs.Measures as spec;
ghost use Rattle.c_reader.specs.Kept.{scope_of};

use crate::declared::Declared;
use c_subset::{CClause, CStmt};

/// Greater weights are not told apart.
const CAP: usize = 1_000_001;

/// The sum.
fn plus(a: usize, b: usize) -> usize
    ensures { result ≡ min (a + b) 1000001 }
{
    a.saturating_add(b).min(CAP)
}

/// What a statement weighs.
#[cycle(weights)]
#[tactic(auto, using(crate::proofs::MeasureLaws::weight_laws, c_subset::specs::declared::stmt::CStmt::TheViews::the_lemmas))]
fn stmt_weight(declared: &Declared, s: &CStmt) -> usize
    ensures { result ≡ min (spec.stmt_weight (scope_of declared.now) s.now) 1000001 }
{
    match s {
        CStmt::Assign(_, _) => 1,
        CStmt::If(_, yes_block, no_block) => plus(
            plus(1, body_weight(declared, yes_block.as_slice())),
            body_weight(declared, no_block.as_slice()),
        ),
        CStmt::Call(name, _) => match declared.function(name) {
            Some(signature) => plus(1, signature.weight),
            None => 1,
        },
        CStmt::Switch(_, clauses) => plus(1, clauses_weight(declared, clauses.as_slice())),
    }
}

/// What statements weigh; what is above 1,000,000 counts as 1,000,001.
#[cycle(weights)]
pub(crate) fn body_weight(declared: &Declared, xs: &[CStmt]) -> usize
    ensures { result ≡ min (spec.body_weight (scope_of declared.now) xs.now) 1000001 }
{
    let mut sum = 0;
    for x in xs {
        sum = plus(sum, stmt_weight(declared, x));
    }
    sum
}

#[cycle(weights)]
fn clauses_weight(declared: &Declared, clauses: &[CClause]) -> usize
    ensures { result ≡ min (sum_by (λ c. spec.body_weight (scope_of declared.now) c.body) clauses.now) 1000001 }
{
    let mut sum = 0;
    for clause in clauses {
        sum = plus(sum, body_weight(declared, clause.body.as_slice()));
    }
    sum
}

/// The greatest call depth of the functions that a statement calls, or 0.
#[cycle(depths)]
#[tactic(auto, using(crate::proofs::MeasureLaws::depth_laws, c_subset::specs::declared::stmt::CStmt::TheViews::the_lemmas))]
fn stmt_depth(declared: &Declared, s: &CStmt) -> usize
    ensures { result ≡ spec.stmt_depth (scope_of declared.now) s.now }
{
    match s {
        CStmt::Assign(_, _) => 0,
        CStmt::If(_, yes_block, no_block) => calls_depth(declared, yes_block.as_slice()).max(
            calls_depth(declared, no_block.as_slice()),
        ),
        CStmt::Call(name, _) => match declared.function(name) {
            Some(signature) => signature.depth,
            None => 0,
        },
        CStmt::Switch(_, clauses) => clauses_depth(declared, clauses.as_slice()),
    }
}

/// The greatest call depth of the functions that statements call, or 0.
#[cycle(depths)]
pub(crate) fn calls_depth(declared: &Declared, xs: &[CStmt]) -> usize
    ensures { result ≡ greatest (map (spec.stmt_depth (scope_of declared.now)) xs.now) }
{
    let mut most = 0;
    for x in xs {
        most = stmt_depth(declared, x).max(most);
    }
    most
}

#[cycle(depths)]
fn clauses_depth(declared: &Declared, clauses: &[CClause]) -> usize
    ensures { result ≡ greatest (map (λ c. greatest (map (spec.stmt_depth (scope_of declared.now)) c.body)) clauses.now) }
{
    let mut most = 0;
    for clause in clauses {
        most = calls_depth(declared, clause.body.as_slice()).max(most);
    }
    most
}
