//! How many parentheses and braces are open at one place.

ghost use Rattle.std.specs.Prelude.{◌≡◌, ◌≤◌, suc, min, max, map};
ghost use Rattle.std.specs.Option.{option_map_or};
ghost use Rattle.c_subset.specs.Nesting as spec;

use c_subset::{CClause, CExpr, CFunction, CStmt, CTerm};

/// More are not told apart.
const CAP: usize = 257;

/// What is open where a form stands that binds so tight, at a place that wants one as tight as that.
fn at_place(binds: usize, opened: usize, wanted: usize) -> usize
    requires { opened ≤ 257 }
    ensures { result ≡ min (spec.at_place binds opened wanted) 257 }
{
    if binds < wanted {
        (opened + 1).min(CAP)
    } else {
        opened
    }
}

/// One more pair round what is open.
fn inside(opened: usize) -> usize
    requires { opened ≤ 257 }
    ensures { result ≡ min (suc opened) 257 }
{
    (opened + 1).min(CAP)
}

/// The most that are open in an expression, at a place that wants a form that binds as tight as this.
#[cycle(nesting)]
#[tactic(auto, using(crate::proofs::NestingLaws::open_laws, c_subset::specs::declared::expr::CExpr::TheViews::the_lemmas))]
fn open_at(e: &CExpr, wanted: usize) -> usize
    ensures { result ≡ min (spec.open_at e.now wanted) 257 }
{
    match e {
        CExpr::Constant(_) => at_place(6, 0, wanted),
        CExpr::Name(_) => at_place(6, 0, wanted),
        CExpr::Minus(x) => at_place(5, open_at(x.get(), 6), wanted),
        CExpr::Not(x) => at_place(5, open_at(x.get(), 7), wanted),
        CExpr::Product(xs) => at_place(4, most_open(xs.as_slice(), 5), wanted),
        CExpr::Sum(ts) => at_place(3, most_open_term(ts.as_slice()), wanted),
        CExpr::Relate(left, _, right) => at_place(
            2,
            open_at(left.get(), 3).max(open_at(right.get(), 3)),
            wanted,
        ),
        CExpr::And(xs) => at_place(1, most_open(xs.as_slice(), 2), wanted),
        CExpr::Or(xs) => at_place(0, most_open(xs.as_slice(), 1), wanted),
    }
}

#[cycle(nesting)]
fn most_open(xs: &[CExpr], wanted: usize) -> usize
    ensures { result ≡ min (spec.greatest (map (λ x. spec.open_at x wanted) xs.now)) 257 }
{
    let mut most = 0;
    for x in xs {
        most = open_at(x, wanted).max(most);
    }
    most
}

#[cycle(nesting)]
fn most_open_term(ts: &[CTerm]) -> usize
    ensures { result ≡ min (spec.greatest (map (λ t. spec.open_at t.value 4) ts.now)) 257 }
{
    let mut most = 0;
    for t in ts {
        most = open_at(&t.value, 4).max(most);
    }
    most
}

/// The most that are open in an argument's place, the parentheses of the call apart.
fn open_argument(argument: &Option<CExpr>) -> usize
    ensures { result ≡ min (option_map_or spec.open_expr argument.now 0) 257 }
{
    match argument {
        Some(e) => open_at(e, 0),
        None => 0,
    }
}

/// The most that are open in a statement.
#[cycle(open_statements)]
#[tactic(auto, using(crate::proofs::NestingLaws::open_stmt_laws, c_subset::specs::declared::stmt::CStmt::TheViews::the_lemmas))]
fn open_stmt(s: &CStmt) -> usize
    ensures { result ≡ min (spec.open_stmt s.now) 257 }
{
    match s {
        CStmt::Assign(_, e) => open_at(e, 0),
        CStmt::If(e, yes_block, no_block) => inside(open_at(e, 0))
            .max(inside(open_stmts(yes_block.as_slice())))
            .max(inside(open_stmts(no_block.as_slice()))),
        CStmt::Call(_, argument) => inside(open_argument(argument)),
        CStmt::Switch(e, clauses) => inside(open_at(e, 0)).max(inside(open_clauses(
            clauses.as_slice(),
        ))),
    }
}

#[cycle(open_statements)]
fn open_stmts(xs: &[CStmt]) -> usize
    ensures { result ≡ min (spec.greatest (map spec.open_stmt xs.now)) 257 }
{
    let mut most = 0;
    for x in xs {
        most = open_stmt(x).max(most);
    }
    most
}

#[cycle(open_statements)]
fn open_clauses(clauses: &[CClause]) -> usize
    ensures { result ≡ min (spec.greatest (map (λ c. spec.greatest (map spec.open_stmt c.body)) clauses.now)) 257 }
{
    let mut most = 0;
    for clause in clauses {
        most = open_stmts(clause.body.as_slice()).max(most);
    }
    most
}

/// The most that are open in a function; more than 256 are not told apart.
pub(crate) fn open_function(f: &CFunction) -> usize
    ensures { result ≡ min (spec.open_function f.now) 257 }
{
    inside(open_stmts(f.body.as_slice()))
}
