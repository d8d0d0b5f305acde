//! Units of one object `v_x` and its setter, run call by call.

use crate::{Machine, MachineFault};
use base::{Name, NoMemory};
use c_subset::{CClause, CExpr, CFunction, CItem, CObject, CStmt, CTerm, CUnit};
use sqlite_items::Items;
use std::alloc::Global;
use std::test::Fail;

fn name(alloc: Global, bytes: &[u8]) -> Result<Name, NoMemory> {
    Name::from_slice(alloc, bytes)
}

// `v_x = value;`
fn assign(alloc: Global, value: CExpr) -> Result<CStmt, NoMemory> {
    let object = name(alloc, b"v_x")?;
    Ok(CStmt::Assign(object, value))
}

fn term(value: CExpr) -> CTerm {
    CTerm {
        minus: false,
        value,
    }
}

// `v_x = v_x + more;`
fn raise(alloc: Global, more: CExpr) -> Result<CStmt, NoMemory> {
    let object = name(alloc, b"v_x")?;
    let mut terms = Items::new(alloc);
    terms.push(term(CExpr::Name(object)))?;
    terms.push(term(more))?;
    assign(alloc, CExpr::Sum(terms))
}

fn clause(alloc: Global, label: i64, statement: CStmt, stops: bool) -> Result<CClause, NoMemory> {
    let mut body = Items::new(alloc);
    body.push(statement)?;
    Ok(CClause { label, body, stops })
}

// `long v_x = init; void set_x(long a) { statement }`
fn setter(alloc: Global, init: i64, statement: CStmt) -> Result<CUnit, NoMemory> {
    let mut body = Items::new(alloc);
    body.push(statement)?;
    let object = CObject {
        name: name(alloc, b"v_x")?,
        init,
    };
    let function = CFunction {
        name: name(alloc, b"set_x")?,
        parameter: Some(name(alloc, b"a")?),
        body,
    };
    let mut items = Items::new(alloc);
    items.push(CItem::Object(object))?;
    items.push(CItem::Function(function))?;
    Ok(CUnit { items })
}

// `switch (a) { case 1L: v_x = v_x + 1L; case 2L: v_x = v_x + 10L; break; case 3L: v_x = 100L; }`
fn falling(alloc: Global) -> Result<CUnit, NoMemory> {
    let first = raise(alloc, CExpr::Constant(1))?;
    let second = raise(alloc, CExpr::Constant(10))?;
    let third = assign(alloc, CExpr::Constant(100))?;
    let mut clauses = Items::new(alloc);
    clauses.push(clause(alloc, 1, first, false)?)?;
    clauses.push(clause(alloc, 2, second, true)?)?;
    clauses.push(clause(alloc, 3, third, false)?)?;
    let value = CExpr::Name(name(alloc, b"a")?);
    setter(alloc, 0, CStmt::Switch(value, clauses))
}

// `v_x = v_x + a;`, from the greatest number on
fn rising(alloc: Global) -> Result<CUnit, NoMemory> {
    let argument = CExpr::Name(name(alloc, b"a")?);
    setter(alloc, 2_147_483_647, raise(alloc, argument)?)
}

#[test]
fn a_clause_without_break_falls_into_the_next(rt: HostRuntime) -> Result<(), Fail> {
    let unit = falling(rt.alloc()).map_err(|_| "no memory")?;
    let mut machine = Machine::new(rt.alloc(), &unit).map_err(|_| "no memory")?;
    for (value, wanted) in [(1, 11), (2, 21), (3, 100), (4, 100)] {
        assert_eq!(rt; machine.call(b"set_x", value), Ok(()));
        assert_eq!(rt; machine.objects(), [wanted].as_slice());
    }
    Ok(())
}

#[test]
fn a_fault_leaves_the_objects(rt: HostRuntime) -> Result<(), Fail> {
    let unit = rising(rt.alloc()).map_err(|_| "no memory")?;
    let mut machine = Machine::new(rt.alloc(), &unit).map_err(|_| "no memory")?;
    assert_eq!(rt; machine.call(b"set_x", 1), Err(MachineFault::Overflow));
    assert_eq!(rt; machine.call(b"v_x", 1), Err(MachineFault::NoFunction));
    assert_eq!(rt; machine.objects(), [2_147_483_647].as_slice());
    Ok(())
}
