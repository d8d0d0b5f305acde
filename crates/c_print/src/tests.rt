//! A unit with each form of item, statement and expression, and its text.

use crate::print_c;
use base::{Name, NoMemory, Relation};
use c_subset::{CClause, CExpr, CFunction, CItem, CObject, CStmt, CTerm, CUnit};
use sqlite_items::{Boxed, Items};
use std::alloc::Global;
use std::test::Fail;

const TEXT: &[u8] = b"long v_x = -5L;
void act(void) {
  if (!(v_x == 1L || 0L < v_x && v_x < 9L)) {
    v_x = 2L * (v_x - 3L);
  } else {
    v_x = -(v_x + 4L);
  }
}
void set_x(long a) {
  switch (a) {
    case -2L:
    v_x = a;
    break;
    case 0L:
    act();
  }
}
";

fn name(alloc: Global, bytes: &[u8]) -> Result<Name, NoMemory> {
    Name::from_slice(alloc, bytes)
}

fn x(alloc: Global) -> Result<CExpr, NoMemory> {
    let name = name(alloc, b"v_x")?;
    Ok(CExpr::Name(name))
}

fn relate(alloc: Global, left: CExpr, relation: Relation, right: CExpr) -> Result<CExpr, NoMemory> {
    let left = Boxed::new(alloc, left)?;
    let right = Boxed::new(alloc, right)?;
    Ok(CExpr::Relate(left, relation, right))
}

fn pair<T: Drop>(alloc: Global, first: T, second: T) -> Result<Items<T>, NoMemory> {
    let mut items = Items::new(alloc);
    items.push(first)?;
    items.push(second)?;
    Ok(items)
}

fn single<T: Drop>(alloc: Global, item: T) -> Result<Items<T>, NoMemory> {
    let mut items = Items::new(alloc);
    items.push(item)?;
    Ok(items)
}

// `v_x + number`, or `v_x - number`
fn sum(alloc: Global, minus: bool, number: i64) -> Result<CExpr, NoMemory> {
    let first = CTerm {
        minus: false,
        value: x(alloc)?,
    };
    let second = CTerm {
        minus,
        value: CExpr::Constant(number),
    };
    Ok(CExpr::Sum(pair(alloc, first, second)?))
}

// `!(v_x == 1L || 0L < v_x && v_x < 9L)`
fn condition(alloc: Global) -> Result<CExpr, NoMemory> {
    let is_one = relate(alloc, x(alloc)?, Relation::Equal, CExpr::Constant(1))?;
    let above = relate(alloc, CExpr::Constant(0), Relation::Less, x(alloc)?)?;
    let below = relate(alloc, x(alloc)?, Relation::Less, CExpr::Constant(9))?;
    let between = CExpr::And(pair(alloc, above, below)?);
    let either = CExpr::Or(pair(alloc, is_one, between)?);
    Ok(CExpr::Not(Boxed::new(alloc, either)?))
}

fn assign(alloc: Global, value: CExpr) -> Result<CStmt, NoMemory> {
    let object = name(alloc, b"v_x")?;
    Ok(CStmt::Assign(object, value))
}

fn act(alloc: Global) -> Result<CItem, NoMemory> {
    let product = CExpr::Product(pair(alloc, CExpr::Constant(2), sum(alloc, true, 3)?)?);
    let minus = CExpr::Minus(Boxed::new(alloc, sum(alloc, false, 4)?)?);
    let yes_block = single(alloc, assign(alloc, product)?)?;
    let no_block = single(alloc, assign(alloc, minus)?)?;
    let choice = CStmt::If(condition(alloc)?, yes_block, no_block);
    Ok(CItem::Function(CFunction {
        name: name(alloc, b"act")?,
        parameter: None,
        body: single(alloc, choice)?,
    }))
}

fn setter(alloc: Global) -> Result<CItem, NoMemory> {
    let value = CExpr::Name(name(alloc, b"a")?);
    let first = CClause {
        label: -2,
        body: single(alloc, assign(alloc, value)?)?,
        stops: true,
    };
    let call = CStmt::Call(name(alloc, b"act")?, None);
    let second = CClause {
        label: 0,
        body: single(alloc, call)?,
        stops: false,
    };
    let clauses = pair(alloc, first, second)?;
    let switch = CStmt::Switch(CExpr::Name(name(alloc, b"a")?), clauses);
    Ok(CItem::Function(CFunction {
        name: name(alloc, b"set_x")?,
        parameter: Some(name(alloc, b"a")?),
        body: single(alloc, switch)?,
    }))
}

fn unit(alloc: Global) -> Result<CUnit, NoMemory> {
    let object = CItem::Object(CObject {
        name: name(alloc, b"v_x")?,
        init: -5,
    });
    let mut items = pair(alloc, object, act(alloc)?)?;
    items.push(setter(alloc)?)?;
    Ok(CUnit { items })
}

#[test]
fn prints_each_form(rt: HostRuntime) -> Result<(), Fail> {
    let unit = unit(rt.alloc()).map_err(|_| "no memory")?;
    let bytes = print_c(rt.alloc(), &unit).map_err(|_| "no memory")?;
    assert_eq!(rt; bytes.as_slice(), TEXT);
    Ok(())
}
