//! A subset of C (ISO/IEC 9899:2011, below C11): the types of a unit, its rules, and what it means. All numbers are
//! of the type `long`; a truth is a kind of its own, where C11 has the numbers 0 and 1.
#![tactic(auto)]

mod expr;
mod kind;
mod law;
mod stmt;
mod unit;

pub use expr::{CExpr, CTerm};
pub use kind::CKind;
pub use law::{earlier_decide, switch_changes_nothing};
pub use stmt::{CClause, CStmt};
pub use unit::{CFunction, CItem, CObject, CUnit};
