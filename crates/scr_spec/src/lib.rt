//! What a specification is: its types, and the definitions that every layer rests on.
#![tactic(auto)]

mod cond;
mod copy;
mod law;
mod limits;
mod numbers;
mod sort;
mod spec;
mod state;
mod table;
mod variables;

pub use cond::{Cond, Expr, Item, Operand, Owner};
pub use copy::{copy_constants, copy_kind, copy_names, copy_types, copy_variable};
pub use dd_formula::Domain;
pub use law::{bounded_depth, limits_of_specifications};
pub use limits::{
    CELL_LIMIT, CONSTANT_LIMIT, FACTOR_LIMIT, ITEM_LIMIT, LABEL_LIMIT, NESTING_LIMIT, NOT_LIMIT,
    RANGE_LIMIT, ROW_LIMIT, SIDE_LIMIT, TYPE_LIMIT, VARIABLE_LIMIT,
};
pub use numbers::{
    constant_value, kind_range, kind_sort, type_range, type_sort, variable_range, variable_sort,
};
pub use sort::Sort;
pub use spec::{Constant, Kind, Role, Shape, Spec, TypeDef, Variable};
pub use state::{Input, State};
pub use table::{Cell, Change, Event, Heading, Primitive, Row, Table};
pub use variables::variable_name;
