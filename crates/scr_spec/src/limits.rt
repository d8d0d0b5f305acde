//! The limits of a specification. Those of a line, a name and a number are in `base`.

/// The most types.
pub const TYPE_LIMIT: usize = 64;

/// The most constants.
pub const CONSTANT_LIMIT: usize = 256;

/// The most variables, with the mode classes.
pub const VARIABLE_LIMIT: usize = 128;

/// The most enumerators of a type, and the most modes of a class.
pub const LABEL_LIMIT: usize = 64;

/// The most integers of a type.
pub const RANGE_LIMIT: u64 = 8192;

/// The most rows of a table, and the most `FROM` lines of a mode table.
pub const ROW_LIMIT: usize = 64;

/// The most cells of a row, and the most values.
pub const CELL_LIMIT: usize = 16;

/// The most items of a side.
pub const ITEM_LIMIT: usize = 8;

/// The greatest absolute factor before a name, `TRUE` or `FALSE`.
pub const FACTOR_LIMIT: u64 = 1000;

/// The greatest bound of a side: of the sum of the absolute factors times the bounds of the operands.
pub const SIDE_LIMIT: u64 = 2_000_000_000;

/// The most `NOT` on a path from the root of a condition to a leaf, and in a cell of a line.
pub const NOT_LIMIT: u32 = 64;

/// The most parentheses that are open at once in a line. A path from the root of a condition to a
/// leaf has at most one `AND` and one `OR` for each of them, and one more.
pub const NESTING_LIMIT: u32 = 64;
