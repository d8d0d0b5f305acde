//! What a declared name stands for.

use scr_spec::Owner;

/// What a name stands for. Types, constants and variables go by their numbers, and an enumerator or
/// a mode by its list and its place there, from 0.
#[derive(Clone, Copy, PartialEq, Eq)]
pub enum Meaning {
    Type(usize),
    Constant(usize),
    Label(Owner, u32),
    Variable(usize),
}
