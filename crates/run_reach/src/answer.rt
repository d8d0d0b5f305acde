//! What a search answers.

use scr_spec::Input;
use sqlite_items::Items;

/// The answer to a search.
#[derive(Drop)]
pub enum Answer {
    /// No script meets what is sought.
    Never,
    /// Neither this script does nor one before it, and there is no room for the state that it leads to.
    Open(Items<Input>),
    /// The least script that does.
    Least(Items<Input>),
}
