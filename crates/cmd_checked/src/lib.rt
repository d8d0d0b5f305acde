//! Checking first: from the bytes of a text to a specification that passed its checks, or to the report that ends the
//! command.
#![tactic(auto)]

mod checking;
mod law;
mod spelling;
mod verdicts;
mod words;

pub use checking::{Checking, check_file, check_text, passed_report};
pub use law::one_checking;
pub use spelling::{Spelling, spell_file, spell_text};
pub use verdicts::{has_no, is_no, is_undecided};
pub use words::{OneChecked, TwoChecked, one_checked, two_checked};
