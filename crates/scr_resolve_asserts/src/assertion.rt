//! Assertions.

use base::Name;
use scr_spec::Cond;

/// A condition that is asserted of every state; or where `two` is true, as a primed name in it makes
/// it, of every two neighbouring states.
#[derive(Drop)]
pub struct Assertion {
    pub name: Name,
    pub cond: Cond,
    pub two: bool,
}
