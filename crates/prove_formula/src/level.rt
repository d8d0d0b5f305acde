//! The levels of variables.
ghost use Rattle.std.specs.Prelude.{◌≡◌, ◌<◌};
ghost use Rattle.prove_formula.specs.Levels.{level_of};

/// The level of a variable: of its new value where `new` is true, and of its old one else.
pub fn level_at(v: usize, new: bool) -> usize
    requires { v < 128 }
    ensures { result ≡ level_of new v }
{
    if new { 2 * v + 1 } else { 2 * v }
}
