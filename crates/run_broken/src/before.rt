//! Which of two scripts comes before the other.
ghost use Rattle.std.specs.Prelude.{◌≡◌};
ghost use Rattle.run_broken.specs.Orders as orders;

use scr_spec::Input;

fn is_same(a: Input, b: Input) -> bool
    ensures { result ≡ orders.is_same a b }
{
    a.variable == b.variable && a.code == b.code
}

fn is_lesser(a: Input, b: Input) -> bool
    ensures { result ≡ orders.is_lesser a b }
{
    a.variable < b.variable || (a.variable == b.variable && a.code < b.code)
}

/// Whether the first script has the lesser input at the first place where they differ.
fn is_less(a: &[Input], b: &[Input]) -> bool
    ensures { result ≡ orders.is_less a.now b.now }
{
    for (x, y) in a.iter().zip(b) {
        if !is_same(*x, *y) {
            return is_lesser(*x, *y);
        }
    }
    false
}

/// Whether the first script comes before the second: it is shorter, or as long and has the lesser input at the
/// first place where they differ.
pub(crate) fn is_before(a: &[Input], b: &[Input]) -> bool
    ensures { result ≡ orders.is_before a.now b.now }
{
    if a.len() == b.len() {
        is_less(a, b)
    } else {
        a.len() < b.len()
    }
}
