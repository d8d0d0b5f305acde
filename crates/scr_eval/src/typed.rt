//! Typed states.
ghost use Rattle.std.specs.Prelude.{◌↔◌, IsTrue};
ghost use Rattle.scr_spec.specs.Shown.{data_of};
ghost use Rattle.scr_spec.specs.Domains.{IsWithin, IsTyped};

use scr_spec::{Domain, Spec, State};

fn is_within(domain: Domain, code: i64) -> bool
    ensures { IsTrue result ↔ IsWithin domain code }
{
    domain.lo <= code && code <= domain.hi
}

/// Whether a state has one code for each variable, each in its domain.
pub fn is_typed(spec: &Spec, at: &State) -> bool
    ensures { IsTrue result ↔ IsTyped (data_of spec.now) at.now.codes }
{
    let count = spec.variables.len();
    let codes = at.codes.as_slice();
    if codes.len() != count {
        return false;
    }
    for v in 0..count {
        if !is_within(spec.domain(v), codes[v]) {
            return false;
        }
    }
    true
}
