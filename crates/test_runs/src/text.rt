//! From a text to a specification that passed its checks.

use prove_tables::{Outcome, check};
use scr_depend::Checked;
use scr_parse::read;
use scr_resolve::resolve;
use scr_spec::Spec;
use std::alloc::Global;

fn specification(alloc: Global, text: &[u8]) -> Option<Spec> {
    match read(alloc, text) {
        Ok(draft) => match resolve(alloc, &draft) {
            Ok(spec) => Some(spec),
            Err(_) => None,
        },
        Err(_) => None,
    }
}

/// The specification that the text spells. None where it does not pass its checks, or memory is out.
pub fn checked(alloc: Global, text: &[u8]) -> Option<Checked> {
    let spec = specification(alloc, text)?;
    match check(alloc, spec, 40_000) {
        Ok(Outcome::Passed(checked)) => Some(checked),
        _ => None,
    }
}
