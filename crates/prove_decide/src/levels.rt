//! A store with the levels of a specification.
ghost use Rattle.std.specs.Prelude.{◌≡◌, ◌≤◌, IfOk, length};
ghost use Rattle.std.specs.List.{All};
ghost use Rattle.scr_spec.specs.Shown.{data_of};
ghost use Rattle.dd_store.specs.Domains.{IsDomain};
ghost use Rattle.prove_decide.specs.Levels.{level_domains};
ghost use Rattle.prove_decide.specs.Decisions.{IsBare};
ghost use Rattle.dd_store.specs.declared.store.TheConstants.{SPLIT_LIMIT};

use base::NoMemory;
use dd_store::Store;
use scr_spec::{Domain, Spec};
use std::alloc::Global;

/// The domain of each level: that of its variable.
#[tactic(auto, using(prove_formula::proofs::Growth::row_laws))]
fn domains_of(alloc: Global, spec: &Spec) -> Result<Vec<Domain>, NoMemory>
    ensures { IfOk result (λ ds. ds.items ≡ level_domains (data_of spec.now)) }
{
    let count = 2 * spec.variables.len();
    let mut domains = Vec::new(alloc);
    for level in 0..count {
        domains.push(spec.domain(level / 2))?;
    }
    Ok(domains)
}

/// A store without nodes.
pub fn new_store(alloc: Global, spec: &Spec, limit: u32) -> Result<Store, NoMemory>
    requires { limit ≤ SPLIT_LIMIT }
    ensures { IfOk result (IsBare (level_domains (data_of spec.now)) limit) }
{
    let domains = domains_of(alloc, spec)?;
    Store::new(alloc, domains, limit)
}

/// A place for the code of each level.
pub fn places(alloc: Global, store: &Store) -> Result<Vec<i64>, NoMemory>
    ensures { IfOk result (λ codes. length codes.items ≡ length store.now.domains) }
{
    let mut codes = Vec::new(alloc);
    codes.resize(store.levels(), 0)?;
    Ok(codes)
}
