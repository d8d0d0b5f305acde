//! The text of a chain.
ghost use Rattle.std.specs.Prelude.{◌≡◌, ◌≤◌, IfOk};
ghost use Rattle.cmd_generate.specs.declared.chain.TheConstants.{LAST_LATCH};
ghost use Rattle.cmd_generate.specs.Chain.{chain_text};

use crate::declaration::push_declarations;
use crate::table::push_tables;
use base::NoMemory;
use std::alloc::Global;

/// The greatest number that the last latch of a chain may have.
pub const LAST_LATCH: u32 = 40;

/// The canonical text of the chain whose last latch has the number `n`. It has `n + 1` latches, numbered from 0.
#[tactic(auto, unfolding(crate::specs::Chain::chain_text))]
pub fn generate_chain(alloc: Global, n: u32) -> Result<Vec<u8>, NoMemory>
    requires { n ≤ LAST_LATCH }
    ensures { IfOk result (λ text. text.items ≡ chain_text n) }
{
    let mut out = Vec::new(alloc);
    push_declarations(&mut out, n)?;
    push_tables(&mut out, n)?;
    out.extend_from_slice(b"FINISH\n")?;
    Ok(out)
}
