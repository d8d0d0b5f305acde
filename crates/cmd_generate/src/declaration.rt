//! The declarations of a chain.
ghost use Rattle.std.specs.Prelude.{◌≡◌, ◌++◌, ◌+◌, ◌≤◌, OnOk};
ghost use Rattle.std.specs.List.{flat_map, range_with_len};
ghost use Rattle.cmd_generate.specs.declared.chain.TheConstants.{LAST_LATCH};
ghost use Rattle.cmd_generate.specs.Chain as chain;

use base::NoMemory;

/// The lines above those of the latches.
#[tactic(auto, unfolding(crate::specs::Chain::inputs_text))]
fn push_inputs(out: &mut Vec<u8>) -> Result<(), NoMemory>
    ensures { OnOk result (out.new.items ≡ out.old.items ++ chain.inputs_text) }
{
    out.extend_from_slice(b"SPECIFICATION Chain\n")?;
    out.extend_from_slice(b"TYPE Level = 0 .. 100\n")?;
    out.extend_from_slice(b"MONITORED Reset : BOOLEAN INIT FALSE\n")?;
    out.extend_from_slice(b"MONITORED Input : Level INIT 0\n")?;
    Ok(())
}

#[tactic(auto, unfolding(crate::specs::Chain::term_line))]
fn push_term(out: &mut Vec<u8>, k: u32) -> Result<(), NoMemory>
    ensures { OnOk result (out.new.items ≡ out.old.items ++ chain.term_line k) }
{
    let line = format!(in *out.allocator(); "TERM L{k} : BOOLEAN INIT FALSE\n")?;
    out.extend_from_slice(line.as_bytes())?;
    Ok(())
}

/// So many latches, a line each.
fn push_terms(out: &mut Vec<u8>, count: u32) -> Result<(), NoMemory>
    ensures { OnOk result (out.new.items ≡ out.old.items ++ flat_map chain.term_line (range_with_len 0 count)) }
{
    for k in 0..count {
        push_term(out, k)?;
    }
    Ok(())
}

/// The lines below those of the latches.
#[tactic(auto, unfolding(crate::specs::Chain::outputs_text))]
fn push_outputs(out: &mut Vec<u8>) -> Result<(), NoMemory>
    ensures { OnOk result (out.new.items ≡ out.old.items ++ chain.outputs_text) }
{
    out.extend_from_slice(b"MODECLASS Phase = { Idle, Armed } INIT Idle\n")?;
    out.extend_from_slice(b"CONTROLLED Out : BOOLEAN\n")?;
    Ok(())
}

/// The name, and a line for each type and variable.
#[tactic(auto, unfolding(crate::specs::Chain::declarations_text))]
pub(crate) fn push_declarations(out: &mut Vec<u8>, n: u32) -> Result<(), NoMemory>
    requires { n ≤ LAST_LATCH }
    ensures { OnOk result (out.new.items ≡ out.old.items ++ chain.declarations_text n) }
{
    push_inputs(out)?;
    push_terms(out, n + 1)?;
    push_outputs(out)
}
