//! The tables of a chain.
ghost use Rattle.std.specs.Prelude.{◌≡◌, ◌++◌, ◌+◌, ◌≤◌, OnOk};
ghost use Rattle.std.specs.List.{flat_map, range_with_len};
ghost use Rattle.cmd_generate.specs.declared.chain.TheConstants.{LAST_LATCH};
ghost use Rattle.cmd_generate.specs.Chain as chain;

use base::NoMemory;

/// The table of a latch that is set where the condition becomes true.
#[tactic(auto, unfolding(crate::specs::Chain::latch_text))]
fn push_latch(out: &mut Vec<u8>, k: u32, condition: &str) -> Result<(), NoMemory>
    ensures { OnOk result (out.new.items ≡ out.old.items ++ chain.latch_text k condition.now) }
{
    let head = format!(in *out.allocator(); "EVENT L{k}\n")?;
    let row = format!(in *out.allocator(); "ROW : @T({condition}) WHEN NOT Reset | @T(Reset)\n")?;
    out.extend_from_slice(head.as_bytes())?;
    out.extend_from_slice(row.as_bytes())?;
    out.extend_from_slice(b"VALUES TRUE | FALSE\n")?;
    out.extend_from_slice(b"END\n")?;
    Ok(())
}

/// The table of the first latch, which the input sets.
#[tactic(auto, unfolding(crate::specs::Chain::first_latch_text))]
fn push_first_latch(out: &mut Vec<u8>) -> Result<(), NoMemory>
    ensures { OnOk result (out.new.items ≡ out.old.items ++ chain.first_latch_text) }
{
    push_latch(out, 0, "Input >= 50")
}

/// The table of the latch that this one sets.
#[tactic(auto, unfolding(crate::specs::Chain::next_latch_text))]
fn push_next_latch(out: &mut Vec<u8>, j: u32) -> Result<(), NoMemory>
    requires { j ≤ LAST_LATCH }
    ensures { OnOk result (out.new.items ≡ out.old.items ++ chain.next_latch_text j) }
{
    let set = format!(in *out.allocator(); "L{j}")?;
    push_latch(out, j + 1, set.as_str())
}

/// The tables of so many latches, each of which the one before it sets.
fn push_latches(out: &mut Vec<u8>, count: u32) -> Result<(), NoMemory>
    requires { count ≤ LAST_LATCH }
    ensures { OnOk result (out.new.items ≡ out.old.items ++ flat_map chain.next_latch_text (range_with_len 0 count)) }
{
    for j in 0..count {
        push_next_latch(out, j)?;
    }
    Ok(())
}

#[tactic(auto, unfolding(crate::specs::Chain::rising_line))]
fn push_rising(out: &mut Vec<u8>, n: u32) -> Result<(), NoMemory>
    ensures { OnOk result (out.new.items ≡ out.old.items ++ chain.rising_line n) }
{
    let line = format!(in *out.allocator(); "FROM Idle TO Armed : @T(L{n})\n")?;
    out.extend_from_slice(line.as_bytes())?;
    Ok(())
}

#[tactic(auto, unfolding(crate::specs::Chain::falling_line))]
fn push_falling(out: &mut Vec<u8>, n: u32) -> Result<(), NoMemory>
    ensures { OnOk result (out.new.items ≡ out.old.items ++ chain.falling_line n) }
{
    let line = format!(in *out.allocator(); "FROM Armed TO Idle : @F(L{n})\n")?;
    out.extend_from_slice(line.as_bytes())?;
    Ok(())
}

/// The table of the mode class, which follows the last latch.
#[tactic(auto, unfolding(crate::specs::Chain::phase_text))]
fn push_phase(out: &mut Vec<u8>, n: u32) -> Result<(), NoMemory>
    ensures { OnOk result (out.new.items ≡ out.old.items ++ chain.phase_text n) }
{
    out.extend_from_slice(b"MODES Phase\n")?;
    push_rising(out, n)?;
    push_falling(out, n)?;
    out.extend_from_slice(b"END\n")?;
    Ok(())
}

/// The table of the output.
#[tactic(auto, unfolding(crate::specs::Chain::output_text))]
fn push_output(out: &mut Vec<u8>) -> Result<(), NoMemory>
    ensures { OnOk result (out.new.items ≡ out.old.items ++ chain.output_text) }
{
    out.extend_from_slice(b"CONDITION Out OVER Phase\n")?;
    out.extend_from_slice(b"ROW Idle : FALSE | TRUE\n")?;
    out.extend_from_slice(b"ROW Armed : TRUE | FALSE\n")?;
    out.extend_from_slice(b"VALUES TRUE | FALSE\n")?;
    out.extend_from_slice(b"END\n")?;
    Ok(())
}

/// The tables, in order of declaration.
#[tactic(auto, unfolding(crate::specs::Chain::tables_text))]
pub(crate) fn push_tables(out: &mut Vec<u8>, n: u32) -> Result<(), NoMemory>
    requires { n ≤ LAST_LATCH }
    ensures { OnOk result (out.new.items ≡ out.old.items ++ chain.tables_text n) }
{
    push_first_latch(out)?;
    push_latches(out, n)?;
    push_phase(out, n)?;
    push_output(out)
}
