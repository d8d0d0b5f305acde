//! The lines on the coverage of a run.
ghost use Rattle.std.specs.Prelude.{◌≡◌, ◌++◌, OnOk};
ghost use Rattle.std.specs.List.{flat_map};
ghost use Rattle.scr_spec.specs.Shown.{data_of};
ghost use Rattle.cmd_cover.specs.Text as text;

use base::NoMemory;
use run_cover::Count;
use scr_spec::{Spec, variable_name};

fn table_name(spec: &Spec, number: usize) -> &[u8]
    ensures { result.now ≡ text.table_name (data_of spec.now) number }
{
    match spec.tables.get(number) {
        Some(table) => variable_name(spec, table.variable),
        None => &[],
    }
}

/// Appends the line on a cell: at how many inputs it held.
fn push_count(out: &mut Vec<u8>, spec: &Spec, count: &Count) -> Result<(), NoMemory>
    ensures { OnOk result (out.new.items ≡ out.old.items ++ text.count_text (data_of spec.now) count.now) }
{
    let Count {
        table,
        row,
        column,
        times,
    } = *count;
    out.extend_from_slice(b"table ")?;
    out.extend_from_slice(table_name(spec, table))?;
    let rest = format!(in *out.allocator(); " row {row} column {column}: {times}\n")?;
    out.extend_from_slice(rest.as_bytes())?;
    Ok(())
}

/// Appends the lines on these cells.
fn push_counts(out: &mut Vec<u8>, spec: &Spec, counts: &[Count]) -> Result<(), NoMemory>
    ensures { OnOk result (out.new.items ≡ out.old.items ++ flat_map (text.count_text (data_of spec.now)) counts.now) }
{
    for count in counts {
        push_count(out, spec, count)?;
    }
    Ok(())
}

/// Appends the lines on these cells, and the one on how many inputs there were.
pub(crate) fn push_tally(
    out: &mut Vec<u8>,
    spec: &Spec,
    counts: &[Count],
    notes: u64,
) -> Result<(), NoMemory>
    ensures { OnOk result (out.new.items ≡ out.old.items ++ text.tally_text (data_of spec.now) counts.now notes) }
{
    push_counts(out, spec, counts)?;
    let line = format!(in *out.allocator(); "inputs {notes}\n")?;
    out.extend_from_slice(line.as_bytes())?;
    Ok(())
}
