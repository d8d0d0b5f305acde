//! The lines on a run.
ghost use Rattle.std.specs.Prelude.{◌≡◌, ◌++◌, MatchResult, OnOk};
ghost use Rattle.std.specs.List.{flat_map, zip};
ghost use Rattle.scr_spec.specs.Shown.{data_of};
ghost use Rattle.cmd_report.specs.Runs as text;

use base::NoMemory;
use itoa::Buffer;
use scr_printer::push_kind_value;
use scr_spec::{Spec, State, TypeDef, Variable};

/// Room for a line of usual length, so that its memory is taken once.
const LINE_ROOM: usize = 256;

/// A space, the variable and its value.
fn push_value(
    out: &mut Vec<u8>,
    types: &[TypeDef],
    variable: &Variable,
    code: i64,
) -> Result<(), NoMemory>
    ensures { OnOk result (out.new.items ≡ out.old.items ++ text.state_value_text types.now (variable.now, code)) }
{
    out.extend_from_slice(b" ")?;
    out.extend_from_slice(variable.name.as_slice())?;
    out.extend_from_slice(b"=")?;
    push_kind_value(out, types, &variable.kind, code)
}

/// The values of the variables.
fn push_values(
    out: &mut Vec<u8>,
    types: &[TypeDef],
    variables: &[Variable],
    codes: &[i64],
) -> Result<(), NoMemory>
    ensures { OnOk result (out.new.items ≡ out.old.items ++ flat_map (text.state_value_text types.now) (zip variables.now codes.now)) }
{
    for (variable, code) in variables.iter().zip(codes) {
        push_value(out, types, variable, *code)?;
    }
    Ok(())
}

/// Appends the line on a state of a run: its number, from 0 for the initial state, and ` X=value` for
/// each variable. After a fault `out` is unchanged.
pub fn push_state(
    out: &mut Vec<u8>,
    spec: &Spec,
    number: u64,
    state: &State,
) -> Result<(), NoMemory>
    ensures { MatchResult result (λ _. out.new.items ≡ out.old.items ++ text.state_text (data_of spec.now) number state.now.codes)
        (λ _. out.new.items ≡ out.old.items) }
{
    let mut line = Vec::with_capacity(*out.allocator(), LINE_ROOM)?;
    line.extend_from_slice(Buffer::new().format(number).as_bytes())?;
    push_values(
        &mut line,
        spec.types.as_slice(),
        spec.variables.as_slice(),
        state.codes.as_slice(),
    )?;
    line.push(b'\n')?;
    out.extend_from_slice(line.as_slice())?;
    Ok(())
}
