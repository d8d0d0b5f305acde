//! The names and the values of variables, as they are printed.
ghost use Rattle.std.specs.Prelude.{◌≡◌, ◌++◌, OnOk};
ghost use Rattle.scr_spec.specs.Shown.{data_of};
ghost use Rattle.cmd_report.specs.Variables as text;

use base::NoMemory;
use prove_tables::Reading;
use scr_printer::{push_value, variable_name};
use scr_spec::Spec;

/// A space and the name, for each of the variables.
pub(crate) fn push_names(out: &mut Vec<u8>, spec: &Spec, vs: &[usize]) -> Result<(), NoMemory>
    ensures { OnOk result (out.new.items ≡ out.old.items ++ text.names_text (data_of spec.now) vs.now) }
{
    for v in vs {
        out.extend_from_slice(b" ")?;
        out.extend_from_slice(variable_name(spec, *v))?;
    }
    Ok(())
}

fn prime_text(level: usize) -> &'static [u8]
    ensures { result.now ≡ text.prime_text level }
{
    if level % 2 == 0 { b"" } else { b"'" }
}

/// A space, the variable of the level and its value.
pub(crate) fn push_reading(
    out: &mut Vec<u8>,
    spec: &Spec,
    reading: &Reading,
) -> Result<(), NoMemory>
    ensures { OnOk result (out.new.items ≡ out.old.items ++ text.reading_text (data_of spec.now) reading.now) }
{
    let v = reading.level / 2;
    out.extend_from_slice(b" ")?;
    out.extend_from_slice(variable_name(spec, v))?;
    out.extend_from_slice(prime_text(reading.level))?;
    out.extend_from_slice(b"=")?;
    push_value(out, spec, v, reading.code)
}
