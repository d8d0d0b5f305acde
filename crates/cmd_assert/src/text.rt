//! The lines on assertions.
ghost use Rattle.std.specs.Prelude.{◌≡◌, ◌++◌, OnOk};
ghost use Rattle.std.specs.List.{flat_map, zip};
ghost use Rattle.scr_spec.specs.Shown.{data_of};
ghost use Rattle.cmd_assert.specs.Texts as text;

use base::NoMemory;
use cmd_report::push_witness;
use prove_asserts::AssertVerdict;
use scr_resolve_asserts::Assertion;
use scr_spec::Spec;

/// What is said of an assertion.
fn push_outcome(out: &mut Vec<u8>, spec: &Spec, verdict: &AssertVerdict) -> Result<(), NoMemory>
    ensures { OnOk result (out.new.items ≡ out.old.items ++ text.outcome_text (data_of spec.now) verdict.now) }
{
    match verdict {
        AssertVerdict::Yes => out.extend_from_slice(b"yes")?,
        AssertVerdict::FalseInitial => out.extend_from_slice(b"false initial")?,
        AssertVerdict::Unproved(witness) => {
            out.extend_from_slice(b"unproved:")?;
            push_witness(out, spec, witness)?;
        }
        AssertVerdict::Undecided => out.extend_from_slice(b"undecided")?,
    }
    Ok(())
}

/// The line on an assertion.
fn push_verdict(
    out: &mut Vec<u8>,
    spec: &Spec,
    assertion: &Assertion,
    verdict: &AssertVerdict,
) -> Result<(), NoMemory>
    ensures { OnOk result (out.new.items ≡ out.old.items ++ text.verdict_text (data_of spec.now) (assertion.now, verdict.now)) }
{
    out.extend_from_slice(b"assert ")?;
    out.extend_from_slice(assertion.name.as_slice())?;
    out.extend_from_slice(b": ")?;
    push_outcome(out, spec, verdict)?;
    out.push(b'\n')?;
    Ok(())
}

/// A line on each assertion, in order.
pub(crate) fn push_verdicts(
    out: &mut Vec<u8>,
    spec: &Spec,
    assertions: &[Assertion],
    verdicts: &[AssertVerdict],
) -> Result<(), NoMemory>
    ensures { OnOk result (out.new.items ≡ out.old.items ++ text.verdicts_text (data_of spec.now) assertions.now verdicts.now) }
{
    for (assertion, verdict) in assertions.iter().zip(verdicts) {
        push_verdict(out, spec, assertion, verdict)?;
    }
    Ok(())
}
