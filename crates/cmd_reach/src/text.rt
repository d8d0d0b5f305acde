//! The lines on assertions.
ghost use Rattle.std.specs.Prelude.{◌≡◌, ◌++◌, OnOk};
ghost use Rattle.std.specs.List.{flat_map, zip};
ghost use Rattle.scr_spec.specs.Shown.{data_of};
ghost use Rattle.cmd_reach.specs.Texts as text;

use base::NoMemory;
use itoa::Buffer;
use run_reach::Answer;
use scr_printer::{push_value, variable_name};
use scr_resolve_asserts::Assertion;
use scr_spec::{Input, Spec};

fn push_count(out: &mut Vec<u8>, count: usize) -> Result<(), NoMemory>
    ensures { OnOk result (out.new.items ≡ out.old.items ++ text.count_text count) }
{
    out.extend_from_slice(Buffer::new().format(count).as_bytes())?;
    out.push(b'\n')?;
    Ok(())
}

/// The line of a script that is an input.
fn push_input(out: &mut Vec<u8>, spec: &Spec, input: Input) -> Result<(), NoMemory>
    ensures { OnOk result (out.new.items ≡ out.old.items ++ text.input_text (data_of spec.now) input) }
{
    out.extend_from_slice(b"SET ")?;
    out.extend_from_slice(variable_name(spec, input.variable))?;
    out.push(b' ')?;
    push_value(out, spec, input.variable, input.code)?;
    out.push(b'\n')?;
    Ok(())
}

/// The lines of a script.
fn push_script(out: &mut Vec<u8>, spec: &Spec, script: &[Input]) -> Result<(), NoMemory>
    ensures { OnOk result (out.new.items ≡ out.old.items ++ flat_map (text.input_text (data_of spec.now)) script.now) }
{
    for input in script {
        push_input(out, spec, *input)?;
    }
    Ok(())
}

fn push_least(out: &mut Vec<u8>, spec: &Spec, script: &[Input]) -> Result<(), NoMemory>
    ensures { OnOk result (out.new.items ≡ out.old.items ++ text.least_text (data_of spec.now) script.now) }
{
    if script.len() == 0 {
        out.extend_from_slice(b"initial\n")?;
        return Ok(());
    }
    push_count(out, script.len())?;
    push_script(out, spec, script)
}

/// What is said of an assertion.
fn push_outcome(out: &mut Vec<u8>, spec: &Spec, answer: &Answer) -> Result<(), NoMemory>
    ensures { OnOk result (out.new.items ≡ out.old.items ++ text.outcome_text (data_of spec.now) answer.now) }
{
    match answer {
        Answer::Never => {
            out.extend_from_slice(b"never\n")?;
            Ok(())
        }
        Answer::Open(way) => {
            out.extend_from_slice(b"open ")?;
            push_count(out, way.len().saturating_sub(1))
        }
        Answer::Least(script) => push_least(out, spec, script.as_slice()),
    }
}

/// The lines on an assertion.
fn push_answer(
    out: &mut Vec<u8>,
    spec: &Spec,
    assertion: &Assertion,
    answer: &Answer,
) -> Result<(), NoMemory>
    ensures { OnOk result (out.new.items ≡ out.old.items ++ text.answer_text (data_of spec.now) (assertion.now, answer.now)) }
{
    out.extend_from_slice(b"reach ")?;
    out.extend_from_slice(assertion.name.as_slice())?;
    out.extend_from_slice(b": ")?;
    push_outcome(out, spec, answer)
}

/// The lines on each assertion, in order.
pub(crate) fn push_answers(
    out: &mut Vec<u8>,
    spec: &Spec,
    assertions: &[Assertion],
    answers: &[Answer],
) -> Result<(), NoMemory>
    ensures { OnOk result (out.new.items ≡ out.old.items ++ text.answers_text (data_of spec.now) assertions.now answers.now) }
{
    for (assertion, answer) in assertions.iter().zip(answers) {
        push_answer(out, spec, assertion, answer)?;
    }
    Ok(())
}
