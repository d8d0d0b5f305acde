//! The answer for the whole, of the answers to searches over the slice.
ghost use Rattle.std.specs.Prelude.{◌≡◌, ◌++◌, ◌∷◌, [], IfOk};
ghost use Rattle.run_broken.specs.Slices as slices;
ghost use Rattle.run_broken.specs.Joins as joins;

use crate::before::is_before;
use base::NoMemory;
use run_reach::Answer;
use scr_spec::Input;
use sqlite_items::Items;
use std::alloc::Global;

/// The input with the number that its variable has in the whole.
fn whole_input(keep: &[usize], input: Input) -> Input
    ensures { result ≡ slices.whole_input keep.now input }
{
    let variable = match keep.get(input.variable) {
        Some(v) => *v,
        None => 0,
    };
    Input {
        variable,
        code: input.code,
    }
}

fn whole_inputs(alloc: Global, keep: &[usize], script: &[Input]) -> Result<Items<Input>, NoMemory>
    ensures { IfOk result (λ whole. whole ≡ slices.whole_inputs keep.now script.now) }
{
    let mut whole = Items::new(alloc);
    for input in script {
        whole.push(whole_input(keep, *input))?;
    }
    Ok(whole)
}

/// The answer with the numbers of the whole.
pub(crate) fn whole_answer(
    alloc: Global,
    keep: &[usize],
    answer: &Answer,
) -> Result<Answer, NoMemory>
    ensures { IfOk result (λ whole. whole ≡ joins.whole_answer keep.now answer.now) }
{
    match answer {
        Answer::Never => Ok(Answer::Never),
        Answer::Open(way) => Ok(Answer::Open(whole_inputs(alloc, keep, way.as_slice())?)),
        Answer::Least(script) => Ok(Answer::Least(whole_inputs(alloc, keep, script.as_slice())?)),
    }
}

/// The script, unless the other answer's comes before it.
fn sooner(answer: Answer, script: Items<Input>) -> Answer
    ensures { result ≡ joins.sooner answer script }
{
    match answer {
        Answer::Never => Answer::Least(script),
        Answer::Open(way) => {
            if is_before(way.as_slice(), script.as_slice()) {
                Answer::Open(way)
            } else {
                Answer::Least(script)
            }
        }
        Answer::Least(other) => {
            if is_before(other.as_slice(), script.as_slice()) {
                Answer::Least(other)
            } else {
                Answer::Least(script)
            }
        }
    }
}

fn with_last(alloc: Global, script: &[Input], input: Input) -> Result<Items<Input>, NoMemory>
    ensures { IfOk result (λ longer. longer ≡ script.now ++ input ∷ []) }
{
    let mut longer = Items::from_slice(alloc, script)?;
    longer.push(input)?;
    Ok(longer)
}

/// The first answer, with the script of the second one, behind which the input comes.
pub(crate) fn joined(
    alloc: Global,
    input: Input,
    answer: Answer,
    still: &Answer,
) -> Result<Answer, NoMemory>
    ensures { IfOk result (λ whole. whole ≡ joins.joined input answer still.now) }
{
    match still {
        Answer::Never | Answer::Open(_) => Ok(answer),
        Answer::Least(script) => {
            let script = with_last(alloc, script.as_slice(), input)?;
            Ok(sooner(answer, script))
        }
    }
}
