//! The search for a script that breaks an assertion.
ghost use Rattle.std.specs.Prelude.{◌<◌, IfOk, IsTrue};
ghost use Rattle.scr_spec.specs.Shown.{data_of};
ghost use Rattle.scr_spec.specs.Over.{is_cond_over};
ghost use Rattle.run_reach.specs.Answers.{IsAnswer};
ghost use Rattle.run_reach.specs.Targets.{broken_by};
ghost use Rattle.run_broken.specs.Breaks.{broken_still, IsBreak};
ghost use Rattle.run_broken.specs.Pieces.{IsOneState, IsTwoStates};

use crate::join::{joined, whole_answer};
use crate::outside::first_outside;
use crate::piece::{Piece, piece_of};
use crate::still::IsBrokenStill;
use base::NoMemory;
use run_reach::{Answer, IsBroken, seek};
use scr_depend::Checked;
use scr_spec::Cond;
use std::alloc::Global;

/// The answer on the slice.
fn own_answer(alloc: Global, piece: &Piece, two: bool, most: usize) -> Result<Answer, NoMemory>
    requires over { IsTrue (is_cond_over (data_of piece.now.part.spec) piece.now.cond) }
    requires some { 0 < most }
    ensures { IfOk result (IsAnswer (data_of piece.now.part.spec) (broken_by (data_of piece.now.part.spec) two piece.now.cond) most) }
{
    let cond = &piece.cond;
    seek(alloc, &piece.part, &IsBroken { cond, two }, most)
}

/// The answer on the slice as to where a step that changes nothing of it breaks the assertion.
fn still_answer(alloc: Global, piece: &Piece, most: usize) -> Result<Answer, NoMemory>
    requires over { IsTrue (is_cond_over (data_of piece.now.part.spec) piece.now.cond) }
    requires some { 0 < most }
    ensures { IfOk result (IsAnswer (data_of piece.now.part.spec) (broken_still (data_of piece.now.part.spec) piece.now.cond) most) }
{
    let cond = &piece.cond;
    seek(alloc, &piece.part, &IsBrokenStill { cond }, most)
}

/// Searches for what breaks an assertion of one state. An input to a variable outside the slice changes nothing of
/// it, so it is none of the least script.
fn seek_one(alloc: Global, piece: &Piece, most: usize) -> Result<Answer, NoMemory>
    requires over { IsTrue (is_cond_over (data_of piece.now.part.spec) piece.now.cond) }
    requires some { 0 < most }
    ensures { IfOk result (IsOneState piece.now most) }
{
    let answer = own_answer(alloc, piece, false, most)?;
    whole_answer(alloc, piece.keep.as_slice(), &answer)
}

/// Searches for what breaks an assertion of two states. An input to a variable outside the slice changes nothing of
/// it, so it can only be the last one of the least script, and of such inputs the first that may come in the
/// initial state.
fn seek_two(
    alloc: Global,
    checked: &Checked,
    piece: &Piece,
    most: usize,
) -> Result<Answer, NoMemory>
    requires over { IsTrue (is_cond_over (data_of piece.now.part.spec) piece.now.cond) }
    requires some { 0 < most }
    ensures { IfOk result (IsTwoStates (data_of checked.now.spec) piece.now most) }
{
    let answer = own_answer(alloc, piece, true, most)?;
    let answer = whole_answer(alloc, piece.keep.as_slice(), &answer)?;
    match first_outside(alloc, checked, piece.keep.as_slice())? {
        None => Ok(answer),
        Some(input) => {
            let still = still_answer(alloc, piece, most)?;
            let still = whole_answer(alloc, piece.keep.as_slice(), &still)?;
            joined(alloc, input, answer, &still)
        }
    }
}

/// Searches the runs of a specification for the least script that breaks the assertion, where at most so many
/// states of the slice that it needs are stored.
pub fn seek_break(
    alloc: Global,
    checked: &Checked,
    cond: &Cond,
    two: bool,
    most: usize,
) -> Result<Answer, NoMemory>
    requires over { IsTrue (is_cond_over (data_of checked.now.spec) cond.now) }
    requires some { 0 < most }
    ensures { IfOk result (IsBreak (data_of checked.now.spec) two cond.now most) }
{
    let piece = piece_of(alloc, checked, cond)?;
    if two {
        seek_two(alloc, checked, &piece, most)
    } else {
        seek_one(alloc, &piece, most)
    }
}
