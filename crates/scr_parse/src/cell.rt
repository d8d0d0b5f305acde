//! Reads the cells of a row and the values of a table, which bars part, to the end of their line.

ghost use Rattle.std.specs.Prelude.{◌≡◌, ◌<◌, List, length, IfOk};
ghost use Rattle.scr_tokens.specs.declared.word.Word.{Word};
ghost use Rattle.scr_parse.specs.Words.{words};
ghost use Rattle.scr_parse.specs.Events.{Cell, Cells, Sides};

use crate::cond::{any_of, read_cond};
use crate::draft::{DraftCell, DraftEvent, DraftSide};
use crate::event::read_event;
use crate::fault::FormFault;
use crate::side::read_side;
use crate::step::past_sign;
use scr_spec::Heading;
use scr_tokens::{Sign, Token};
use sqlite_items::Items;
use std::alloc::Global;

/// A cell of a table with this heading, and the tokens behind it.
fn read_cell(
    alloc: Global,
    heading: Heading,
    tokens: &[Token],
) -> Result<(DraftCell, &[Token]), FormFault>
    ensures found { IfOk result (λ x. Cell heading (words tokens.now) x.0 (words x.1.now)) }
    ensures shorter { IfOk result (λ x. length x.1.now < length tokens.now) }
    ensures refused { result ≡ Err FormFault.Refused
        → (cell : DraftCell) (rest : List Word) → Cell heading (words tokens.now) cell rest → ⊥ }
{
    match heading {
        Heading::Condition => {
            let (members, rest) = read_cond(alloc, false, tokens)?;
            Ok((DraftCell::Cond(any_of(members)), rest))
        }
        Heading::Event => {
            let (prims, rest) = read_event(alloc, tokens)?;
            Ok((DraftCell::Event(DraftEvent { prims }), rest))
        }
        Heading::Modes => Err(FormFault::Refused),
    }
}

/// The cells of a line of a table with this heading.
pub(crate) fn read_cells(
    alloc: Global,
    heading: Heading,
    tokens: &[Token],
) -> Result<Items<DraftCell>, FormFault>
    ensures found { IfOk result (λ cells. Cells heading (words tokens.now) cells) }
    ensures refused { result ≡ Err FormFault.Refused
        → (cells : List DraftCell) → Cells heading (words tokens.now) cells → ⊥ }
{
    let mut cells = Items::new(alloc);
    let mut here = tokens;
    'cells: loop {
        let (cell, after) = read_cell(alloc, heading, here)?;
        cells.push(cell)?;
        if after.is_empty() {
            return Ok(cells);
        }
        match past_sign(after, Sign::Bar) {
            Some(next) => here = next,
            None => return Err(FormFault::Refused),
        }
    }
}

/// The values of a table, which may have primed names.
pub(crate) fn read_sides(alloc: Global, tokens: &[Token]) -> Result<Items<DraftSide>, FormFault>
    ensures found { IfOk result (λ sides. Sides (words tokens.now) sides) }
    ensures refused { result ≡ Err FormFault.Refused
        → (sides : List DraftSide) → Sides (words tokens.now) sides → ⊥ }
{
    let mut sides = Items::new(alloc);
    let mut here = tokens;
    'sides: loop {
        let (side, after) = read_side(alloc, true, here)?;
        sides.push(side)?;
        if after.is_empty() {
            return Ok(sides);
        }
        match past_sign(after, Sign::Bar) {
            Some(next) => here = next,
            None => return Err(FormFault::Refused),
        }
    }
}
