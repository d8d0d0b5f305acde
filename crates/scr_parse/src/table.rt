//! What stands behind the first word of a line of a table.

ghost use Rattle.std.specs.Prelude.{◌≡◌, ℕ, List, [], ◌∷◌, Option, MatchOption, IfOk, Err};
ghost use Rattle.scr_tokens.specs.declared.word.Word.{Word};
ghost use Rattle.scr_parse.specs.declared.draft.DraftCell.{DraftCell};
ghost use Rattle.scr_parse.specs.declared.draft.DraftPrim.{DraftPrim};
ghost use Rattle.scr_parse.specs.Words.{words};
ghost use Rattle.scr_parse.specs.Events.{Event};
ghost use Rattle.scr_parse.specs.Forms.{HeadRest, RowRest, FromRest};

use crate::cell::read_cells;
use crate::event::read_event;
use crate::fault::FormFault;
use crate::names::read_names;
use crate::step::{is_end, lone_name_behind, past_keyword, past_sign, take_name, take_name_before};
use crate::{DraftCell, DraftPrim};
use base::Name;
use scr_spec::Heading;
use scr_tokens::{Keyword, Sign, Token};
use sqlite_items::Items;
use std::alloc::Global;

/// `n [OVER n]`
pub(crate) fn head_rest(alloc: Global, tokens: &[Token]) -> Result<(Name, Option<Name>), FormFault>
    ensures found { IfOk result (λ x. HeadRest (words tokens.now) x.0 x.1) }
    ensures refused { result ≡ Err FormFault.Refused
        → (name : List ℕ) (over : Option (List ℕ)) → HeadRest (words tokens.now) name over → ⊥ }
{
    let Some((name, rest)) = take_name(tokens) else {
        return Err(FormFault::Refused);
    };
    if is_end(rest) {
        return Ok((name.copy(alloc)?, None));
    }
    let Some(over) = lone_name_behind(rest, Keyword::Over) else {
        return Err(FormFault::Refused);
    };
    Ok((name.copy(alloc)?, Some(over.copy(alloc)?)))
}

/// `[n {, n}] : cell { '|' cell }`
#[tactic(auto, using(crate::proofs::FormsOnce::names_once))]
pub(crate) fn row_rest(
    alloc: Global,
    heading: Heading,
    tokens: &[Token],
) -> Result<(Items<Name>, Items<DraftCell>), FormFault>
    ensures found { IfOk result (λ x. RowRest heading (words tokens.now) x.0 x.1) }
    ensures refused { result ≡ Err FormFault.Refused
        → (modes : List (List ℕ)) (cells : List DraftCell)
        → RowRest heading (words tokens.now) modes cells → ⊥ }
{
    if let Some(rest) = past_sign(tokens, Sign::Colon) {
        let cells = read_cells(alloc, heading, rest)?;
        return Ok((Items::new(alloc), cells));
    }
    let (modes, rest) = read_names(alloc, tokens)?;
    let Some(rest) = past_sign(rest, Sign::Colon) else {
        return Err(FormFault::Refused);
    };
    let cells = read_cells(alloc, heading, rest)?;
    Ok((modes, cells))
}

/// The names of `n TO n :`, and the tokens behind them.
fn take_modes(tokens: &[Token]) -> Option<(&Name, &Name, &[Token])>
    ensures { MatchOption result
        ((source target : List ℕ) (rest : List Word)
        → words tokens.now ≡ Word.Name source ∷ Word.Reserved Keyword.To ∷ Word.Name target
        ∷ Word.Sign Sign.Colon ∷ rest → ⊥)
        (λ x. words tokens.now ≡ Word.Name x.0.now ∷ Word.Reserved Keyword.To ∷ Word.Name x.1.now
        ∷ Word.Sign Sign.Colon ∷ words x.2.now) }
{
    let (source, rest) = take_name(tokens)?;
    let rest = past_keyword(rest, Keyword::To)?;
    let (target, rest) = take_name_before(rest, Sign::Colon)?;
    Some((source, target, rest))
}

#[tactic(auto, using(crate::proofs::Once::event_once))]
fn read_last_event(alloc: Global, tokens: &[Token]) -> Result<Items<DraftPrim>, FormFault>
    ensures found { IfOk result (λ prims. Event (words tokens.now) prims []) }
    ensures refused { result ≡ Err FormFault.Refused
        → (prims : List DraftPrim) → Event (words tokens.now) prims [] → ⊥ }
{
    let (prims, rest) = read_event(alloc, tokens)?;
    if is_end(rest) {
        Ok(prims)
    } else {
        Err(FormFault::Refused)
    }
}

/// `n TO n : event`
pub(crate) fn from_rest(
    alloc: Global,
    tokens: &[Token],
) -> Result<(Name, Name, Items<DraftPrim>), FormFault>
    ensures found { IfOk result (λ x. FromRest (words tokens.now) x.0 x.1 x.2) }
    ensures refused { result ≡ Err FormFault.Refused
        → (source target : List ℕ) (prims : List DraftPrim)
        → FromRest (words tokens.now) source target prims → ⊥ }
{
    let Some((source, target, rest)) = take_modes(tokens) else {
        return Err(FormFault::Refused);
    };
    let prims = read_last_event(alloc, rest)?;
    Ok((source.copy(alloc)?, target.copy(alloc)?, prims))
}
