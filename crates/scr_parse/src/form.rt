//! The forms of a line.

ghost use Rattle.std.specs.Prelude.{◌≡◌, ◌∷◌, MatchOption, IfOk, Err};
ghost use Rattle.scr_tokens.specs.declared.word.Word.{Word};
ghost use Rattle.scr_parse.specs.Words.{words};
ghost use Rattle.scr_parse.specs.Forms as spec;
ghost use Rattle.scr_spec.specs.declared.table.Heading.{Heading};
ghost use Rattle.scr_parse.specs.Forms.{Form, NoForm, expects_row};

use crate::cell::read_sides;
use crate::declaration::{class_rest, const_rest, nat_rest, type_rest, variable_rest};
use crate::fault::FormFault;
use crate::step::{is_end, lone_name, take_keyword};
use crate::table::{from_rest, head_rest, row_rest};
use crate::{DraftEvent, Place, Statement};
use scr_spec::{Heading, Role};
use scr_tokens::{Keyword, Token};
use std::alloc::Global;

fn read_specification(
    alloc: Global,
    place: Place,
    tokens: &[Token],
) -> Result<(Statement, Place), FormFault>
    ensures found { IfOk result
        (λ x. Form place (Word.Reserved Keyword.Specification ∷ words tokens.now) x.0 x.1) }
    ensures refused { result ≡ Err FormFault.Refused
        → NoForm place (Word.Reserved Keyword.Specification ∷ words tokens.now) }
{
    match (place, lone_name(tokens)) {
        (Place::Start, Some(name)) => Ok((
            Statement::Specification(name.copy(alloc)?),
            Place::Declarations,
        )),
        _ => Err(FormFault::Refused),
    }
}

fn read_type(alloc: Global, place: Place, tokens: &[Token]) -> Result<(Statement, Place), FormFault>
    ensures found { IfOk result
        (λ x. Form place (Word.Reserved Keyword.TypeWord ∷ words tokens.now) x.0 x.1) }
    ensures refused { result ≡ Err FormFault.Refused
        → NoForm place (Word.Reserved Keyword.TypeWord ∷ words tokens.now) }
{
    match place {
        Place::Declarations => Ok((type_rest(alloc, tokens)?, place)),
        _ => Err(FormFault::Refused),
    }
}

fn read_const(
    alloc: Global,
    place: Place,
    tokens: &[Token],
) -> Result<(Statement, Place), FormFault>
    ensures found { IfOk result
        (λ x. Form place (Word.Reserved Keyword.Const ∷ words tokens.now) x.0 x.1) }
    ensures refused { result ≡ Err FormFault.Refused
        → NoForm place (Word.Reserved Keyword.Const ∷ words tokens.now) }
{
    match (place, const_rest(tokens)) {
        (Place::Declarations, Some((name, value))) => Ok((
            Statement::Constant(name.copy(alloc)?, value),
            place,
        )),
        _ => Err(FormFault::Refused),
    }
}

fn read_monitored(
    alloc: Global,
    place: Place,
    tokens: &[Token],
) -> Result<(Statement, Place), FormFault>
    ensures found { IfOk result
        (λ x. Form place (Word.Reserved Keyword.Monitored ∷ words tokens.now) x.0 x.1) }
    ensures refused { result ≡ Err FormFault.Refused
        → NoForm place (Word.Reserved Keyword.Monitored ∷ words tokens.now) }
{
    match place {
        Place::Declarations => {
            let (name, kind, init) = variable_rest(alloc, tokens)?;
            match init {
                Some(init) => Ok((
                    Statement::Variable(Role::Monitored, name, kind, Some(init)),
                    place,
                )),
                None => Err(FormFault::Refused),
            }
        }
        _ => Err(FormFault::Refused),
    }
}

fn read_class(
    alloc: Global,
    place: Place,
    tokens: &[Token],
) -> Result<(Statement, Place), FormFault>
    ensures found { IfOk result
        (λ x. Form place (Word.Reserved Keyword.ModeClass ∷ words tokens.now) x.0 x.1) }
    ensures refused { result ≡ Err FormFault.Refused
        → NoForm place (Word.Reserved Keyword.ModeClass ∷ words tokens.now) }
{
    match place {
        Place::Declarations => {
            let (name, modes, first) = class_rest(alloc, tokens)?;
            Ok((Statement::Class(name, modes, first), place))
        }
        _ => Err(FormFault::Refused),
    }
}

fn read_term(alloc: Global, place: Place, tokens: &[Token]) -> Result<(Statement, Place), FormFault>
    ensures found { IfOk result
        (λ x. Form place (Word.Reserved Keyword.Term ∷ words tokens.now) x.0 x.1) }
    ensures refused { result ≡ Err FormFault.Refused
        → NoForm place (Word.Reserved Keyword.Term ∷ words tokens.now) }
{
    match place {
        Place::Declarations => {
            let (name, kind, init) = variable_rest(alloc, tokens)?;
            Ok((Statement::Variable(Role::Term, name, kind, init), place))
        }
        _ => Err(FormFault::Refused),
    }
}

fn read_controlled(
    alloc: Global,
    place: Place,
    tokens: &[Token],
) -> Result<(Statement, Place), FormFault>
    ensures found { IfOk result
        (λ x. Form place (Word.Reserved Keyword.Controlled ∷ words tokens.now) x.0 x.1) }
    ensures refused { result ≡ Err FormFault.Refused
        → NoForm place (Word.Reserved Keyword.Controlled ∷ words tokens.now) }
{
    match place {
        Place::Declarations => {
            let (name, kind, init) = variable_rest(alloc, tokens)?;
            Ok((
                Statement::Variable(Role::Controlled, name, kind, init),
                place,
            ))
        }
        _ => Err(FormFault::Refused),
    }
}

fn read_nat(alloc: Global, place: Place, tokens: &[Token]) -> Result<(Statement, Place), FormFault>
    ensures found { IfOk result
        (λ x. Form place (Word.Reserved Keyword.Nat ∷ words tokens.now) x.0 x.1) }
    ensures refused { result ≡ Err FormFault.Refused
        → NoForm place (Word.Reserved Keyword.Nat ∷ words tokens.now) }
{
    match (place, nat_rest(tokens)) {
        (Place::Declarations, Some((name, step))) => Ok((
            Statement::Nat(name.copy(alloc)?, step),
            place,
        )),
        _ => Err(FormFault::Refused),
    }
}

fn is_between(place: Place) -> bool
    ensures { result ≡ spec.is_between place }
{
    matches!(place, Place::Declarations | Place::Tables)
}

fn read_condition_head(
    alloc: Global,
    place: Place,
    tokens: &[Token],
) -> Result<(Statement, Place), FormFault>
    ensures found { IfOk result
        (λ x. Form place (Word.Reserved Keyword.Condition ∷ words tokens.now) x.0 x.1) }
    ensures refused { result ≡ Err FormFault.Refused
        → NoForm place (Word.Reserved Keyword.Condition ∷ words tokens.now) }
{
    if !is_between(place) {
        return Err(FormFault::Refused);
    }
    let (name, over) = head_rest(alloc, tokens)?;
    Ok((
        Statement::Head(Heading::Condition, name, over),
        Place::FirstRow(Heading::Condition),
    ))
}

fn read_event_head(
    alloc: Global,
    place: Place,
    tokens: &[Token],
) -> Result<(Statement, Place), FormFault>
    ensures found { IfOk result
        (λ x. Form place (Word.Reserved Keyword.Event ∷ words tokens.now) x.0 x.1) }
    ensures refused { result ≡ Err FormFault.Refused
        → NoForm place (Word.Reserved Keyword.Event ∷ words tokens.now) }
{
    if !is_between(place) {
        return Err(FormFault::Refused);
    }
    let (name, over) = head_rest(alloc, tokens)?;
    Ok((
        Statement::Head(Heading::Event, name, over),
        Place::FirstRow(Heading::Event),
    ))
}

fn read_modes_head(
    alloc: Global,
    place: Place,
    tokens: &[Token],
) -> Result<(Statement, Place), FormFault>
    ensures found { IfOk result
        (λ x. Form place (Word.Reserved Keyword.Modes ∷ words tokens.now) x.0 x.1) }
    ensures refused { result ≡ Err FormFault.Refused
        → NoForm place (Word.Reserved Keyword.Modes ∷ words tokens.now) }
{
    if !is_between(place) {
        return Err(FormFault::Refused);
    }
    match lone_name(tokens) {
        Some(name) => Ok((
            Statement::Head(Heading::Modes, name.copy(alloc)?, None),
            Place::Transitions,
        )),
        None => Err(FormFault::Refused),
    }
}

fn row_heading(place: Place) -> Option<Heading>
    ensures { MatchOption result ((heading : Heading) → expects_row heading place → ⊥)
        (λ heading. expects_row heading place) }
{
    match place {
        Place::FirstRow(heading) => Some(heading),
        Place::Rows(heading) => Some(heading),
        _ => None,
    }
}

fn read_row(alloc: Global, place: Place, tokens: &[Token]) -> Result<(Statement, Place), FormFault>
    ensures found { IfOk result
        (λ x. Form place (Word.Reserved Keyword.Row ∷ words tokens.now) x.0 x.1) }
    ensures refused { result ≡ Err FormFault.Refused
        → NoForm place (Word.Reserved Keyword.Row ∷ words tokens.now) }
{
    let Some(heading) = row_heading(place) else {
        return Err(FormFault::Refused);
    };
    let (modes, cells) = row_rest(alloc, heading, tokens)?;
    Ok((Statement::Row(modes, cells), Place::Rows(heading)))
}

fn read_values(
    alloc: Global,
    place: Place,
    tokens: &[Token],
) -> Result<(Statement, Place), FormFault>
    ensures found { IfOk result
        (λ x. Form place (Word.Reserved Keyword.Values ∷ words tokens.now) x.0 x.1) }
    ensures refused { result ≡ Err FormFault.Refused
        → NoForm place (Word.Reserved Keyword.Values ∷ words tokens.now) }
{
    match place {
        Place::Rows(_) => Ok((Statement::Values(read_sides(alloc, tokens)?), Place::Closed)),
        _ => Err(FormFault::Refused),
    }
}

fn read_from(alloc: Global, place: Place, tokens: &[Token]) -> Result<(Statement, Place), FormFault>
    ensures found { IfOk result
        (λ x. Form place (Word.Reserved Keyword.From ∷ words tokens.now) x.0 x.1) }
    ensures refused { result ≡ Err FormFault.Refused
        → NoForm place (Word.Reserved Keyword.From ∷ words tokens.now) }
{
    match place {
        Place::Transitions => {
            let (source, target, prims) = from_rest(alloc, tokens)?;
            Ok((
                Statement::Transition(source, target, DraftEvent { prims }),
                place,
            ))
        }
        _ => Err(FormFault::Refused),
    }
}

fn may_end(place: Place) -> bool
    ensures { result ≡ spec.may_end place }
{
    matches!(place, Place::Transitions | Place::Closed)
}

fn read_end(place: Place, tokens: &[Token]) -> Result<(Statement, Place), FormFault>
    ensures found { IfOk result
        (λ x. Form place (Word.Reserved Keyword.End ∷ words tokens.now) x.0 x.1) }
    ensures refused { result ≡ Err FormFault.Refused
        → NoForm place (Word.Reserved Keyword.End ∷ words tokens.now) }
{
    if may_end(place) && is_end(tokens) {
        Ok((Statement::End, Place::Tables))
    } else {
        Err(FormFault::Refused)
    }
}

fn read_finish(place: Place, tokens: &[Token]) -> Result<(Statement, Place), FormFault>
    ensures found { IfOk result
        (λ x. Form place (Word.Reserved Keyword.Finish ∷ words tokens.now) x.0 x.1) }
    ensures refused { result ≡ Err FormFault.Refused
        → NoForm place (Word.Reserved Keyword.Finish ∷ words tokens.now) }
{
    if is_between(place) && is_end(tokens) {
        Ok((Statement::Finish, Place::After))
    } else {
        Err(FormFault::Refused)
    }
}

/// The statement of a line that stands here, and the place behind it.
pub(crate) fn read_form(
    alloc: Global,
    place: Place,
    tokens: &[Token],
) -> Result<(Statement, Place), FormFault>
    ensures found { IfOk result (λ x. Form place (words tokens.now) x.0 x.1) }
    ensures refused { result ≡ Err FormFault.Refused → NoForm place (words tokens.now) }
{
    let Some((keyword, rest)) = take_keyword(tokens) else {
        return Err(FormFault::Refused);
    };
    match keyword {
        Keyword::Specification => read_specification(alloc, place, rest),
        Keyword::TypeWord => read_type(alloc, place, rest),
        Keyword::Const => read_const(alloc, place, rest),
        Keyword::Monitored => read_monitored(alloc, place, rest),
        Keyword::ModeClass => read_class(alloc, place, rest),
        Keyword::Term => read_term(alloc, place, rest),
        Keyword::Controlled => read_controlled(alloc, place, rest),
        Keyword::Nat => read_nat(alloc, place, rest),
        Keyword::Condition => read_condition_head(alloc, place, rest),
        Keyword::Event => read_event_head(alloc, place, rest),
        Keyword::Modes => read_modes_head(alloc, place, rest),
        Keyword::Row => read_row(alloc, place, rest),
        Keyword::Values => read_values(alloc, place, rest),
        Keyword::From => read_from(alloc, place, rest),
        Keyword::End => read_end(place, rest),
        Keyword::Finish => read_finish(place, rest),
        _ => Err(FormFault::Refused),
    }
}
