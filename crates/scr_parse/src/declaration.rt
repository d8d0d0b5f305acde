//! What stands behind the first word of a declaration.

ghost use Rattle.std.specs.Prelude.{◌≡◌, ℕ, ℤ, List, [], ◌∷◌, Option, MatchOption, IfOk, Err};
ghost use Rattle.scr_tokens.specs.declared.word.Word.{Word};
ghost use Rattle.scr_parse.specs.declared.draft.DraftKind.{DraftKind};
ghost use Rattle.scr_parse.specs.declared.draft.DraftValue.{DraftValue};
ghost use Rattle.scr_parse.specs.declared.draft.Statement.{Statement};
ghost use Rattle.scr_parse.specs.Words.{words, IsNatural};
ghost use Rattle.scr_parse.specs.Names.{Braced, Int};
ghost use Rattle.scr_parse.specs.Forms.{Bounds, TypeRest, ConstRest, Initial, Typed, VariableRest, ClassRest};

use crate::fault::FormFault;
use crate::names::{read_int, read_kind, read_names, read_value};
use crate::step::{
    is_end, lone_name_behind, past_keyword, past_sign, take_name, take_name_before, take_number,
};
use crate::{DraftKind, DraftValue, Statement};
use base::Name;
use scr_tokens::{Keyword, Sign, Token};
use sqlite_items::Items;
use std::alloc::Global;

#[tactic(auto, using(crate::proofs::FormsOnce::int_once))]
fn read_last_int(tokens: &[Token]) -> Option<i64>
    ensures { MatchOption result ((v : ℤ) → Int (words tokens.now) v [] → ⊥)
        (λ v. Int (words tokens.now) v []) }
{
    let (value, rest) = read_int(tokens)?;
    if is_end(rest) { Some(value) } else { None }
}

#[tactic(auto, using(crate::proofs::FormsOnce::int_once))]
fn read_bounds(tokens: &[Token]) -> Option<(i64, i64)>
    ensures { MatchOption result ((lo hi : ℤ) → Bounds (words tokens.now) lo hi → ⊥)
        (λ x. Bounds (words tokens.now) x.0 x.1) }
{
    let (low, rest) = read_int(tokens)?;
    let rest = past_sign(rest, Sign::Dots)?;
    let high = read_last_int(rest)?;
    Some((low, high))
}

#[tactic(auto, using(crate::proofs::FormsOnce::names_once))]
fn read_braced(alloc: Global, tokens: &[Token]) -> Result<(Items<Name>, &[Token]), FormFault>
    ensures found { IfOk result (λ x. Braced (words tokens.now) x.0 (words x.1.now)) }
    ensures refused { result ≡ Err FormFault.Refused
        → (names : List (List ℕ)) (rest : List Word) → Braced (words tokens.now) names rest → ⊥ }
{
    let Some(rest) = past_sign(tokens, Sign::OpenBrace) else {
        return Err(FormFault::Refused);
    };
    let (names, rest) = read_names(alloc, rest)?;
    match past_sign(rest, Sign::CloseBrace) {
        Some(rest) => Ok((names, rest)),
        None => Err(FormFault::Refused),
    }
}

#[tactic(auto, using(crate::proofs::FormsOnce::braced_once))]
fn read_labels(alloc: Global, tokens: &[Token]) -> Result<Items<Name>, FormFault>
    ensures found { IfOk result (λ names. Braced (words tokens.now) names []) }
    ensures refused { result ≡ Err FormFault.Refused
        → (names : List (List ℕ)) → Braced (words tokens.now) names [] → ⊥ }
{
    let (names, rest) = read_braced(alloc, tokens)?;
    if is_end(rest) {
        Ok(names)
    } else {
        Err(FormFault::Refused)
    }
}

/// `n = int .. int` or `n = { n {, n} }`
pub(crate) fn type_rest(alloc: Global, tokens: &[Token]) -> Result<Statement, FormFault>
    ensures found { IfOk result (λ statement. TypeRest (words tokens.now) statement) }
    ensures refused { result ≡ Err FormFault.Refused
        → (statement : Statement) → TypeRest (words tokens.now) statement → ⊥ }
{
    let Some((name, rest)) = take_name_before(tokens, Sign::Equal) else {
        return Err(FormFault::Refused);
    };
    if let Some((low, high)) = read_bounds(rest) {
        return Ok(Statement::Range(name.copy(alloc)?, low, high));
    }
    let names = read_labels(alloc, rest)?;
    Ok(Statement::Labels(name.copy(alloc)?, names))
}

/// `n = int`
pub(crate) fn const_rest(tokens: &[Token]) -> Option<(&Name, i64)>
    ensures { MatchOption result ((name : List ℕ) (v : ℤ) → ConstRest (words tokens.now) name v → ⊥)
        (λ x. ConstRest (words tokens.now) x.0.now x.1) }
{
    let (name, rest) = take_name_before(tokens, Sign::Equal)?;
    let value = read_last_int(rest)?;
    Some((name, value))
}

#[tactic(auto, using(crate::proofs::FormsOnce::value_once))]
fn read_initial(alloc: Global, tokens: &[Token]) -> Result<DraftValue, FormFault>
    ensures found { IfOk result (λ init. Initial (words tokens.now) init) }
    ensures refused { result ≡ Err FormFault.Refused
        → (init : DraftValue) → Initial (words tokens.now) init → ⊥ }
{
    let Some(rest) = past_keyword(tokens, Keyword::Init) else {
        return Err(FormFault::Refused);
    };
    let (init, rest) = read_value(alloc, rest)?;
    if is_end(rest) {
        Ok(init)
    } else {
        Err(FormFault::Refused)
    }
}

#[tactic(auto, using(crate::proofs::FormsOnce::kind_once))]
fn read_typed(alloc: Global, tokens: &[Token]) -> Result<(DraftKind, Option<DraftValue>), FormFault>
    ensures found { IfOk result (λ x. Typed (words tokens.now) x.0 x.1) }
    ensures refused { result ≡ Err FormFault.Refused
        → (kind : DraftKind) (init : Option DraftValue) → Typed (words tokens.now) kind init → ⊥ }
{
    let (kind, rest) = read_kind(alloc, tokens)?;
    if is_end(rest) {
        return Ok((kind, None));
    }
    let init = read_initial(alloc, rest)?;
    Ok((kind, Some(init)))
}

/// `n : typ [INIT val]`
pub(crate) fn variable_rest(
    alloc: Global,
    tokens: &[Token],
) -> Result<(Name, DraftKind, Option<DraftValue>), FormFault>
    ensures found { IfOk result (λ x. VariableRest (words tokens.now) x.0 x.1 x.2) }
    ensures refused { result ≡ Err FormFault.Refused
        → (name : List ℕ) (kind : DraftKind) (init : Option DraftValue)
        → VariableRest (words tokens.now) name kind init → ⊥ }
{
    let Some((name, rest)) = take_name_before(tokens, Sign::Colon) else {
        return Err(FormFault::Refused);
    };
    let (kind, init) = read_typed(alloc, rest)?;
    Ok((name.copy(alloc)?, kind, init))
}

/// `n = { n {, n} } INIT n`
#[tactic(auto, using(crate::proofs::FormsOnce::braced_once))]
pub(crate) fn class_rest(
    alloc: Global,
    tokens: &[Token],
) -> Result<(Name, Items<Name>, Name), FormFault>
    ensures found { IfOk result (λ x. ClassRest (words tokens.now) x.0 x.1 x.2) }
    ensures refused { result ≡ Err FormFault.Refused
        → (name first : List ℕ) (modes : List (List ℕ))
        → ClassRest (words tokens.now) name modes first → ⊥ }
{
    let Some((name, rest)) = take_name_before(tokens, Sign::Equal) else {
        return Err(FormFault::Refused);
    };
    let (modes, rest) = read_braced(alloc, rest)?;
    let Some(first) = lone_name_behind(rest, Keyword::Init) else {
        return Err(FormFault::Refused);
    };
    Ok((name.copy(alloc)?, modes, first.copy(alloc)?))
}

/// `n STEP number`
pub(crate) fn nat_rest(tokens: &[Token]) -> Option<(&Name, i64)>
    ensures { MatchOption result
        ((name : List ℕ) (n : ℤ) → IsNatural n
        → words tokens.now ≡ Word.Name name ∷ Word.Reserved Keyword.Step ∷ Word.Number n ∷ [] → ⊥)
        (λ x. IsNatural x.1
        × (words tokens.now
        ≡ Word.Name x.0.now ∷ Word.Reserved Keyword.Step ∷ Word.Number x.1 ∷ [])) }
{
    let (name, rest) = take_name(tokens)?;
    let rest = past_keyword(rest, Keyword::Step)?;
    let (step, rest) = take_number(rest)?;
    if is_end(rest) {
        Some((name, step))
    } else {
        None
    }
}
