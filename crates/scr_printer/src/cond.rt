//! Conditions.
ghost use Rattle.std.specs.Prelude.{◌≡◌, ◌++◌, map, MatchResult, OnOk};
ghost use Rattle.scr_spec.specs.Shown.{data_of};
ghost use Rattle.scr_spec.specs.Data.{Data};
ghost use Rattle.scr_tokens.specs.declared.word.Word.TheVariants as w;
ghost use Rattle.scr_printer.specs.Pages.{written};
ghost use Rattle.scr_printer.specs.Text.{cond_text};
ghost use Rattle.scr_printer.specs.Conds as text;

use crate::page::Line;
use crate::side::{put_side, put_truth};
use base::NoMemory;
use scr_spec::{Cond, Spec, variable_name};
use scr_tokens::{Keyword, Sign, sign_of_relation};

/// What stands at the top of a condition, which decides where it has parentheses round it.
#[derive(Clone, Copy, PartialEq, Eq)]
pub enum Top {
    /// TRUE, FALSE, a name, or NOT.
    Single,
    Comparison,
    Conjunction,
    Disjunction,
}

impl Top {
    ghost use Rattle.scr_printer.specs.Conds as text;

    /// Whether parentheses stand round it inside an And.
    fn is_apart_in_and(self) -> bool
        ensures { result ≡ text.is_apart_in_and self }
    {
        match self {
            Top::Single | Top::Comparison => false,
            Top::Conjunction | Top::Disjunction => true,
        }
    }

    /// Whether parentheses stand round it inside an Or, and after `WHEN`.
    pub(crate) fn is_apart_in_or(self) -> bool
        ensures { result ≡ text.is_apart_in_or self }
    {
        match self {
            Top::Single | Top::Comparison | Top::Conjunction => false,
            Top::Disjunction => true,
        }
    }

    /// Whether parentheses stand round it after `NOT`.
    fn is_apart_in_not(self) -> bool
        ensures { result ≡ text.is_apart_in_not self }
    {
        match self {
            Top::Single => false,
            Top::Comparison | Top::Conjunction | Top::Disjunction => true,
        }
    }
}

/// What stands at the top of the condition.
#[tactic(auto, using(crate::proofs::Phrases::phrase_laws, scr_spec::specs::declared::cond::Cond::TheViews::the_lemmas))]
pub(crate) fn top_of(cond: &Cond) -> Top
    ensures { (spec : Data) → result ≡ (text.phrase_of spec cond.now).top }
{
    match cond {
        Cond::Truth(_) | Cond::Holds(_) | Cond::Not(_) => Top::Single,
        Cond::Compare(_, _, _) => Top::Comparison,
        Cond::And(_) => Top::Conjunction,
        Cond::Or(_) => Top::Disjunction,
    }
}

/// Writes a reserved word before each part but the first.
pub(crate) fn put_between(line: &mut Line, is_first: bool, word: Keyword) -> Result<(), NoMemory>
    ensures { OnOk result (line.new ≡ written line.old (text.between is_first (w.Reserved word))) }
{
    if !is_first {
        line.put_keyword(word)?;
    }
    Ok(())
}

/// Writes a condition.
#[cycle(conds)]
#[tactic(auto, using(crate::proofs::Written::written_laws, crate::proofs::Phrases::phrase_laws, scr_spec::specs::declared::cond::Cond::TheViews::the_lemmas))]
pub(crate) fn put_cond(line: &mut Line, spec: &Spec, cond: &Cond) -> Result<(), NoMemory>
    ensures { OnOk result (line.new ≡ written line.old (text.cond_words (data_of spec.now) cond.now)) }
{
    match cond {
        Cond::Truth(truth) => put_truth(line, *truth),
        Cond::Holds(v) => line.put_name(variable_name(spec, *v)),
        Cond::Compare(left, relation, right) => {
            put_side(line, spec, left)?;
            line.put_sign(sign_of_relation(*relation))?;
            put_side(line, spec, right)
        }
        Cond::Not(cond) => {
            line.put_keyword(Keyword::Not)?;
            put_part(line, spec, top_of(cond.get()).is_apart_in_not(), cond.get())
        }
        Cond::And(conds) => put_conjunction(line, spec, conds.as_slice()),
        Cond::Or(conds) => put_disjunction(line, spec, conds.as_slice()),
    }
}

/// Writes a condition, in parentheses where it is apart.
#[cycle(conds)]
#[tactic(auto, using(crate::proofs::Written::written_laws))]
pub(crate) fn put_part(
    line: &mut Line,
    spec: &Spec,
    is_apart: bool,
    cond: &Cond,
) -> Result<(), NoMemory>
    ensures { OnOk result (line.new ≡ written line.old (text.in_parens is_apart (text.cond_words (data_of spec.now) cond.now))) }
{
    if is_apart {
        line.put_sign(Sign::OpenParen)?;
        put_cond(line, spec, cond)?;
        line.put_sign(Sign::CloseParen)
    } else {
        put_cond(line, spec, cond)
    }
}

#[cycle(conds)]
fn put_conjunction(line: &mut Line, spec: &Spec, conds: &[Cond]) -> Result<(), NoMemory>
    ensures { OnOk result (line.new ≡ written line.old (text.joined (w.Reserved Keyword.And) (map (λ c. text.in_and (text.phrase_of (data_of spec.now) c)) conds.now))) }
{
    let mut is_first = true;
    for cond in conds {
        put_between(line, is_first, Keyword::And)?;
        put_part(line, spec, top_of(cond).is_apart_in_and(), cond)?;
        is_first = false;
    }
    Ok(())
}

#[cycle(conds)]
fn put_disjunction(line: &mut Line, spec: &Spec, conds: &[Cond]) -> Result<(), NoMemory>
    ensures { OnOk result (line.new ≡ written line.old (text.joined (w.Reserved Keyword.Or) (map (λ c. text.in_or (text.phrase_of (data_of spec.now) c)) conds.now))) }
{
    let mut is_first = true;
    for cond in conds {
        put_between(line, is_first, Keyword::Or)?;
        put_part(line, spec, top_of(cond).is_apart_in_or(), cond)?;
        is_first = false;
    }
    Ok(())
}

/// Appends the text of a condition, as it stands in the canonical text. After a fault `out` is
/// unchanged.
#[tactic(auto, using(crate::proofs::Written::blank_text))]
pub fn push_cond(out: &mut Vec<u8>, spec: &Spec, cond: &Cond) -> Result<(), NoMemory>
    ensures { MatchResult result (λ _. out.new.items ≡ out.old.items ++ cond_text (data_of spec.now) cond.now)
        (λ _. out.new.items ≡ out.old.items) }
{
    let mut line = Line::new(*out.allocator());
    put_cond(&mut line, spec, cond)?;
    out.extend_from_slice(line.as_slice())?;
    Ok(())
}
