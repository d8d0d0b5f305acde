//! The limits of a line, of a statement and of the lines so far.

ghost use Rattle.std.specs.Prelude.{◌≡◌, ◌≤◌, true};
ghost use Rattle.std.specs.List.{list_all};
ghost use Rattle.scr_parse.specs.Words.{words};
ghost use Rattle.scr_parse.specs.Limits as spec;

use crate::{
    Counts, DraftCell, DraftChange, DraftCond, DraftItem, DraftOperand, DraftPrim, DraftSide,
    Statement,
};
use scr_spec::{
    CELL_LIMIT, CONSTANT_LIMIT, FACTOR_LIMIT, ITEM_LIMIT, LABEL_LIMIT, NESTING_LIMIT, NOT_LIMIT,
    RANGE_LIMIT, ROW_LIMIT, TYPE_LIMIT, VARIABLE_LIMIT,
};
use scr_tokens::{Keyword, Sign, Token, Word};

fn depth_after(depth: u32, word: &Word) -> u32
    requires { depth ≤ NESTING_LIMIT }
    ensures { result ≡ spec.depth_after depth word.now }
{
    match word {
        Word::Sign(Sign::OpenParen) => depth + 1,
        Word::Sign(Sign::CloseParen) => depth.saturating_sub(1),
        _ => depth,
    }
}

fn is_nested_within(tokens: &[Token]) -> bool
    ensures { result ≡ spec.is_nested_within 0 (words tokens.now) }
{
    let mut depth = 0;
    for token in tokens {
        depth = depth_after(depth, &token.word);
        if depth > NESTING_LIMIT {
            return false;
        }
    }
    true
}

fn nots_after(nots: u32, word: &Word) -> u32
    requires { nots ≤ NOT_LIMIT }
    ensures { result ≡ spec.nots_after nots word.now }
{
    match word {
        Word::Reserved(Keyword::Not) => nots + 1,
        Word::Sign(Sign::Bar) => 0,
        _ => nots,
    }
}

fn is_negated_within(tokens: &[Token]) -> bool
    ensures { result ≡ spec.is_negated_within 0 (words tokens.now) }
{
    let mut nots = 0;
    for token in tokens {
        nots = nots_after(nots, &token.word);
        if nots > NOT_LIMIT {
            return false;
        }
    }
    true
}

fn is_bar(word: &Word) -> bool
    ensures { result ≡ spec.is_bar word.now }
{
    matches!(word, Word::Sign(Sign::Bar))
}

/// Whether a line opens no more parentheses at each place, and has no more `NOT` in each part and no
/// more bars, than may be.
pub(crate) fn is_line_within(tokens: &[Token]) -> bool
    ensures { result ≡ spec.is_line_within (words tokens.now) }
{
    is_nested_within(tokens)
        && is_negated_within(tokens)
        && tokens.iter().filter(|token| is_bar(&token.word)).count() <= CELL_LIMIT - 1
}

fn is_item_within(item: &DraftItem) -> bool
    ensures { result ≡ spec.is_item_within item.now }
{
    match item.operand {
        DraftOperand::One => true,
        _ => item.factor.unsigned_abs() <= FACTOR_LIMIT,
    }
}

fn are_items_within(items: &[DraftItem]) -> bool
    ensures { result ≡ list_all spec.is_item_within items.now }
{
    items.iter().all(is_item_within)
}

fn is_side_within(side: &DraftSide) -> bool
    ensures { result ≡ spec.is_side_within side.now }
{
    side.items.len() <= ITEM_LIMIT && are_items_within(side.items.as_slice())
}

fn are_sides_within(sides: &[DraftSide]) -> bool
    ensures { result ≡ list_all spec.is_side_within sides.now }
{
    sides.iter().all(is_side_within)
}

/// Whether each side of a condition is within its limits.
#[cycle(within)]
#[tactic(auto, using(crate::proofs::LimitLaws::cond_laws, crate::specs::declared::draft::DraftCond::TheViews::the_lemmas))]
pub(crate) fn is_cond_within(cond: &DraftCond) -> bool
    ensures { result ≡ spec.is_cond_within cond.now }
{
    match cond {
        DraftCond::Alone(side) => is_side_within(side),
        DraftCond::Compare(left, _, right) => is_side_within(left) && is_side_within(right),
        DraftCond::Not(cond) => is_cond_within(cond.get()),
        DraftCond::And(conds) => are_conds_within(conds.as_slice()),
        DraftCond::Or(conds) => are_conds_within(conds.as_slice()),
    }
}

#[cycle(within)]
fn are_conds_within(conds: &[DraftCond]) -> bool
    ensures { result ≡ list_all spec.is_cond_within conds.now }
{
    for cond in conds {
        if !is_cond_within(cond) {
            return false;
        }
    }
    true
}

fn is_change_within(change: &DraftChange) -> bool
    ensures { result ≡ spec.is_change_within change.now }
{
    match change {
        DraftChange::Becomes(cond) => is_cond_within(cond),
        DraftChange::Ceases(cond) => is_cond_within(cond),
        DraftChange::Changes(_) => true,
        DraftChange::Never => true,
    }
}

fn is_prim_within(prim: &DraftPrim) -> bool
    ensures { result ≡ spec.is_prim_within prim.now }
{
    if !is_change_within(&prim.change) {
        return false;
    }
    match &prim.guard {
        Some(guard) => is_cond_within(guard),
        None => true,
    }
}

fn are_prims_within(prims: &[DraftPrim]) -> bool
    ensures { result ≡ list_all spec.is_prim_within prims.now }
{
    prims.iter().all(is_prim_within)
}

fn is_cell_within(cell: &DraftCell) -> bool
    ensures { result ≡ spec.is_cell_within cell.now }
{
    match cell {
        DraftCell::Cond(cond) => is_cond_within(cond),
        DraftCell::Event(event) => are_prims_within(event.prims.as_slice()),
    }
}

fn are_cells_within(cells: &[DraftCell]) -> bool
    ensures { result ≡ list_all spec.is_cell_within cells.now }
{
    cells.iter().all(is_cell_within)
}

fn is_range_within(low: i64, high: i64) -> bool
    ensures { result ≡ spec.is_range_within low high }
{
    high.saturating_sub(low) <= RANGE_LIMIT as i64 - 1
}

/// Whether a statement keeps the limits on its lists of names, its range and its sides.
pub(crate) fn is_statement_within(statement: &Statement) -> bool
    ensures { result ≡ spec.is_statement_within statement.now }
{
    match statement {
        Statement::Range(_, low, high) => is_range_within(*low, *high),
        Statement::Labels(_, names) => names.len() <= LABEL_LIMIT,
        Statement::Class(_, modes, _) => modes.len() <= LABEL_LIMIT,
        Statement::Row(modes, cells) => {
            modes.len() <= LABEL_LIMIT && are_cells_within(cells.as_slice())
        }
        Statement::Values(sides) => are_sides_within(sides.as_slice()),
        Statement::Transition(_, _, event) => are_prims_within(event.prims.as_slice()),
        _ => true,
    }
}

/// The counts before the first line.
pub(crate) fn no_counts() -> Counts
    ensures { result ≡ spec.no_counts }
{
    Counts {
        types: 0,
        constants: 0,
        variables: 0,
        rows: 0,
    }
}

/// The counts with this statement.
pub(crate) fn counted(counts: Counts, statement: &Statement) -> Counts
    requires { spec.is_count_within counts ≡ true }
    ensures { result ≡ spec.counted counts statement.now }
{
    match statement {
        Statement::Range(_, _, _) | Statement::Labels(_, _) => Counts {
            types: counts.types + 1,
            ..counts
        },
        Statement::Constant(_, _) => Counts {
            constants: counts.constants + 1,
            ..counts
        },
        Statement::Variable(_, _, _, _) | Statement::Class(_, _, _) => Counts {
            variables: counts.variables + 1,
            ..counts
        },
        Statement::Head(_, _, _) => Counts { rows: 0, ..counts },
        Statement::Row(_, _) | Statement::Transition(_, _, _) => Counts {
            rows: counts.rows + 1,
            ..counts
        },
        _ => counts,
    }
}

/// Whether no more `TYPE` lines, `CONST` lines, variables, and `ROW` or `FROM` lines of a table came
/// so far than may.
pub(crate) fn is_count_within(counts: Counts) -> bool
    ensures { result ≡ spec.is_count_within counts }
{
    counts.types as usize <= TYPE_LIMIT
        && counts.constants as usize <= CONSTANT_LIMIT
        && counts.variables as usize <= VARIABLE_LIMIT
        && counts.rows as usize <= ROW_LIMIT
}
