//! Writes statements.

ghost use Rattle.std.specs.Prelude.{◌≡◌, suc, map, OnOk, IfOk};
ghost use Rattle.c_print.specs.Appended as spec;
ghost use Rattle.c_print.specs.Printed as printed;
ghost use Rattle.c_subset.specs.declared.stmt.CStmt.TheVariants as st;

use crate::expr::{OR, push_expr};
use crate::ink::{
    push_between, push_constant, push_end, push_feed, push_indent, push_keyword, push_name,
    push_sign, push_space,
};
use base::{Name, NoMemory};
use c_reader::{Keyword, Sign};
use c_subset::{CClause, CExpr, CStmt};

/// Behind one more open brace. No memory holds the spaces where that many cannot be counted.
fn deeper(depth: usize) -> Result<usize, NoMemory>
    ensures { IfOk result (λ d. d ≡ suc depth) }
{
    match depth.checked_add(1) {
        Some(inner) => Ok(inner),
        None => Err(NoMemory),
    }
}

/// Writes an expression in parentheses.
fn push_test(out: &mut Vec<u8>, expression: &CExpr) -> Result<(), NoMemory>
    ensures { OnOk result (spec.Appends (spec.test_marks expression.now) out.old.items out.new.items) }
{
    push_sign(out, Sign::OpenParen)?;
    push_expr(out, expression, OR)?;
    push_sign(out, Sign::CloseParen)
}

fn push_assign(out: &mut Vec<u8>, name: &Name, value: &CExpr, depth: usize) -> Result<(), NoMemory>
    ensures { OnOk result (spec.Appends (printed.stmt_marks (st.Assign name.now value.now) depth) out.old.items out.new.items) }
{
    push_indent(out, depth)?;
    push_name(out, name)?;
    push_between(out, Sign::Assign)?;
    push_expr(out, value, OR)?;
    push_end(out)
}

fn push_argument(out: &mut Vec<u8>, argument: &Option<CExpr>) -> Result<(), NoMemory>
    ensures { OnOk result (spec.Appends (printed.argument_marks argument.now) out.old.items out.new.items) }
{
    match argument {
        Some(expression) => push_expr(out, expression, OR),
        None => Ok(()),
    }
}

fn push_call(
    out: &mut Vec<u8>,
    name: &Name,
    argument: &Option<CExpr>,
    depth: usize,
) -> Result<(), NoMemory>
    ensures { OnOk result (spec.Appends (printed.stmt_marks (st.Call name.now argument.now) depth) out.old.items out.new.items) }
{
    push_indent(out, depth)?;
    push_name(out, name)?;
    push_sign(out, Sign::OpenParen)?;
    push_argument(out, argument)?;
    push_sign(out, Sign::CloseParen)?;
    push_end(out)
}

/// Writes the `break` of a clause that stops.
fn push_stop(out: &mut Vec<u8>, stops: bool, depth: usize) -> Result<(), NoMemory>
    ensures { OnOk result (spec.Appends (printed.stop_marks stops depth) out.old.items out.new.items) }
{
    if stops {
        push_indent(out, depth)?;
        push_keyword(out, Keyword::Break)?;
        push_end(out)
    } else {
        Ok(())
    }
}

/// Writes the line of a label.
fn push_label(out: &mut Vec<u8>, label: i64, depth: usize) -> Result<(), NoMemory>
    ensures { OnOk result (spec.Appends (spec.label_marks label depth) out.old.items out.new.items) }
{
    push_indent(out, depth)?;
    push_keyword(out, Keyword::Case)?;
    push_space(out)?;
    push_constant(out, label)?;
    push_sign(out, Sign::Colon)?;
    push_feed(out)
}

/// Writes what stands before a block.
fn push_head(
    out: &mut Vec<u8>,
    keyword: Keyword,
    expression: &CExpr,
    depth: usize,
) -> Result<(), NoMemory>
    ensures { OnOk result (spec.Appends (spec.head_marks keyword expression.now depth) out.old.items out.new.items) }
{
    push_indent(out, depth)?;
    push_keyword(out, keyword)?;
    push_space(out)?;
    push_test(out, expression)?;
    push_space(out)
}

/// Writes the brace that opens, and ends its line.
fn push_open(out: &mut Vec<u8>) -> Result<(), NoMemory>
    ensures { OnOk result (spec.Appends spec.open_marks out.old.items out.new.items) }
{
    push_sign(out, Sign::OpenBrace)?;
    push_feed(out)
}

/// Writes the brace that closes.
fn push_close(out: &mut Vec<u8>, depth: usize) -> Result<(), NoMemory>
    ensures { OnOk result (spec.Appends (spec.close_marks depth) out.old.items out.new.items) }
{
    push_indent(out, depth)?;
    push_sign(out, Sign::CloseBrace)
}

/// Writes `else`, with a space on either side.
fn push_else_word(out: &mut Vec<u8>) -> Result<(), NoMemory>
    ensures { OnOk result (spec.Appends spec.else_word_marks out.old.items out.new.items) }
{
    push_space(out)?;
    push_keyword(out, Keyword::Else)?;
    push_space(out)
}

/// Writes a statement behind so many open braces.
#[cycle(statements)]
fn push_stmt(out: &mut Vec<u8>, statement: &CStmt, depth: usize) -> Result<(), NoMemory>
    ensures { OnOk result (spec.Appends (printed.stmt_marks statement.now depth) out.old.items out.new.items) }
{
    match statement {
        CStmt::Assign(name, value) => push_assign(out, name, value, depth),
        CStmt::Call(name, argument) => push_call(out, name, argument, depth),
        CStmt::If(test, block, other) => {
            push_head(out, Keyword::If, test, depth)?;
            push_block(out, block.as_slice(), depth)?;
            push_else(out, other.as_slice(), depth)?;
            push_feed(out)
        }
        CStmt::Switch(value, clauses) => {
            push_head(out, Keyword::Switch, value, depth)?;
            push_clauses(out, clauses.as_slice(), depth)?;
            push_feed(out)
        }
    }
}

/// Writes statements below each other.
#[cycle(statements)]
fn push_row(out: &mut Vec<u8>, stmts: &[CStmt], depth: usize) -> Result<(), NoMemory>
    ensures { OnOk result (spec.Appends (printed.in_row (map printed.stmt_marks stmts.now) depth) out.old.items out.new.items) }
{
    for stmt in stmts {
        push_stmt(out, stmt, depth)?;
    }
    Ok(())
}

/// Writes statements in braces.
#[cycle(statements)]
pub(crate) fn push_block(out: &mut Vec<u8>, stmts: &[CStmt], depth: usize) -> Result<(), NoMemory>
    ensures { OnOk result (spec.Appends (printed.block_marks (map printed.stmt_marks stmts.now) depth) out.old.items out.new.items) }
{
    push_open(out)?;
    push_row(out, stmts, deeper(depth)?)?;
    push_close(out, depth)
}

/// Writes the second block of an `if`, if anything stands in it.
#[cycle(statements)]
fn push_else(out: &mut Vec<u8>, stmts: &[CStmt], depth: usize) -> Result<(), NoMemory>
    ensures { OnOk result (spec.Appends (printed.else_marks (map printed.stmt_marks stmts.now) depth) out.old.items out.new.items) }
{
    if stmts.is_empty() {
        return Ok(());
    }
    push_else_word(out)?;
    push_block(out, stmts, depth)
}

/// Writes the clauses of a `switch` in braces.
#[cycle(statements)]
fn push_clauses(out: &mut Vec<u8>, clauses: &[CClause], depth: usize) -> Result<(), NoMemory>
    ensures { OnOk result (spec.Appends (printed.block_marks (map spec.clause_text clauses.now) depth) out.old.items out.new.items) }
{
    push_open(out)?;
    push_clause_row(out, clauses, deeper(depth)?)?;
    push_close(out, depth)
}

/// Writes clauses below each other.
#[cycle(statements)]
fn push_clause_row(out: &mut Vec<u8>, clauses: &[CClause], depth: usize) -> Result<(), NoMemory>
    ensures { OnOk result (spec.Appends (printed.in_row (map spec.clause_text clauses.now) depth) out.old.items out.new.items) }
{
    for clause in clauses {
        push_clause(out, clause, depth)?;
    }
    Ok(())
}

/// Writes a clause.
#[cycle(statements)]
fn push_clause(out: &mut Vec<u8>, clause: &CClause, depth: usize) -> Result<(), NoMemory>
    ensures { OnOk result (spec.Appends (spec.clause_text clause.now depth) out.old.items out.new.items) }
{
    push_label(out, clause.label, depth)?;
    push_row(out, clause.body.as_slice(), depth)?;
    push_stop(out, clause.stops, depth)
}
