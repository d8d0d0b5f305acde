//! What checking a text gives.
ghost use Rattle.std.specs.Prelude.{◌≡◌, ◌≤◌, List, ℕ, Some, IfOk, false};
ghost use Rattle.std.specs.List.{list_all};
ghost use Rattle.scr_spec.specs.Shown.{data_of};
ghost use Rattle.scr_parse.specs.declared.text.TheConstants.{TEXT_LIMIT};
ghost use Rattle.scr_depend.specs.Results.{HasCycle};
ghost use Rattle.scr_depend.specs.Dependencies.{graph_of};
ghost use Rattle.prove_tables.specs.Outcomes.{is_yes, IsFoundOut};
ghost use Rattle.cmd_work.specs.Load.{IsLoaded};
ghost use Rattle.cmd_checked.specs.Reports.{passed_text};
ghost use Rattle.cmd_checked.specs.Spelling.{IsSpelling};
ghost use Rattle.cmd_checked.specs.Checking.{IsChecking, IsSpecChecking, IsFinal};
ghost use Rattle.dd_store.specs.declared.store.TheConstants.{SPLIT_LIMIT};

use crate::spelling::{Spelling, spell_file, spell_text};
use crate::verdicts::{push_lines, push_yes_lines, verdicts_status};
use base::NoMemory;
use cmd_report::{push_cycle, push_order};
use cmd_work::{First, Loaded, Status};
use prove_tables::{Outcome, Verdict, check};
use scr_depend::{Checked, Order};
use scr_spec::Spec;
use std::alloc::Global;

/// What checking a text gives.
#[derive(Drop)]
pub enum Checking {
    /// Each table has the verdict yes.
    Passed(Checked),
    /// The whole report, and how the command ends with it, which is not `Done`.
    Finished(Vec<u8>, Status),
}

/// As the first of two files: the report ends the command, and a specification that passed answers the second one.
impl From<Checking> for First<Checked> {
    ghost use Rattle.cmd_checked.specs.Checking.{first_of};

    ghost from_gives = { λ checking first. first ≡ first_of checking };

    fn from(checking: Checking) -> Self {
        match checking {
            Checking::Passed(checked) => First::Base(checked),
            Checking::Finished(report, status) => First::Answer(report, status),
        }
    }
}

/// The cycle.
fn circular(alloc: Global, spec: &Spec, cycle: &[usize]) -> Result<Checking, NoMemory>
    requires { HasCycle (graph_of (data_of spec.now)) cycle.now }
    ensures exact { IfOk result (λ c. (limit : ℕ) → IsSpecChecking limit (data_of spec.now) c) }
    ensures ending { IfOk result IsFinal }
{
    let mut out = Vec::new(alloc);
    push_cycle(&mut out, spec, cycle)?;
    Ok(Checking::Finished(out, Status::Findings))
}

/// The order, and the verdict on each table.
fn found(
    alloc: Global,
    spec: &Spec,
    order: &Order,
    verdicts: &[Verdict],
) -> Result<Checking, NoMemory>
    requires { list_all is_yes verdicts.now ≡ false }
    ensures exact { IfOk result (λ c. (limit : ℕ) → IsFoundOut (data_of spec.now) limit order.now verdicts.now
        → IsSpecChecking limit (data_of spec.now) c) }
    ensures ending { IfOk result IsFinal }
{
    let mut out = Vec::new(alloc);
    push_order(&mut out, spec, order)?;
    push_lines(&mut out, spec, verdicts)?;
    Ok(Checking::Finished(out, verdicts_status(verdicts)))
}

/// Checks a specification.
fn check_spec(alloc: Global, spec: Spec, limit: u32) -> Result<Checking, NoMemory>
    requires { limit ≤ SPLIT_LIMIT }
    ensures exact { IfOk result (IsSpecChecking limit (data_of spec)) }
    ensures ending { IfOk result IsFinal }
{
    match check(alloc, spec, limit)? {
        Outcome::Passed(checked) => Ok(Checking::Passed(checked)),
        Outcome::Circular(spec, cycle) => circular(alloc, &spec, cycle.as_slice()),
        Outcome::Found(spec, order, verdicts) => found(alloc, &spec, &order, verdicts.as_slice()),
    }
}

/// Checks what a text spells.
fn check_spelling(alloc: Global, spelling: Spelling, limit: u32) -> Result<Checking, NoMemory>
    requires { limit ≤ SPLIT_LIMIT }
    ensures exact { (text : List ℕ) → IsSpelling text spelling → IfOk result (IsChecking limit text) }
    ensures ending { IfOk result IsFinal }
{
    match spelling {
        Spelling::Right(spec) => check_spec(alloc, spec, limit),
        Spelling::Refused(line) => Ok(Checking::Finished(line, Status::SpecRefused)),
    }
}

/// Checks a text, with the limit on the distinct splits of each table.
pub fn check_text(alloc: Global, text: &[u8], limit: u32) -> Result<Checking, NoMemory>
    requires { limit ≤ SPLIT_LIMIT }
    ensures exact { IfOk result (IsChecking limit text.now) }
    ensures ending { IfOk result IsFinal }
{
    let spelling = spell_text(alloc, text)?;
    check_spelling(alloc, spelling, limit)
}

/// Checks the text of a file that was read with the limit of texts. One above it is refused.
pub fn check_file(alloc: Global, file: &Loaded, limit: u32) -> Result<Checking, NoMemory>
    requires { limit ≤ SPLIT_LIMIT }
    ensures exact { IfOk result (λ c. (text : List ℕ) → IsLoaded TEXT_LIMIT (Some text) file.now → IsChecking limit text c) }
    ensures ending { IfOk result IsFinal }
{
    let spelling = spell_file(alloc, file)?;
    check_spelling(alloc, spelling, limit)
}

/// The report on a specification that passed: its order, and a yes on each table.
pub fn passed_report(alloc: Global, checked: &Checked) -> Result<Vec<u8>, NoMemory>
    ensures { IfOk result (λ out. out.items ≡ passed_text (data_of checked.now.spec) checked.now.order.list) }
{
    let spec = checked.spec();
    let mut out = Vec::new(alloc);
    push_order(&mut out, spec, checked.order())?;
    push_yes_lines(&mut out, spec)?;
    Ok(out)
}
