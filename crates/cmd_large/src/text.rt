//! The lines of a summary.
ghost use Rattle.std.specs.Prelude.{◌≡◌, count_by, IfOk, string_bytes};
ghost use Rattle.scr_spec.specs.Shown.{data_of};
ghost use Rattle.prove_tables.specs.Outcomes.{is_yes};
ghost use Rattle.cmd_checked.specs.Reports.{is_no, is_undecided, all_yes};
ghost use Rattle.cmd_large.specs.Texts as text;

use base::NoMemory;
use cmd_checked::{is_no, is_undecided};
use prove_tables::{Verdict, is_yes};
use scr_spec::Spec;
use std::alloc::Global;

/// How many tables there are, and how many of them have each verdict.
#[derive(Clone, Copy, Debug, PartialEq, Eq)]
pub(crate) struct Counts {
    pub tables: usize,
    pub yes: usize,
    pub no: usize,
    pub undecided: usize,
}

fn number_of_yes(verdicts: &[Verdict]) -> usize
    ensures { result ≡ count_by is_yes verdicts.now }
{
    verdicts.iter().filter(|verdict| is_yes(*verdict)).count()
}

fn number_of_no(verdicts: &[Verdict]) -> usize
    ensures { result ≡ count_by is_no verdicts.now }
{
    verdicts.iter().filter(|verdict| is_no(*verdict)).count()
}

fn number_of_undecided(verdicts: &[Verdict]) -> usize
    ensures { result ≡ count_by is_undecided verdicts.now }
{
    verdicts
        .iter()
        .filter(|verdict| is_undecided(*verdict))
        .count()
}

/// The numbers of these verdicts, one for each table.
pub(crate) fn counts_of(verdicts: &[Verdict]) -> Counts
    ensures { result ≡ text.counts_of verdicts.now }
{
    Counts {
        tables: verdicts.len(),
        yes: number_of_yes(verdicts),
        no: number_of_no(verdicts),
        undecided: number_of_undecided(verdicts),
    }
}

/// The numbers where each table has the verdict yes.
#[tactic(auto, using(crate::proofs::Counting::yes_laws))]
pub(crate) fn all_yes(spec: &Spec) -> Counts
    ensures { result ≡ text.counts_of (all_yes (data_of spec.now)) }
{
    let tables = spec.tables.len();
    Counts {
        tables,
        yes: tables,
        no: 0,
        undecided: 0,
    }
}

/// A word and a number.
#[tactic(auto, unfolding(crate::specs::Texts::number_line))]
pub(crate) fn number_line(alloc: Global, word: &str, number: u64) -> Result<String, NoMemory>
    ensures { IfOk result (λ line. string_bytes line ≡ text.number_line word.now number) }
{
    Ok(format!(in alloc; "{word} {number}\n")?)
}

#[tactic(auto, unfolding(crate::specs::Texts::counts_line))]
fn counts_line(alloc: Global, counts: &Counts) -> Result<String, NoMemory>
    ensures { IfOk result (λ line. string_bytes line ≡ text.counts_line counts.now) }
{
    let tables = counts.tables;
    let yes = counts.yes;
    let no = counts.no;
    let undecided = counts.undecided;
    Ok(format!(in alloc; "tables {tables}: yes {yes}, no {no}, undecided {undecided}\n")?)
}

/// The lines on what was checked.
pub(crate) fn checked_text(alloc: Global, stages: u32, counts: &Counts) -> Result<Vec<u8>, NoMemory>
    ensures { IfOk result (λ out. out.items ≡ text.checked_text stages counts.now) }
{
    let mut out = number_line(alloc, "stages", u64::from(stages))?.into_bytes();
    out.extend_from_slice(counts_line(alloc, counts)?.as_bytes())?;
    Ok(out)
}
