//! What `slice` answers for a file.
ghost use Rattle.std.specs.Prelude.{◌≤◌, IfOk, IsTrue, map, string_bytes, nat_lt, length};
ghost use Rattle.dd_store.specs.declared.store.TheConstants.{SPLIT_LIMIT};
ghost use Rattle.scr_spec.specs.Shown.{data_of};
ghost use Rattle.cmd_work.specs.Ends.{is_own};
ghost use Rattle.scr_slice.specs.Slices.{HoldsEach};
ghost use Rattle.cmd_slice.specs.Slicing.{IsSliceText, SlicesSpec};

use crate::names::{Selection, select};
use crate::words::slice_words;
use base::NoMemory;
use base_io::{Shelf, Sink};
use cmd_checked::{Checking, check_file};
use cmd_work::{Command, Loaded, OneFile, Status, Stop, perform_one};
use scr_depend::Checked;
use scr_parse::TEXT_LIMIT;
use scr_roundtrip::canonical_text;
use scr_slice::{kept, slice};
use std::alloc::Global;

/// The command `slice`.
pub struct Slice;

/// What is asked of it: the words that name variables, and the limit on the distinct splits of each table.
#[derive(Drop)]
pub(crate) struct Slicing<'a> {
    pub limit: u32,
    pub names: &'a [String],
    pub ghost limited: { limit ≤ SPLIT_LIMIT },
}

/// The text of the slice of these variables.
fn text_of(alloc: Global, checked: &Checked, numbers: &[usize]) -> Result<Vec<u8>, NoMemory>
    requires { HoldsEach numbers.now (λ v. nat_lt v (length checked.now.spec.variables)) }
    ensures { IfOk result (λ text. IsSliceText (data_of checked.now.spec) numbers.now text.items) }
{
    let keep = kept(alloc, checked.spec(), numbers)?;
    let part = slice(alloc, checked, keep.as_slice())?;
    canonical_text(alloc, &part)
}

/// What is written for a specification that passed its checks.
fn answer_for(
    alloc: Global,
    checked: &Checked,
    words: &[String],
) -> Result<(Vec<u8>, Status), NoMemory>
    ensures exact { IfOk result (λ r. SlicesSpec (map string_bytes words.now) (data_of checked.now.spec) r.0.items r.1) }
    ensures own { IfOk result (λ r. IsTrue (is_own r.1)) }
{
    match select(alloc, checked.spec(), words)? {
        Selection::Variables(numbers) => Ok((
            text_of(alloc, checked, numbers.as_slice())?,
            Status::Done,
        )),
        Selection::Refused(line) => Ok((line, Status::NameRefused)),
    }
}

impl<'a> OneFile for Slicing<'a> {
    ghost use Rattle.std.specs.Prelude.{map, string_bytes};
    ghost use Rattle.scr_parse.specs.declared.text.TheConstants.{TEXT_LIMIT};
    ghost use Rattle.cmd_slice.specs.Slicing.{SlicesFile};

    ghost answers = { λ job. SlicesFile (map string_bytes job.names.now) job.limit };

    ghost most_bytes = { λ _. TEXT_LIMIT };

    fn most_bytes(&self) -> usize {
        TEXT_LIMIT
    }

    fn answer(&self, alloc: Global, file: Loaded) -> Result<(Vec<u8>, Status), NoMemory> {
        match check_file(alloc, &file, self.limit)? {
            Checking::Passed(checked) => answer_for(alloc, &checked, self.names),
            Checking::Finished(report, status) => Ok((report, status)),
        }
    }
}

impl Command for Slice {
    ghost use Rattle.cmd_slice.specs.Offered.{asked_of};

    ghost takes = { asked_of };

    fn perform<S: Shelf, K: Sink>(
        alloc: Global,
        words: &[String],
        shelf: &mut S,
        out: &mut K,
    ) -> Option<Result<Status, Stop>> {
        let asked = slice_words(words)?;
        Some(perform_one(&asked.slice, alloc, asked.name, shelf, out))
    }

    fn is_right() {}
}
