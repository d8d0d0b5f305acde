//! The command `cover`: at how many inputs of a script each cell held.
ghost use Rattle.std.specs.Prelude.{◌≤◌, true};
ghost use Rattle.dd_store.specs.declared.store.TheConstants.{SPLIT_LIMIT};

use crate::covering::Covering;
use base::NoMemory;
use base_io::{Shelf, Sink};
use cmd_checked::{check_file, two_checked};
use cmd_work::{Command, First, Loaded, Status, Stop, TwoFiles, gather_lines, perform_two, put};
use scr_depend::Checked;
use scr_parse::TEXT_LIMIT;
use std::alloc::Global;

/// The command `cover`, with the limit on the distinct splits of each table.
#[derive(Drop)]
pub struct Cover {
    pub limit: u32,
    pub ghost limited: { limit ≤ SPLIT_LIMIT },
}

impl TwoFiles for Cover {
    ghost use Rattle.scr_spec.specs.Shown.{data_of};
    ghost use Rattle.scr_parse.specs.declared.text.TheConstants.{TEXT_LIMIT};
    ghost use Rattle.cmd_checked.specs.Checking.{ReachesScript};
    ghost use Rattle.cmd_cover.specs.Covers.{CoversFile, CoverAnswers};

    type Base = Checked;

    ghost answers = { λ command. CoverAnswers command.limit };

    ghost reaches = { λ command. ReachesScript command.limit };

    ghost goes = { λ _ checked. CoversFile (data_of checked.spec) };

    ghost most_bytes = { λ _. TEXT_LIMIT };

    ghost reads_first = { true };

    fn most_bytes(&self) -> usize {
        TEXT_LIMIT
    }

    fn first(&self, alloc: Global, file: Loaded) -> Result<First<Checked>, NoMemory> {
        Ok(check_file(alloc, &file, self.limit)?.into())
    }

    fn go_on<S: Shelf, K: Sink>(
        &self,
        alloc: Global,
        base: &Checked,
        name: &str,
        shelf: &mut S,
        out: &mut K,
    ) -> Result<Status, Stop> {
        let mut covering = Covering::new(alloc, base)?;
        let (text, status) = gather_lines(&mut covering, alloc, name, shelf)?;
        put(out, text.as_slice())?;
        Ok(status)
    }
}

impl Command for Cover {
    ghost use Rattle.cmd_cover.specs.Offered.{asked_of};

    ghost takes = { asked_of };

    fn perform<S: Shelf, K: Sink>(
        alloc: Global,
        words: &[String],
        shelf: &mut S,
        out: &mut K,
    ) -> Option<Result<Status, Stop>> {
        let asked = two_checked("cover", words)?;
        let command = Cover { limit: asked.limit };
        Some(perform_two(&command, alloc, asked.name, asked.second, shelf, out))
    }

    fn is_right() {}
}
