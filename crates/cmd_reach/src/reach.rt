//! The command `reach`: the least script that breaks each assertion of a second file.
ghost use Rattle.std.specs.Prelude.{◌≤◌, ◌<◌, true};
ghost use Rattle.dd_store.specs.declared.store.TheConstants.{SPLIT_LIMIT};
ghost use Rattle.run_reach.specs.declared.search.TheConstants.{STATE_LIMIT};

use crate::reading::unread_line;
use crate::searching::reach_text;
use crate::words::search_words;
use base::NoMemory;
use base_io::{Shelf, Sink};
use cmd_checked::check_file;
use cmd_work::{Command, First, Loaded, OneFile, Status, Stop, TwoFiles, perform_two, respond_one};
use dd_store::SPLIT_LIMIT;
use scr_depend::Checked;
use scr_parse::{TEXT_LIMIT, TextKind};
use std::alloc::Global;

/// The command `reach`, with the limit on the distinct splits of each table, and with the most states that
/// one search stores.
#[derive(Drop)]
pub struct Reach {
    pub limit: u32,
    pub most: usize,
    pub ghost limited: { limit ≤ SPLIT_LIMIT },
    pub ghost some: { 0 < most },
    pub ghost bounded: { most ≤ STATE_LIMIT },
}

/// The second file of the command, which holds assertions on a specification that passed its checks.
#[derive(Drop)]
pub(crate) struct Asserted<'a> {
    pub most: usize,
    pub checked: &'a Checked,
    pub ghost some: { 0 < most },
}

impl<'a> OneFile for Asserted<'a> {
    ghost use Rattle.scr_spec.specs.Shown.{data_of};
    ghost use Rattle.scr_parse.specs.declared.text.TheConstants.{TEXT_LIMIT};
    ghost use Rattle.cmd_reach.specs.Reaches.{ReachesFile};

    ghost answers = { λ job. ReachesFile job.most (data_of job.checked.now.spec) };

    ghost most_bytes = { λ _. TEXT_LIMIT };

    fn most_bytes(&self) -> usize {
        TEXT_LIMIT
    }

    fn answer(&self, alloc: Global, file: Loaded) -> Result<(Vec<u8>, Status), NoMemory> {
        match file {
            Loaded::Whole(text) => reach_text(alloc, self.checked, text.as_slice(), self.most),
            Loaded::TooLong => {
                let line = unread_line(alloc, 0, TextKind::Limit)?;
                Ok((line, Status::AssertRefused))
            }
        }
    }
}

impl TwoFiles for Reach {
    ghost use Rattle.scr_spec.specs.Shown.{data_of};
    ghost use Rattle.scr_parse.specs.declared.text.TheConstants.{TEXT_LIMIT};
    ghost use Rattle.cmd_checked.specs.Checking.{ReachesScript};
    ghost use Rattle.cmd_reach.specs.Reaches.{ReachesFile, ReachAnswers};

    type Base = Checked;

    ghost answers = { λ command. ReachAnswers command.limit command.most };

    ghost reaches = { λ command. ReachesScript command.limit };

    ghost goes = { λ command checked. ReachesFile command.most (data_of checked.spec) };

    ghost most_bytes = { λ _. TEXT_LIMIT };

    ghost reads_first = { true };

    fn most_bytes(&self) -> usize {
        TEXT_LIMIT
    }

    fn first(&self, alloc: Global, file: Loaded) -> Result<First<Checked>, NoMemory> {
        Ok(check_file(alloc, &file, self.limit)?.into())
    }

    fn go_on<S: Shelf, K: Sink>(
        &self,
        alloc: Global,
        base: &Checked,
        name: &str,
        shelf: &mut S,
        out: &mut K,
    ) -> Result<Status, Stop> {
        let job = Asserted {
            most: self.most,
            checked: base,
        };
        respond_one(&job, alloc, name, shelf, out)
    }
}

impl Command for Reach {
    ghost use Rattle.cmd_reach.specs.Offered.{asked_of};

    ghost takes = { asked_of };

    fn perform<S: Shelf, K: Sink>(
        alloc: Global,
        words: &[String],
        shelf: &mut S,
        out: &mut K,
    ) -> Option<Result<Status, Stop>> {
        let asked = search_words(words)?;
        let command = Reach {
            limit: SPLIT_LIMIT,
            most: asked.most,
        };
        Some(perform_two(&command, alloc, asked.name, asked.second, shelf, out))
    }

    fn is_right() {}
}
