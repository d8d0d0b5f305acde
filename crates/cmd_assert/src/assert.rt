//! The command `assert`: a verdict on each assertion of a second file.
ghost use Rattle.std.specs.Prelude.{◌≤◌, true};
ghost use Rattle.dd_store.specs.declared.store.TheConstants.{SPLIT_LIMIT};

use crate::judging::assert_text;
use crate::reading::unread_line;
use base::NoMemory;
use base_io::{Shelf, Sink};
use cmd_checked::{check_file, two_checked};
use cmd_work::{Command, First, Loaded, OneFile, Status, Stop, TwoFiles, perform_two, respond_one};
use scr_depend::Checked;
use scr_parse::{TEXT_LIMIT, TextKind};
use std::alloc::Global;

/// The command `assert`, with the limit on the distinct splits of each table and of each test.
#[derive(Drop)]
pub struct Assert {
    pub limit: u32,
    pub ghost limited: { limit ≤ SPLIT_LIMIT },
}

/// The second file of the command, which holds assertions on a specification that passed its checks.
#[derive(Drop)]
pub(crate) struct Asserted<'a> {
    pub limit: u32,
    pub checked: &'a Checked,
    pub ghost limited: { limit ≤ SPLIT_LIMIT },
}

impl<'a> OneFile for Asserted<'a> {
    ghost use Rattle.scr_spec.specs.Shown.{data_of};
    ghost use Rattle.scr_parse.specs.declared.text.TheConstants.{TEXT_LIMIT};
    ghost use Rattle.cmd_assert.specs.Asserts.{AssertsFile};

    ghost answers = { λ job. AssertsFile job.limit (data_of job.checked.now.spec) };

    ghost most_bytes = { λ _. TEXT_LIMIT };

    fn most_bytes(&self) -> usize {
        TEXT_LIMIT
    }

    fn answer(&self, alloc: Global, file: Loaded) -> Result<(Vec<u8>, Status), NoMemory> {
        match file {
            Loaded::Whole(text) => assert_text(alloc, self.checked, text.as_slice(), self.limit),
            Loaded::TooLong => {
                let line = unread_line(alloc, 0, TextKind::Limit)?;
                Ok((line, Status::AssertRefused))
            }
        }
    }
}

impl TwoFiles for Assert {
    ghost use Rattle.scr_spec.specs.Shown.{data_of};
    ghost use Rattle.scr_parse.specs.declared.text.TheConstants.{TEXT_LIMIT};
    ghost use Rattle.cmd_checked.specs.Checking.{ReachesScript};
    ghost use Rattle.cmd_assert.specs.Asserts.{AssertsFile, AssertAnswers};

    type Base = Checked;

    ghost answers = { λ command. AssertAnswers command.limit };

    ghost reaches = { λ command. ReachesScript command.limit };

    ghost goes = { λ command checked. AssertsFile command.limit (data_of checked.spec) };

    ghost most_bytes = { λ _. TEXT_LIMIT };

    ghost reads_first = { true };

    fn most_bytes(&self) -> usize {
        TEXT_LIMIT
    }

    fn first(&self, alloc: Global, file: Loaded) -> Result<First<Checked>, NoMemory> {
        Ok(check_file(alloc, &file, self.limit)?.into())
    }

    fn go_on<S: Shelf, K: Sink>(
        &self,
        alloc: Global,
        base: &Checked,
        name: &str,
        shelf: &mut S,
        out: &mut K,
    ) -> Result<Status, Stop> {
        let job = Asserted {
            limit: self.limit,
            checked: base,
        };
        respond_one(&job, alloc, name, shelf, out)
    }
}

impl Command for Assert {
    ghost use Rattle.cmd_assert.specs.Offered.{asked_of};

    ghost takes = { asked_of };

    fn perform<S: Shelf, K: Sink>(
        alloc: Global,
        words: &[String],
        shelf: &mut S,
        out: &mut K,
    ) -> Option<Result<Status, Stop>> {
        let asked = two_checked("assert", words)?;
        let command = Assert { limit: asked.limit };
        Some(perform_two(&command, alloc, asked.name, asked.second, shelf, out))
    }

    fn is_right() {}
}
