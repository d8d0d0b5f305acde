//! What `emit` answers for a file.
ghost use Rattle.std.specs.Prelude.{◌≤◌, IfOk};
ghost use Rattle.scr_spec.specs.Shown.{data_of};
ghost use Rattle.cmd_emit.specs.Emits.{IsUnitText};
ghost use Rattle.dd_store.specs.declared.store.TheConstants.{SPLIT_LIMIT};

use base::NoMemory;
use base_io::{Shelf, Sink};
use c_print::print_c;
use c_writer::unit_of;
use cmd_checked::{Checking, check_file, one_checked};
use cmd_work::{Command, Loaded, OneFile, Status, Stop, perform_one};
use run_step::initial;
use scr_depend::Checked;
use scr_parse::TEXT_LIMIT;
use std::alloc::Global;

/// The command `emit`, with the limit on the distinct splits of each table.
#[derive(Drop)]
pub struct Emit {
    pub limit: u32,
    pub ghost limited: { limit ≤ SPLIT_LIMIT },
}

/// The text of the unit of a specification that passed its checks.
fn unit_text(alloc: Global, checked: &Checked) -> Result<Vec<u8>, NoMemory>
    ensures { IfOk result (λ out. IsUnitText (data_of checked.now.spec) checked.now.order.list out.items) }
{
    let first = initial(alloc, checked)?;
    let unit = unit_of(alloc, checked, &first)?;
    print_c(alloc, &unit)
}

impl OneFile for Emit {
    ghost use Rattle.cmd_emit.specs.Emits.{Emits};
    ghost use Rattle.scr_parse.specs.declared.text.TheConstants.{TEXT_LIMIT};

    ghost answers = { λ job. Emits job.limit };

    ghost most_bytes = { λ _. TEXT_LIMIT };

    fn most_bytes(&self) -> usize {
        TEXT_LIMIT
    }

    fn answer(&self, alloc: Global, file: Loaded) -> Result<(Vec<u8>, Status), NoMemory> {
        match check_file(alloc, &file, self.limit)? {
            Checking::Passed(checked) => Ok((unit_text(alloc, &checked)?, Status::Done)),
            Checking::Finished(report, status) => Ok((report, status)),
        }
    }
}

impl Command for Emit {
    ghost use Rattle.cmd_emit.specs.Offered.{asked_of};

    ghost takes = { asked_of };

    fn perform<S: Shelf, K: Sink>(
        alloc: Global,
        words: &[String],
        shelf: &mut S,
        out: &mut K,
    ) -> Option<Result<Status, Stop>> {
        let asked = one_checked("emit", words)?;
        let command = Emit { limit: asked.limit };
        Some(perform_one(&command, alloc, asked.name, shelf, out))
    }

    fn is_right() {}
}
