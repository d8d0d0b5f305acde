//! The second program: the words of the command line, real files and standard output.
#![tactic(auto)]

use base_io::{FileShelf, OutSink};
use base_words::words_of;
use cli_scrx::{Status, run};
use std::process::ExitCode;

fn main(rt: HostRuntime) -> ExitCode {
    let status = match words_of(&rt) {
        Ok(words) => run(
            rt.alloc(),
            words.as_slice(),
            &mut FileShelf::new(&rt),
            &mut OutSink::new(&rt),
        ),
        Err(_) => Status::NoMemory,
    };
    ExitCode::from(status.number())
}
