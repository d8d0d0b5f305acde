//! The words of the command line.
use base::NoMemory;
use std::env;
use std::io::ErrorKind;

/// The words behind the program's name. Where one is not text, there are none.
pub fn words_of(rt: &HostRuntime) -> Result<Vec<String>, NoMemory> {
    match env::args(rt) {
        Ok(all) => Ok(all.skip(1).collect(rt.alloc())?),
        Err(e) => match e.kind() {
            ErrorKind::OutOfMemory => Err(NoMemory),
            _ => Ok(Vec::new(rt.alloc())),
        },
    }
}
