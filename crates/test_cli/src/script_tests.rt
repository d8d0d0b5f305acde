//! Runs of `simulate`, and of `cover` and `assert` where the second file cannot be read, with the bytes and the status that are wanted.

use base_io::{MemoryFile, MemoryShelf, MemorySink};
use cli::{Status, run};
use std::alloc::Global;
use std::test::Fail;

const TEXT: &str =
    "SPECIFICATION Demo\nMONITORED a : BOOLEAN INIT FALSE\nMONITORED b : BOOLEAN INIT FALSE\nTERM t : BOOLEAN\nCONDITION t\nROW : a AND b | NOT (a AND b)\nVALUES TRUE | FALSE\nEND\nFINISH\n";

const SCRIPT: &str = "SET a TRUE\nSET b TRUE\n";

const ZERO: &str = "0 a=FALSE b=FALSE t=FALSE\n";

const ONE: &str = "0 a=FALSE b=FALSE t=FALSE\n1 a=TRUE b=FALSE t=FALSE\n";

const TWO: &str = "0 a=FALSE b=FALSE t=FALSE\n1 a=TRUE b=FALSE t=FALSE\n2 a=TRUE b=TRUE t=TRUE\n";

fn file(alloc: Global, name: &str, bytes: &str) -> Result<MemoryFile, Fail> {
    let name = name.to_string(alloc)?;
    let bytes = bytes.as_bytes().to_vec(alloc)?;
    Ok(MemoryFile { name, bytes })
}

// A run over the files `f` and `s`, in pieces of 11 bytes, of which the call of this number fails.
fn run_by(
    alloc: Global,
    command: &str,
    script_name: &str,
    text: &str,
    script: &str,
    call: u32,
) -> Result<(Status, Vec<u8>), Fail> {
    let mut words = Vec::new(alloc);
    for word in [command, "f", script_name] {
        words.push(word.to_string(alloc)?)?;
    }
    let mut files = vec![in alloc; file(alloc, "f", text)?]?;
    files.push(file(alloc, "s", script)?)?;
    let mut shelf = MemoryShelf::new(files, 11, vec![in alloc; call]?);
    let mut sink = MemorySink::new(alloc, 2000, 10, Vec::new(alloc)).map_err(|_| "no memory")?;
    let status = run(alloc, words.as_slice(), &mut shelf, &mut sink);
    Ok((status, sink.bytes().to_vec(alloc)?))
}

#[test]
fn answers_each_line_before_a_further_read(rt: HostRuntime) -> Result<(), Fail> {
    let alloc = rt.alloc();
    for call in 1..=23 {
        let (status, written) = run_by(alloc, "simulate", "s", TEXT, SCRIPT, call)?;
        let wanted = match call {
            1..=18 => "",
            19 | 20 => ZERO,
            21 => ONE,
            _ => TWO,
        };
        assert_eq!(rt; written.as_slice(), wanted.as_bytes(), "call {call}");
        let ending = if call < 23 {
            Status::ReadFault
        } else {
            Status::Done
        };
        assert_eq!(rt; status, ending, "call {call}");
    }
    Ok(())
}

#[test]
fn writes_the_first_state_before_it_looks_for_the_script(rt: HostRuntime) -> Result<(), Fail> {
    let alloc = rt.alloc();
    let (status, written) = run_by(alloc, "simulate", "missing", TEXT, SCRIPT, 0)?;
    assert_eq!(rt; status, Status::ReadFault);
    assert_eq!(rt; written.as_slice(), ZERO.as_bytes());
    let (status, written) = run_by(alloc, "simulate", "missing", "", SCRIPT, 0)?;
    assert_eq!(rt; status, Status::SpecRefused);
    assert_eq!(rt; written.as_slice(), b"line 1: end\n".as_slice());
    Ok(())
}

#[test]
fn writes_nothing_before_the_second_file_is_read(rt: HostRuntime) -> Result<(), Fail> {
    let alloc = rt.alloc();
    for (command, second, call) in [
        ("cover", "missing", 0),
        ("cover", "s", 22),
        ("assert", "missing", 0),
        ("assert", "s", 22),
    ] {
        let (status, written) = run_by(alloc, command, second, TEXT, SCRIPT, call)?;
        assert_eq!(rt; status, Status::ReadFault, "{command} {second}");
        assert_eq!(rt; written.len(), 0, "{command} {second}");
    }
    Ok(())
}
