//! Runs of `check`, with the bytes and the status that are wanted.

use base_io::{MemoryFile, MemoryShelf, MemorySink};
use cli::{Status, run};
use std::alloc::Global;
use std::test::Fail;

const TEXT: &str =
    "SPECIFICATION Demo\nMONITORED a : BOOLEAN INIT FALSE\nMONITORED b : BOOLEAN INIT FALSE\nTERM t : BOOLEAN\nCONDITION t\nROW : a AND b | NOT (a AND b)\nVALUES TRUE | FALSE\nEND\nFINISH\n";

const COMMENT: &[u8] = b"# a comment of thirty-two bytes\n";

const REPORT: &[u8] = b"order: t\ntable t: yes\n";

const UNDECIDED: &[u8] = b"order: t\ntable t: undecided\n";

// None at all, and then a list on each line, of which one has an empty word.
const NO_FORM: &str =
    "\ncheck\ncheck f 0\ncheck f 40001\ncheck f 007\ncheck f +5\ncheck f 1x\ncheck f \ncheck f 5 5\nCHECK f\nsimulate f\nsimulate f s 0\ngenerate\ngenerate 41\ngenerate 00\ngenerate 0 0\nlarge +1\nlarge f\nassert f\nassert f p 0\nassert f p 5 5\ncover f\ncover f s 0\nreplay f\nslice\nslice f";

const USAGE: &[u8] =
    b"usage: scr check|simulate|invariants|emit|format|runc|generate|large|assert|slice|cover|replay ...\n";

const SUMMARY: &[u8] =
    b"stages 1\ntables 3: yes 3, no 0, undecided 0\ninvariants 2\ninputs 3\n3 Reset=TRUE Input=0 L0=FALSE Phase=Idle Out=FALSE\n";

// The calls of the shelf and of the sink that fail, 0 for none, and the room of the sink.
#[derive(Clone, Copy)]
struct Faults {
    reading: u32,
    writing: u32,
    room: usize,
}

const NO_FAULTS: Faults = Faults {
    reading: 0,
    writing: 0,
    room: 1000,
};

// The words of a line, which single spaces separate; an empty line has none.
fn words_of(alloc: Global, line: &str) -> Result<Vec<String>, Fail> {
    let mut words = Vec::new(alloc);
    if !line.is_empty() {
        for word in line.split(' ') {
            words.push(word.to_string(alloc)?)?;
        }
    }
    Ok(words)
}

// A run over one file, `f`, in pieces of 16 bytes, and into a sink in pieces of 10.
fn run_on(
    alloc: Global,
    words: &str,
    text: &[u8],
    faults: Faults,
) -> Result<(Status, Vec<u8>), Fail> {
    let words = words_of(alloc, words)?;
    let name = "f".to_string(alloc)?;
    let bytes = text.to_vec(alloc)?;
    let files = vec![in alloc; MemoryFile { name, bytes }]?;
    let mut shelf = MemoryShelf::new(files, 16, vec![in alloc; faults.reading]?);
    let mut sink = MemorySink::new(alloc, faults.room, 10, vec![in alloc; faults.writing]?).map_err(
        |_| "no memory",
    )?;
    let status = run(alloc, words.as_slice(), &mut shelf, &mut sink);
    Ok((status, sink.bytes().to_vec(alloc)?))
}

fn check(alloc: Global, text: &[u8]) -> Result<(Status, Vec<u8>), Fail> {
    run_on(alloc, "check f", text, NO_FAULTS)
}

// The text with lines of comments behind it, of this length.
fn text_of_length(alloc: Global, length: usize) -> Result<Vec<u8>, Fail> {
    let mut bytes = TEXT.as_bytes().to_vec(alloc)?;
    for _ in 0..length.saturating_sub(bytes.len()) / 32 {
        bytes.extend_from_slice(COMMENT)?;
    }
    bytes.resize(length, b'#')?;
    Ok(bytes)
}

#[test]
fn reads_other_ends_of_lines(rt: HostRuntime) -> Result<(), Fail> {
    let alloc = rt.alloc();
    let returned = TEXT.replace(alloc, "\n", "\r\n")?;
    for bytes in [returned.as_bytes(), TEXT.trim_end().as_bytes()] {
        let (status, written) = check(alloc, bytes)?;
        assert_eq!(rt; written.as_slice(), REPORT);
        assert_eq!(rt; status, Status::Done);
    }
    Ok(())
}

#[test]
fn refuses_bytes_that_are_no_text(rt: HostRuntime) -> Result<(), Fail> {
    let (status, written) = check(rt.alloc(), b"\x00\xff\xfe")?;
    assert_eq!(rt; written.as_slice(), b"line 1: byte\n".as_slice());
    assert_eq!(rt; status, Status::SpecRefused);
    Ok(())
}

#[test]
fn keeps_the_limit_of_a_text(rt: HostRuntime) -> Result<(), Fail> {
    let alloc = rt.alloc();
    let (status, written) = check(alloc, text_of_length(alloc, 1_048_576)?.as_slice())?;
    assert_eq!(rt; written.as_slice(), REPORT);
    assert_eq!(rt; status, Status::Done);
    let (status, written) = check(alloc, text_of_length(alloc, 1_048_577)?.as_slice())?;
    assert_eq!(rt; written.as_slice(), b"line 0: limit\n".as_slice());
    assert_eq!(rt; status, Status::SpecRefused);
    Ok(())
}

// The file takes a `begin`, eleven reads of bytes and one of none.
#[test]
fn ends_where_the_shelf_fails(rt: HostRuntime) -> Result<(), Fail> {
    let alloc = rt.alloc();
    for reading in 1..=14 {
        let faults = Faults {
            reading,
            ..NO_FAULTS
        };
        let (status, written) = run_on(alloc, "check f", TEXT.as_bytes(), faults)?;
        if reading < 14 {
            assert_eq!(rt; status, Status::ReadFault, "call {reading}");
            assert_eq!(rt; written.len(), 0, "call {reading}");
        } else {
            assert_eq!(rt; status, Status::Done);
            assert_eq!(rt; written.as_slice(), REPORT);
        }
    }
    Ok(())
}

#[test]
fn ends_where_the_sink_fails(rt: HostRuntime) -> Result<(), Fail> {
    let alloc = rt.alloc();
    for writing in 1..=3 {
        let faults = Faults {
            writing,
            ..NO_FAULTS
        };
        let (status, written) = run_on(alloc, "check f", TEXT.as_bytes(), faults)?;
        assert_eq!(rt; status, Status::WriteFault, "call {writing}");
        assert_eq!(rt;
            written.len(),
            10 * (writing as usize - 1),
            "call {writing}"
        );
        assert!(rt; REPORT.starts_with(written.as_slice()), "call {writing}");
    }
    Ok(())
}

#[test]
fn ends_where_the_sink_is_full(rt: HostRuntime) -> Result<(), Fail> {
    let alloc = rt.alloc();
    for room in 0..=22 {
        let faults = Faults { room, ..NO_FAULTS };
        let (status, written) = run_on(alloc, "check f", TEXT.as_bytes(), faults)?;
        let wanted = if room < 22 {
            Status::WriteFault
        } else {
            Status::Done
        };
        assert_eq!(rt; status, wanted, "room {room}");
        assert_eq!(rt; written.len(), room, "room {room}");
        assert!(rt; REPORT.starts_with(written.as_slice()), "room {room}");
    }
    Ok(())
}

#[test]
fn answers_its_words(rt: HostRuntime) -> Result<(), Fail> {
    let alloc = rt.alloc();
    for (words, wanted, status) in [
        ("check f 5", REPORT, Status::Done),
        ("check f 40000", REPORT, Status::Done),
        ("check f 4", UNDECIDED, Status::Undecided),
        ("check g", b"", Status::ReadFault),
        ("large 0", SUMMARY, Status::Done),
    ] {
        let (ended, written) = run_on(alloc, words, TEXT.as_bytes(), NO_FAULTS)?;
        assert_eq!(rt; written.as_slice(), wanted, "{words}");
        assert_eq!(rt; ended, status, "{words}");
    }
    Ok(())
}

#[test]
fn refuses_words_of_no_form(rt: HostRuntime) -> Result<(), Fail> {
    for words in NO_FORM.split('\n') {
        let (status, written) = run_on(rt.alloc(), words, TEXT.as_bytes(), NO_FAULTS)?;
        assert_eq!(rt; written.as_slice(), USAGE, "{words}");
        assert_eq!(rt; status, Status::Usage, "{words}");
    }
    Ok(())
}

// The lines that may stand in the answer to the front of a chain: its last line has no form, or the text ends behind it.
fn refusals(alloc: Global, front: &[u8]) -> Result<[String; 2], Fail> {
    let ends = front.iter().filter(|byte| **byte == b'\n').count();
    let last = if front.is_empty() || front.ends_with(b"\n") {
        ends
    } else {
        ends + 1
    };
    let behind = last + 1;
    Ok([
        format!(in alloc; "line {last}: syntax\n")?,
        format!(in alloc; "line {behind}: end\n")?,
    ])
}

#[test]
fn refuses_each_front_of_a_chain(rt: HostRuntime) -> Result<(), Fail> {
    let alloc = rt.alloc();
    let faults = Faults {
        room: 10_000,
        ..NO_FAULTS
    };
    let (status, text) = run_on(alloc, "generate 40", b"", faults)?;
    assert_eq!(rt; status, Status::Done);
    assert!(rt; text.as_slice().ends_with(b"\nFINISH\n"));
    for len in 0..text.len() - 1 {
        let front = &text[..len];
        let (status, written) = check(alloc, front)?;
        let [syntax, end] = refusals(alloc, front)?;
        assert_eq!(rt; status, Status::SpecRefused, "{len} bytes");
        assert!(rt;
            written.as_slice() == syntax.as_bytes() || written.as_slice() == end.as_bytes(),
            "{len} bytes"
        );
    }
    Ok(())
}
