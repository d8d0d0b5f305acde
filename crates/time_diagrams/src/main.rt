//! Large examples of decision diagrams, one a run, to be timed from outside.
#![tactic(auto)]

use dd_store::StoreFault;
use std::env;
use std::process::ExitCode;
use test_diagrams::{atom_again, conjunction_again, disjunction_of_booleans, sum_below};

// How many nodes there are after the example that a word names, if one has that name.
fn nodes_after(rt: &HostRuntime, word: &str) -> Result<Option<u32>, StoreFault> {
    let alloc = rt.alloc();
    let nodes = match word {
        "conjunction" => conjunction_again(alloc, 999_999)?.last,
        "atom" => atom_again(alloc, 999)?.last,
        "booleans" => disjunction_of_booleans(alloc)?.1,
        "sum" => sum_below(alloc)?,
        _ => return Ok(None),
    };
    Ok(Some(nodes))
}

// Writes how many nodes there are, or what the words may be.
fn report(rt: &HostRuntime) -> anyhow::Result<()> {
    let words = env::args(rt)?.collect::<Vec<String>>(rt.alloc())?;
    let word = words.as_slice().get(1).map_or("", |word| word.as_str());
    match nodes_after(rt, word)? {
        Some(nodes) => println!(rt; "{word}: {nodes} nodes")?,
        None => println!(rt; "usage: time_diagrams conjunction|atom|booleans|sum")?,
    }
    Ok(())
}

fn main(rt: HostRuntime) -> ExitCode {
    match report(&rt) {
        Ok(()) => ExitCode::SUCCESS,
        Err(_) => ExitCode::FAILURE,
    }
}
