//! A shelf in memory, which fails where it is told to.
ghost use Rattle.std.specs.Prelude.{◌≡◌, ◌<◌, ◌≤◌, ◌↔◌, ◌⊎◌, [], min, length, take, drop, IsErr, IsOk, IsNone, IfNone, IfSome, IfOk, OnOk, OnErr, Contains};
ghost use Rattle.std.specs.Io.{ReadsAtMost};
ghost use Rattle.std.specs.Io.KnownBytes.{ReadConsumes};
ghost use Rattle.base_io.specs.Outside.{HasRisen, Begins, Holds, next_count};
ghost use Rattle.base_io.specs.Memory.{ShelfState, held, IsPast};
ghost use Rattle.base_io.specs.Files.{files_of, bytes_at};

use crate::fault_plan::FaultPlan;
use crate::{Failed, Shelf};
use std::marker::Model;

/// A file of a `MemoryShelf`.
#[derive(Drop)]
pub struct MemoryFile {
    pub name: String,
    pub bytes: Vec<u8>,
}

/// Files in memory.
/// Calls of `begin` and `read` are numbered together from 1, and those with the numbers in `failing` fail.
#[derive(Drop)]
pub struct MemoryShelf {
    files: Vec<MemoryFile>,
    // The place of the file that was begun.
    begun: Option<usize>,
    // How many of its bytes were read.
    taken: usize,
    chunk: usize,
    plan: FaultPlan,
}

impl Model for MemoryShelf {
    ghost use Rattle.std.specs.Prelude.{◌<◌, drop};
    ghost use Rattle.base_io.specs.Memory.{ShelfState};
    ghost use Rattle.base_io.specs.Files.{files_of, bytes_at};

    ghost Value = { ShelfState };

    ghost view = { λ a. record {
      files = files_of a.files.items;
      left = drop a.taken (bytes_at a.files.items a.begun);
      chunk = a.chunk;
      failing = a.plan.failing.items;
      calls = a.plan.calls;
      faults = a.plan.faults;
    } };

    ghost invariant = { λ a. 0 < a.chunk };
}

// What is left of the file at a place, behind the bytes that were taken.
fn left_at(files: &[MemoryFile], begun: Option<usize>, taken: usize) -> &[u8]
    ensures { result.now ≡ drop taken (bytes_at files.now begun) }
{
    let Some(place) = begun else {
        return &[];
    };
    match files.get(place) {
        Some(file) => file.bytes.get(taken..).unwrap_or(&[]),
        None => &[],
    }
}

// Copies the first bytes of what is left, at most `chunk` and as many as there is room for.
fn give(left: &[u8], chunk: usize, buf: &mut [u8]) -> usize
    ensures count { result ≡ min (min chunk (length buf.old)) (length left.now) }
    ensures copied { take result buf.new ≡ take result left.now }
{
    let n = chunk.min(buf.len()).min(left.len());
    buf[..n].copy_from_slice(&left[..n]);
    n
}

// The place of the file of this name.
fn index_of(files: &[MemoryFile], name: &str) -> Option<usize>
    ensures found { IfSome result (λ place.
        held (files_of files.now) name.now ≡ Some (bytes_at files.now (Some place))) }
    ensures absent { IfNone result (held (files_of files.now) name.now ≡ None) }
{
    for (i, file) in files.iter().enumerate() {
        if file.name.as_str() == name {
            return Some(i);
        }
    }
    None
}

impl MemoryShelf {
    /// A shelf with these files, of which none is begun. Of several with one name the first is meant. A read
    /// gives at most `chunk` bytes.
    /// At all times it tells its files, what is left of the one that was begun, and how often it failed.
    /// It is steady exactly where no number in `failing` is above the number of its calls so far.
    pub fn new(files: Vec<MemoryFile>, chunk: usize, failing: Vec<u32>) -> Self
        requires some { 0 < chunk }
        ensures state { result ≡ record {
          files = files_of files.items;
          left = [];
          chunk = chunk;
          failing = failing.items;
          calls = 0;
          faults = 0;
        } }
        ensures contents { (shelf : ShelfState) → ⟦<MemoryShelf as Shelf>⟧.contents shelf ≡ Some (held shelf.files) }
        ensures left { (shelf : ShelfState) → ⟦<MemoryShelf as Shelf>⟧.left shelf ≡ Some shelf.left }
        ensures faults { (shelf : ShelfState) → ⟦<MemoryShelf as Shelf>⟧.faults shelf ≡ shelf.faults }
        ensures steady { (shelf : ShelfState)
            → ⟦<MemoryShelf as Shelf>⟧.steady shelf ↔ IsPast shelf.calls shelf.failing }
    {
        MemoryShelf {
            files,
            begun: None,
            taken: 0,
            chunk,
            plan: FaultPlan::new(failing),
        }
    }
}

impl Shelf for MemoryShelf {
    ghost use Rattle.std.specs.Prelude.{Some};

    ghost contents = { λ s. Some (held s.files) };

    ghost left = { λ s. Some s.left };

    ghost faults = { λ s. s.faults };

    ghost steady = { λ s. IsPast s.calls s.failing };

    fn begin(&mut self, name: &str) -> Result<(), Failed>
        ensures fails { IsErr result
            ↔ (Contains self.old.failing (next_count self.old.calls) ⊎ IsNone (held self.old.files name.now)) }
        ensures ok { OnOk result (self.new ≡ record self.old {
          calls = next_count self.old.calls;
          left = self.new.left;
        }) }
        ensures err { OnErr result (self.new ≡ record self.old {
          calls = next_count self.old.calls;
          left = [];
          faults = next_count self.old.faults;
        }) }
        ensures begun { OnOk result (held self.old.files name.now ≡ Some self.new.left) }

        // What each shelf keeps.
        ensures cause { OnErr result (HasRisen self.old.faults self.new.faults) }
        ensures later { self.old.faults ≤ self.new.faults }
        ensures steady_on { IsPast self.old.calls self.old.failing → IsPast self.new.calls self.new.failing }
        ensures succeeds { IsPast self.old.calls self.old.failing
            → Holds (Some (held self.old.files)) name.now → IsOk result }
    {
        self.begun = None;
        self.taken = 0;
        self.plan.call()?;
        self.begun = index_of(&self.files, name);
        if self.begun.is_none() {
            return Err(self.plan.fail());
        }
        Ok(())
    }

    fn read(&mut self, buf: &mut [u8]) -> Result<usize, Failed>
        ensures fails { IsErr result ↔ Contains self.old.failing (next_count self.old.calls) }
        ensures count { IfOk result (λ n.
            n ≡ min (min self.old.chunk (length buf.old)) (length self.old.left)) }
        ensures bytes { ReadConsumes (Some self.old.left) (Some self.new.left) result buf.new }
        ensures ok { OnOk result (self.new ≡ record self.old {
          calls = next_count self.old.calls;
          left = self.new.left;
        }) }
        ensures err { OnErr result (self.new ≡ record self.old {
          calls = next_count self.old.calls;
          faults = next_count self.old.faults;
        }) }

        // What each shelf keeps.
        ensures bound { ReadsAtMost result buf.new }
        ensures cause { OnErr result (HasRisen self.old.faults self.new.faults) }
        ensures later { self.old.faults ≤ self.new.faults }
        ensures steady_on { IsPast self.old.calls self.old.failing → IsPast self.new.calls self.new.failing }
        ensures succeeds { IsPast self.old.calls self.old.failing → IsOk result }
    {
        self.plan.call()?;
        let n = give(
            left_at(&self.files, self.begun, self.taken),
            self.chunk,
            buf,
        );
        self.taken += n;
        Ok(n)
    }
}
