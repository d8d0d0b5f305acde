//! Real files and standard output. They tell neither what they hold nor what they took.
ghost use Rattle.std.specs.Prelude.{◌≡◌, ℕ, OnOk, OnErr, IfOk, length, ◌<◌, ◌≤◌};
ghost use Rattle.std.specs.Io.{ReadsAtMost};
ghost use Rattle.base_io.specs.Outside.{HasRisen, next_count};

use crate::{Failed, Shelf, Sink};
use std::fs;
use std::io::Read;
use std::marker::Model;
use std::rt::Files;

/// Real files. Each refusal of the runtime is a failure, want of memory inside it included.
/// Contracts see the count of its failures.
#[derive(Drop)]
pub struct FileShelf<'r, R: Files> {
    rt: &'r R,
    file: Option<R::File>,
    faults: u64,
}

impl<'r, R: Files> Model for FileShelf<'r, R> {
    ghost use Rattle.std.specs.Prelude.{ℕ};

    ghost Value = { ℕ };

    ghost view = { λ a. a.faults };
}

impl<'r, R: Files> FileShelf<'r, R> {
    /// A shelf of which no file is begun. However often it failed, it tells nothing and is never called steady.
    pub fn new(rt: &'r R) -> Self
        ensures state { result ≡ 0 }
        ensures faults { (faults : ℕ) → ⟦<FileShelf<'r, R> as Shelf>⟧.faults faults ≡ faults }
        ensures contents { (faults : ℕ) → ⟦<FileShelf<'r, R> as Shelf>⟧.contents faults ≡ None }
        ensures left { (faults : ℕ) → ⟦<FileShelf<'r, R> as Shelf>⟧.left faults ≡ None }
        ensures unsteady { (faults : ℕ) → ¬ ⟦<FileShelf<'r, R> as Shelf>⟧.steady faults }
    {
        FileShelf {
            rt,
            file: None,
            faults: 0,
        }
    }
}

impl<R: Files> Shelf for FileShelf<'_, R> {
    ghost use Rattle.std.specs.Prelude.{None};

    ghost contents = { λ _. None };

    ghost left = { λ _. None };

    ghost faults = { λ s. s };

    ghost steady = { λ _. ⊥ };

    fn begin(&mut self, name: &str) -> Result<(), Failed>
        ensures ok { OnOk result (self.new ≡ self.old) }
        ensures err { OnErr result (self.new ≡ next_count self.old) }
        ensures cause { OnErr result (HasRisen self.old self.new) }
        ensures later { self.old ≤ self.new }
    {
        match fs::open(self.rt, name) {
            Ok(file) => {
                self.file = Some(file);
                Ok(())
            }
            Err(_) => {
                self.file = None;
                self.faults = self.faults.saturating_add(1);
                Err(Failed)
            }
        }
    }

    fn read(&mut self, buf: &mut [u8]) -> Result<usize, Failed>
        ensures ok { OnOk result (self.new ≡ self.old) }
        ensures err { OnErr result (self.new ≡ next_count self.old) }
        ensures cause { OnErr result (HasRisen self.old self.new) }
        ensures later { self.old ≤ self.new }
        ensures bound { ReadsAtMost result buf.new }
    {
        let Some(file) = &mut self.file else {
            return Ok(0);
        };
        match file.read(buf) {
            Ok(n) => Ok(n),
            Err(_) => {
                self.faults = self.faults.saturating_add(1);
                Err(Failed)
            }
        }
    }
}

/// Standard output. Each refusal of the runtime is a failure, and so is a write that took nothing.
/// Contracts see the count of its failures.
#[derive(Drop)]
pub struct OutSink<'r, R: Print> {
    rt: &'r R,
    faults: u64,
}

impl<'r, R: Print> Model for OutSink<'r, R> {
    ghost use Rattle.std.specs.Prelude.{ℕ};

    ghost Value = { ℕ };

    ghost view = { λ a. a.faults };
}

impl<'r, R: Print> OutSink<'r, R> {
    /// A sink to which nothing was written yet. However often it failed, it tells nothing.
    pub fn new(rt: &'r R) -> Self
        ensures state { result ≡ 0 }
        ensures faults { (faults : ℕ) → ⟦<OutSink<'r, R> as Sink>⟧.faults faults ≡ faults }
        ensures written { (faults : ℕ) → ⟦<OutSink<'r, R> as Sink>⟧.written faults ≡ None }
    {
        OutSink { rt, faults: 0 }
    }
}

impl<R: Print> Sink for OutSink<'_, R> {
    ghost use Rattle.std.specs.Prelude.{None};

    ghost written = { λ _. None };

    ghost faults = { λ s. s };

    fn write(&mut self, piece: &[u8]) -> Result<usize, Failed>
        requires { 0 < length piece.now }
        ensures some { IfOk result (λ n. 0 < n) }
        ensures bound { IfOk result (λ n. n ≤ length piece.now) }
        ensures ok { OnOk result (self.new ≡ self.old) }
        ensures err { OnErr result (self.new ≡ next_count self.old) }
        ensures cause { OnErr result (HasRisen self.old self.new) }
        ensures later { self.old ≤ self.new }
    {
        match self.rt.write_some(piece) {
            Ok(n) if n > 0 => Ok(n),
            _ => {
                self.faults = self.faults.saturating_add(1);
                Err(Failed)
            }
        }
    }
}
