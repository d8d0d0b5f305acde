//! A sink in memory, which fails where it is told to.
ghost use Rattle.std.specs.Prelude.{◌≡◌, ◌<◌, ◌≤◌, ◌-◌, ◌↔◌, ◌⊎◌, [], ◌++◌, min, length, take, IsErr, IfOk, OnErr, Contains};
ghost use Rattle.base_io.specs.Outside.{HasRisen, next_count};
ghost use Rattle.base_io.specs.Memory.{SinkState};

use crate::fault_plan::FaultPlan;
use crate::{Failed, Sink};
use base::NoMemory;
use std::alloc::Global;
use std::marker::Model;

/// A place for bytes in memory.
/// Writes are numbered from 1, and those with the numbers in `failing` fail.
#[derive(Drop)]
pub struct MemorySink {
    bytes: Vec<u8>,
    room: usize,
    chunk: usize,
    plan: FaultPlan,
}

impl Model for MemorySink {
    ghost use Rattle.std.specs.Prelude.{◌<◌, ◌≤◌, vec_len, vec_capacity};
    ghost use Rattle.base_io.specs.Memory.{SinkState};

    ghost Value = { SinkState };

    ghost view = { λ a. record {
      bytes = a.bytes.items;
      room = a.room;
      chunk = a.chunk;
      failing = a.plan.failing.items;
      calls = a.plan.calls;
      faults = a.plan.faults;
    } };

    ghost invariant = { λ a. (0 < a.chunk)
        × (vec_len a.bytes ≤ a.room) × (a.room ≤ vec_capacity a.bytes) };
}

impl MemorySink {
    /// An empty sink with room for `room` bytes, which it takes here. A write takes at most `chunk` bytes.
    /// At all times it tells all bytes that were written, and how often it failed.
    pub fn new(
        alloc: Global,
        room: usize,
        chunk: usize,
        failing: Vec<u32>,
    ) -> Result<MemorySink, NoMemory>
        requires { 0 < chunk }
        ensures state { IfOk result (λ sink. sink ≡ record {
          bytes = [];
          room = room;
          chunk = chunk;
          failing = failing.items;
          calls = 0;
          faults = 0;
        }) }
        ensures written { (sink : SinkState) → ⟦<MemorySink as Sink>⟧.written sink ≡ Some sink.bytes }
        ensures faults { (sink : SinkState) → ⟦<MemorySink as Sink>⟧.faults sink ≡ sink.faults }
    {
        let bytes = Vec::with_capacity(alloc, room)?;
        Ok(MemorySink {
            bytes,
            room,
            chunk,
            plan: FaultPlan::new(failing),
        })
    }

    /// The bytes written.
    pub fn bytes(&self) -> &[u8]
        ensures { result.now ≡ self.now.bytes }
    {
        &self.bytes
    }
}

impl Sink for MemorySink {
    ghost use Rattle.std.specs.Prelude.{Some};

    ghost written = { λ s. Some s.bytes };

    ghost faults = { λ s. s.faults };

    fn write(&mut self, piece: &[u8]) -> Result<usize, Failed>
        requires { 0 < length piece.now }
        ensures fails { IsErr result
            ↔ (Contains self.old.failing (next_count self.old.calls) ⊎ (self.old.room ≤ length self.old.bytes)) }
        ensures count { IfOk result (λ n.
            n ≡ min (min self.old.chunk (length piece.now)) (self.old.room - length self.old.bytes)) }
        ensures ok { IfOk result (λ n. self.new ≡ record self.old {
          bytes = self.old.bytes ++ take n piece.now;
          calls = next_count self.old.calls;
        }) }
        ensures err { OnErr result (self.new ≡ record self.old {
          calls = next_count self.old.calls;
          faults = next_count self.old.faults;
        }) }

        // What each sink keeps.
        ensures some { IfOk result (λ n. 0 < n) }
        ensures cause { OnErr result (HasRisen self.old.faults self.new.faults) }
        ensures later { self.old.faults ≤ self.new.faults }
    {
        self.plan.call()?;
        let n = self
            .chunk
            .min(piece.len())
            .min(self.room - self.bytes.len());
        if n == 0 {
            return Err(self.plan.fail());
        }
        self.bytes.extend_from_slice(&piece[..n]).unwrap();
        Ok(n)
    }
}
