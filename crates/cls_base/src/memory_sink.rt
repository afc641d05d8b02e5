ghost use Rattle.std.specs.Prelude.{◌≡◌, ℕ, ◌+◌, ◌-◌, ◌<◌, ◌≤◌, ◌↔◌, ◌⊎◌, List, [], ◌++◌, length, take, min, None, Some, IfOk, OnErr, IsErr, Contains};
ghost use Rattle.cls_base.specs.Memory.{next_count};

use crate::numbers::Numbers;
use crate::out_of_memory::OutOfMemory;
use crate::sink::Sink;
use crate::source::Failed;
use crate::sure::SureSink;
use std::alloc::Global;
use std::marker::Model;

/// A sink over memory, some of whose writes fail. It is seen as an `Output`: the bytes that are held, how they are
/// taken, and how many writes there were and failed.
#[derive(Drop)]
pub struct MemorySink {
    bytes: SureSink,
    chunk: usize,
    fails: Numbers,
    writes: u64,
    faults: u64,
}

impl Model for MemorySink {
    ghost use Rattle.std.specs.Prelude.{◌+◌, ◌<◌, length};
    ghost use Rattle.cls_base.specs.Memory.{Output};

    ghost Value = { Output };

    ghost view = { λ s. record {
      held = s.bytes.held;
      spare = length s.bytes.held + s.bytes.room;
      chunk = s.chunk;
      fails = s.fails;
      writes = s.writes;
      faults = s.faults;
    } };

    ghost invariant = { λ s. 0 < s.chunk };
}

impl MemorySink {
    /// A sink that holds at most `spare` bytes and takes at most `chunk` bytes a write. A write fails if its number,
    /// counted from 1, is in `fails`, and if the sink is full and the piece isn't empty.
    ///
    /// The memory is taken now, and `OutOfMemory` is the answer if there is none. A write takes none.
    pub fn new(
        alloc: Global,
        spare: usize,
        chunk: usize,
        fails: Numbers,
    ) -> Result<MemorySink, OutOfMemory>
        requires { 0 < chunk }
        ensures { IfOk result (λ s. s ≡ record {
          held = [];
          spare = spare;
          chunk = chunk;
          fails = fails;
          writes = 0;
          faults = 0;
        }) }
    {
        Ok(MemorySink {
            bytes: SureSink::new(alloc, spare)?,
            chunk,
            fails,
            writes: 0,
            faults: 0,
        })
    }

    /// The bytes that were taken so far.
    pub fn held(&self) -> &[u8]
        ensures bytes { result.now ≡ self.now.held }
        ensures within { length self.now.held ≤ self.now.spare }
    {
        self.bytes.held()
    }
}

impl Sink for MemorySink {
    ghost seen = { λ s. record { held = Some s.held; room = None; faults = s.faults } };

    /// Takes all that there is room for, up to the sink's chunk. Fails if the number of this write is one of those
    /// that fail, and if the sink is full and the piece isn't empty.
    fn write(&mut self, piece: &[u8]) -> Result<usize, Failed>
        ensures fails { IsErr result
            ↔ (Contains self.old.fails (next_count self.old.writes)
            ⊎ ((length self.old.held ≡ self.old.spare) × (0 < length piece.now))) }

        ensures count { IfOk result (λ n. n
            ≡ min self.old.chunk (min (length piece.now) (self.old.spare - length self.old.held))) }
        ensures progress { IfOk result (λ n. 0 < length piece.now → 0 < n) }
        ensures taken { IfOk result (λ n. self.new ≡ record self.old {
          held = self.old.held ++ take n piece.now;
          writes = next_count self.old.writes;
        }) }

        // A write that fails takes nothing.
        ensures counted { OnErr result (self.new ≡ record self.old {
          writes = next_count self.old.writes;
          faults = next_count self.old.faults;
        }) }
    {
        self.writes = self.writes.saturating_add(1);
        let is_full = self.bytes.room() == 0 && !piece.is_empty();
        if is_full || self.fails.contains(self.writes) {
            self.faults = self.faults.saturating_add(1);
            return Err(Failed);
        }
        let count = piece.len().min(self.chunk).min(self.bytes.room());
        self.bytes.append(&piece[..count]);
        Ok(count)
    }
}
