ghost use Rattle.std.specs.Prelude.{◌≡◌, ℕ, ◌+◌, ◌<◌, ◌≤◌, ◌↔◌, List, [], ◌++◌, length, take, drop, min, Some, IfOk, OnErr, IsErr, Contains};
ghost use Rattle.cls_base.specs.Memory.{next_count};

use crate::numbers::Numbers;
use crate::source::{Failed, Source};
use crate::sure::SureSource;
use std::marker::Model;

/// A source over memory, some of whose reads fail. It is seen as an `Input`: the bytes that are left, those that the last
/// read gave, how they are given, and how many reads there were and failed.
#[derive(Drop)]
pub struct MemorySource {
    bytes: SureSource,
    chunk: usize,
    fails: Numbers,
    reads: u64,
    faults: u64,
}

impl Model for MemorySource {
    ghost use Rattle.std.specs.Prelude.{◌<◌};
    ghost use Rattle.cls_base.specs.Memory.{Input};

    ghost Value = { Input };

    ghost view = { λ s. record {
      left = s.bytes.left;
      last = s.bytes.last;
      chunk = s.chunk;
      fails = s.fails;
      reads = s.reads;
      faults = s.faults;
    } };

    ghost invariant = { λ s. 0 < s.chunk };
}

impl MemorySource {
    /// A source of these bytes that gives at most `chunk` bytes a read. A read fails if its number, counted from 1,
    /// is in `fails`. Takes no memory.
    pub fn new(bytes: Vec<u8>, chunk: usize, fails: Numbers) -> MemorySource
        requires { 0 < chunk }
        ensures { result ≡ record {
          left = bytes.items;
          last = [];
          chunk = chunk;
          fails = fails;
          reads = 0;
          faults = 0;
        } }
    {
        MemorySource {
            bytes: SureSource::new(bytes),
            chunk,
            fails,
            reads: 0,
            faults: 0,
        }
    }
}

impl Source for MemorySource {
    ghost seen = { λ s. record { left = Some s.left; last = Some s.last; faults = s.faults } };

    /// Gives all that fits and is left, up to the source's chunk. Fails if the number of this read is one of those
    /// that fail.
    #[tactic(auto, using(crate::proofs::Lists::front_replaced))]
    fn read(&mut self, into: &mut [u8]) -> Result<usize, Failed>
        ensures fails { IsErr result ↔ Contains self.old.fails (next_count self.old.reads) }

        ensures count { IfOk result (λ n. n
            ≡ min self.old.chunk (min (length into.old) (length self.old.left))) }
        // If there is room for a byte, none comes at the end alone.
        ensures end { IfOk result (λ n. n ≡ 0 → 0 < length into.old → self.new.left ≡ []) }
        ensures copied { IfOk result (λ n. into.new ≡ take n self.old.left ++ drop n into.old) }
        ensures given { IfOk result (λ n. self.new ≡ record self.old {
          left = drop n self.old.left;
          last = take n self.old.left;
          reads = next_count self.old.reads;
        }) }

        // A read that fails loses nothing.
        ensures untouched { OnErr result (into.new ≡ into.old) }
        ensures counted { OnErr result (self.new ≡ record self.old {
          reads = next_count self.old.reads;
          faults = next_count self.old.faults;
        }) }
    {
        self.reads = self.reads.saturating_add(1);
        if self.fails.contains(self.reads) {
            self.faults = self.faults.saturating_add(1);
            return Err(Failed);
        }
        let count = into.len().min(self.chunk);
        Ok(self.bytes.copy_next(&mut into[..count]))
    }
}
