ghost use Rattle.std.specs.Prelude.{◌≡◌, ℕ, ◌+◌, ◌-◌, ◌<◌, ◌≤◌, List, [], ◌++◌, length, take, drop, min, Some, Ok, IfOk};

use crate::out_of_memory::OutOfMemory;
use crate::sink::Sink;
use crate::source::{Failed, Source};
use std::alloc::Global;
use std::marker::Model;

/// A source over memory that never fails, seen as the bytes that are left and those that the last read gave.
#[derive(Drop)]
pub struct SureSource {
    bytes: Vec<u8>,
    at: usize,
    // How many bytes the last read gave.
    given: usize,
}

impl Model for SureSource {
    ghost use Rattle.std.specs.Prelude.{◌-◌, ◌≤◌, length, take, drop};
    ghost use Rattle.cls_base.specs.Memory.{SureInput};

    ghost Value = { SureInput };

    ghost view = { λ s. record {
      left = drop s.at s.bytes.items;
      last = take s.given (drop (s.at - s.given) s.bytes.items);
    } };

    ghost invariant = { λ s. (s.at ≤ length s.bytes.items) × (s.given ≤ s.at) };
}

impl SureSource {
    /// A source of these bytes. Takes no memory.
    pub fn new(bytes: Vec<u8>) -> SureSource
        ensures { result ≡ record { left = bytes.items; last = [] } }
    {
        SureSource {
            bytes,
            at: 0,
            given: 0,
        }
    }

    /// Copies the next bytes to the front of `into`, as many as fit and are left, and says how many.
    pub(crate) fn copy_next(&mut self, into: &mut [u8]) -> usize
        ensures count { result ≡ min (length into.old) (length self.old.left) }
        ensures copied { into.new ≡ take result self.old.left ++ drop result into.old }
        ensures left { self.new ≡ record { left = drop result self.old.left; last = take result self.old.left } }
    {
        let count = (self.bytes.len() - self.at).min(into.len());
        into[..count].copy_from_slice(&self.bytes[self.at..self.at + count]);
        self.at += count;
        self.given = count;
        count
    }
}

impl Source for SureSource {
    ghost seen = { λ s. record { left = Some s.left; last = Some s.last; faults = 0 } };

    /// Gives all that fits and is left.
    fn read(&mut self, into: &mut [u8]) -> Result<usize, Failed>
        ensures count { result ≡ Ok (min (length into.old) (length self.old.left)) }
        ensures copied { IfOk result (λ n. into.new ≡ take n self.old.left ++ drop n into.old) }
        ensures given { IfOk result (λ n.
            self.new ≡ record { left = drop n self.old.left; last = take n self.old.left }) }
    {
        Ok(self.copy_next(into))
    }
}

/// A sink over memory that never fails while there is room, and takes each piece whole.
#[derive(Drop)]
pub struct SureSink {
    held: Vec<u8>,
    room: usize,
}

impl Model for SureSink {
    ghost use Rattle.std.specs.Prelude.{ℕ, ◌+◌, ◌≤◌, length, vec_capacity};
    ghost use Rattle.cls_base.specs.Memory.{SureOutput};

    ghost Value = { SureOutput };

    ghost view = { λ s. record { held = s.held.items; room = s.room } };

    ghost invariant = { λ s. length s.held.items + s.room ≤ vec_capacity s.held };
}

impl SureSink {
    /// A sink that takes `spare` bytes in all. The memory for them is taken now, and `OutOfMemory` is the answer if
    /// there is none.
    pub fn new(alloc: Global, spare: usize) -> Result<SureSink, OutOfMemory>
        ensures { IfOk result (λ s. s ≡ record { held = []; room = spare }) }
    {
        Ok(SureSink {
            held: Vec::with_capacity(alloc, spare)?,
            room: spare,
        })
    }

    /// The bytes that were taken so far.
    pub fn held(&self) -> &[u8]
        ensures { result.now ≡ self.now.held }
    {
        self.held.as_slice()
    }

    /// How many bytes there is room for yet.
    pub fn room(&self) -> usize
        ensures { result ≡ self.now.room }
    {
        self.room
    }

    /// Takes the whole piece.
    pub(crate) fn append(&mut self, piece: &[u8])
        requires { length piece.now ≤ self.old.room }
        ensures { self.new ≡ record {
          held = self.old.held ++ piece.now;
          room = self.old.room - length piece.now;
        } }
    {
        self.held.extend_from_slice(piece).unwrap();
        self.room -= piece.len();
    }
}

impl Sink for SureSink {
    ghost seen = { λ s. record { held = Some s.held; room = Some s.room; faults = 0 } };

    /// Takes the whole piece.
    fn write(&mut self, piece: &[u8]) -> Result<usize, Failed>
        requires { length piece.now ≤ self.old.room }
        ensures whole { result ≡ Ok (length piece.now) }
        ensures after { self.new ≡ record {
          held = self.old.held ++ piece.now;
          room = self.old.room - length piece.now;
        } }
    {
        self.append(piece);
        Ok(piece.len())
    }
}
