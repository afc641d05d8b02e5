//! Sets of positions, kept in columns.
ghost use Rattle.std.specs.Prelude.{◌≡◌, ◌<◌, ◌≤◌, [], ◌∷◌, ◌++◌, length, slice_index_or, take, drop, OnOk};

use crate::parts::end_of;
use cls_base::OutOfMemory;
use std::alloc::Global;
use std::marker::Model;

/// A list of sets, each a list of positions of arrows, seen as that list.
#[derive(Drop)]
pub struct Sets {
    /// Where the positions of each set begin.
    starts: Vec<u32>,
    /// The positions of the sets, set after set.
    positions: Vec<u32>,
}

impl Model for Sets {
    ghost use Rattle.std.specs.Prelude.{ℕ, List, length};
    ghost use Rattle.cls_proof.specs.Parts.{AreStarts, itself, lists_of};

    ghost Value = { List (List ℕ) };

    ghost view = { λ s. lists_of s.starts.items s.positions.items };

    ghost invariant = { λ s. AreStarts itself s.starts.items (length s.positions.items) };
}

impl Sets {
    /// No set. It takes no memory.
    pub fn new(alloc: Global) -> Sets
        ensures { result ≡ [] }
    {
        Sets {
            starts: Vec::new(alloc),
            positions: Vec::new(alloc),
        }
    }

    /// The number of sets.
    pub fn len(&self) -> usize
        ensures { result ≡ length self.now }
    {
        self.starts.len()
    }

    /// Puts a set last. The only error is out of memory, and then no set is lost. Where there would be more positions before
    /// it than a `u32` counts, that is out of memory too.
    pub fn push(&mut self, set: &[u32]) -> Result<(), OutOfMemory>
        ensures ok { OnOk result (self.new ≡ self.old ++ set.now ∷ []) }
        ensures count { length self.old ≤ length self.new }
    {
        let Ok(start) = u32::try_from(self.positions.len()) else {
            return Err(OutOfMemory);
        };
        self.starts.push(start)?;
        push_all(&mut self.positions, set)
    }

    /// All the sets.
    pub fn all(&self) -> LayerRef<'_>
        ensures { result ≡ self.now }
    {
        self.part(0, self.len())
    }

    /// The sets from one place up to another.
    pub(crate) fn part(&self, start: usize, end: usize) -> LayerRef<'_>
        requires rise { start ≤ end }
        requires within { end ≤ length self.now }
        ensures { result ≡ drop start (take end self.now) }
    {
        LayerRef {
            all: self,
            start,
            end,
        }
    }

    /// The set at a place.
    pub(crate) fn get(&self, i: usize) -> &[u32]
        requires { i < length self.now }
        ensures { result.now ≡ slice_index_or self.now i [] }
    {
        let positions = self.positions.as_slice();
        let start = self.starts[i] as usize;
        let end = end_of(self.starts.as_slice(), i, positions.len());
        &positions[start..end]
    }
}

/// Puts the numbers last, one after another: a set has few.
fn push_all(column: &mut Vec<u32>, numbers: &[u32]) -> Result<(), OutOfMemory>
    ensures ok { OnOk result (column.new.items ≡ column.old.items ++ numbers.now) }
    ensures count { length column.old.items ≤ length column.new.items }
{
    for number in numbers {
        column.push(*number)?;
    }
    Ok(())
}

/// Some sets, one after another, seen as the list of them.
#[derive(Drop)]
pub struct LayerRef<'a> {
    all: &'a Sets,
    start: usize,
    end: usize,
}

impl<'a> Model for LayerRef<'a> {
    ghost use Rattle.std.specs.Prelude.{ℕ, List, ◌≤◌, length, take, drop};

    ghost Value = { List (List ℕ) };

    ghost view = { λ l. drop l.start (take l.end l.all.now) };

    ghost invariant = { λ l. (l.start ≤ l.end) × (l.end ≤ length l.all.now) };
}

impl<'a> LayerRef<'a> {
    /// The number of sets.
    pub fn len(&self) -> usize
        ensures { result ≡ length self.now }
    {
        self.end - self.start
    }

    /// The set at a place.
    pub fn get(&self, i: usize) -> &'a [u32]
        requires { i < length self.now }
        ensures { result.now ≡ slice_index_or self.now i [] }
    {
        let all = self.all;
        // For the prover: the sum is below the end, a number of 64 bits.
        let _end = self.end;
        all.get(self.start + i)
    }
}
