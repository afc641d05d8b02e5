//! Layers of sets of positions, kept in columns.
ghost use Rattle.std.specs.Prelude.{◌≡◌, ◌<◌, ◌≤◌, [], ◌∷◌, ◌++◌, length, slice_index_or, take, drop, OnOk};
ghost use Rattle.cls_proof.specs.Growing.{with_set};

use crate::parts::end_of;
use crate::sets::{LayerRef, Sets};
use cls_base::OutOfMemory;
use std::alloc::Global;
use std::marker::Model;

/// A list of layers, each a list of sets, seen as that list. The last layer takes further sets.
#[derive(Drop)]
pub struct Layers {
    /// Where the sets of each layer begin.
    starts: Vec<u32>,
    /// The sets of the layers, layer after layer.
    sets: Sets,
}

impl Model for Layers {
    ghost use Rattle.std.specs.Prelude.{ℕ, List, length};
    ghost use Rattle.cls_proof.specs.Parts.{AreStarts, itself, lists_of};

    ghost Value = { List (List (List ℕ)) };

    ghost view = { λ l. lists_of l.starts.items l.sets };

    ghost invariant = { λ l. AreStarts itself l.starts.items (length l.sets) };
}

impl Layers {
    /// No layer. It takes no memory.
    pub fn new(alloc: Global) -> Layers
        ensures { result ≡ [] }
    {
        Layers {
            starts: Vec::new(alloc),
            sets: Sets::new(alloc),
        }
    }

    /// The number of layers.
    pub fn len(&self) -> usize
        ensures { result ≡ length self.now }
    {
        self.starts.len()
    }

    /// Puts a layer without a set last. The only error is out of memory, and then no layer is lost. Where there would be
    /// more sets before it than a `u32` counts, that is out of memory too.
    pub fn push_layer(&mut self) -> Result<(), OutOfMemory>
        ensures ok { OnOk result (self.new ≡ self.old ++ [] ∷ []) }
        ensures count { length self.old ≤ length self.new }
    {
        let Ok(start) = u32::try_from(self.sets.len()) else {
            return Err(OutOfMemory);
        };
        self.starts.push(start)?;
        Ok(())
    }

    /// Puts a set last in the last layer; without a layer nothing is seen of it. The only error is out of memory, and then
    /// no layer is lost.
    pub(crate) fn push_set(&mut self, set: &[u32]) -> Result<(), OutOfMemory>
        ensures ok { OnOk result (self.new ≡ with_set set.now self.old) }
        ensures count { length self.old ≤ length self.new }
    {
        self.sets.push(set)
    }

    /// All the layers.
    pub fn all(&self) -> LayersRef<'_>
        ensures { result ≡ self.now }
    {
        self.part(0, self.len())
    }

    /// The layers from one place up to another.
    pub(crate) fn part(&self, start: usize, end: usize) -> LayersRef<'_>
        requires rise { start ≤ end }
        requires within { end ≤ length self.now }
        ensures { result ≡ drop start (take end self.now) }
    {
        LayersRef {
            all: self,
            start,
            end,
        }
    }

    /// The layer at a place.
    pub(crate) fn get(&self, i: usize) -> LayerRef<'_>
        requires { i < length self.now }
        ensures { result ≡ slice_index_or self.now i [] }
    {
        let start = self.starts[i] as usize;
        let end = end_of(self.starts.as_slice(), i, self.sets.len());
        self.sets.part(start, end)
    }
}

/// Some layers of [`Layers`], one after another, seen as the list of them.
#[derive(Drop)]
pub struct LayersRef<'a> {
    all: &'a Layers,
    start: usize,
    end: usize,
}

impl<'a> Model for LayersRef<'a> {
    ghost use Rattle.std.specs.Prelude.{ℕ, List, ◌≤◌, length, take, drop};

    ghost Value = { List (List (List ℕ)) };

    ghost view = { λ l. drop l.start (take l.end l.all.now) };

    ghost invariant = { λ l. (l.start ≤ l.end) × (l.end ≤ length l.all.now) };
}

impl<'a> LayersRef<'a> {
    /// The number of layers.
    pub fn len(&self) -> usize
        ensures { result ≡ length self.now }
    {
        self.end - self.start
    }

    /// The layer at a place.
    pub fn get(&self, i: usize) -> LayerRef<'a>
        requires { i < length self.now }
        ensures { result ≡ slice_index_or self.now i [] }
    {
        let all = self.all;
        // For the prover: the sum is below the end, a number of 64 bits.
        let _end = self.end;
        all.get(self.start + i)
    }
}
