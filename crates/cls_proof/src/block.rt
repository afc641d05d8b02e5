//! The blocks of members, kept in columns.
ghost use Rattle.std.specs.Prelude.{◌≡◌, ◌↔◌, ◌+◌, ◌<◌, ◌≤◌, [], ◌∷◌, ◌++◌, Some, length, slice_get, take, drop, OnOk, IsTrue};
ghost use Rattle.cls_proof.specs.BlockColumns.{layers_start};
ghost use Rattle.cls_proof.specs.Blocks.{block_seen};
ghost use Rattle.cls_proof.specs.Growing.{HasLayers, with_set, in_last_block, new_block};
ghost use Rattle.cls_proof.specs.Parts.{next_start};

use crate::layer::{Layers, LayersRef};
use cls_base::OutOfMemory;
use std::alloc::Global;
use std::marker::Model;

/// Whose arrows a block is about, and where its layers begin.
#[derive(Clone, Copy)]
pub(crate) struct BlockStart {
    component: u32,
    n: u32,
    layers: u32,
}

/// A list of blocks, seen as that list. The last block takes further layers, and its last layer takes further sets.
#[derive(Drop)]
pub(crate) struct Blocks {
    starts: Vec<BlockStart>,
    /// The layers of the blocks, block after block.
    layers: Layers,
}

impl Model for Blocks {
    ghost use Rattle.std.specs.Prelude.{List, length};
    ghost use Rattle.std.specs.Coded.{coded_list};
    ghost use Rattle.cls_proof.specs.Certificates as certificates;
    ghost use Rattle.cls_proof.specs.Stored.{coded_block};

    ghost Value = { List certificates.Block };

    ghost coded = { coded_list coded_block };

    ghost use Rattle.cls_proof.specs.Parts.{AreStarts};
    ghost use Rattle.cls_proof.specs.BlockColumns.{blocks_of, layers_start};

    ghost view = { λ b. blocks_of b.starts.items b.layers };

    ghost invariant = { λ b. AreStarts layers_start b.starts.items (length b.layers) };
}

/// A block of a member.
#[derive(Drop)]
pub struct BlockRef<'a> {
    /// The number of the component.
    pub component: u32,
    /// How many arguments the arrows take.
    pub n: u32,
    /// A layer for each path of the member's goal, in the order of its normal form.
    pub layers: LayersRef<'a>,
}

impl Blocks {
    /// No block. It takes no memory.
    pub(crate) fn new(alloc: Global) -> Blocks
        ensures { result ≡ [] }
    {
        Blocks {
            starts: Vec::new(alloc),
            layers: Layers::new(alloc),
        }
    }

    /// The number of blocks.
    pub(crate) fn len(&self) -> usize
        ensures { result ≡ length self.now }
    {
        self.starts.len()
    }

    /// Puts a block without a layer last.
    pub(crate) fn push_block(&mut self, component: u32, n: u32) -> Result<(), OutOfMemory>
        ensures ok { OnOk result (self.new ≡ self.old ++ new_block component n ∷ []) }
        ensures count { length self.old ≤ length self.new }
    {
        let Ok(layers) = u32::try_from(self.layers.len()) else {
            return Err(OutOfMemory);
        };
        self.starts.push(BlockStart {
            component,
            n,
            layers,
        })?;
        Ok(())
    }

    /// Puts a layer without a set last in the last block.
    pub(crate) fn push_layer(&mut self) -> Result<(), OutOfMemory>
        ensures ok { OnOk result (self.new ≡ in_last_block (λ layers. layers ++ [] ∷ []) self.old) }
        ensures count { length self.old ≤ length self.new }
    {
        self.layers.push_layer()
    }

    /// Puts a set last in the last layer of the last block.
    pub(crate) fn push_set(&mut self, set: &[u32]) -> Result<(), OutOfMemory>
        requires { HasLayers self.old }
        ensures ok { OnOk result (self.new ≡ in_last_block (with_set set.now) self.old) }
        ensures count { length self.old ≤ length self.new }
    {
        self.layers.push_set(set)
    }

    /// Whether the last block has a layer.
    pub(crate) fn has_layer(&self) -> bool
        ensures { IsTrue result ↔ HasLayers self.now }
    {
        let count = self.starts.len();
        count > 0 && (self.starts[count - 1].layers as usize) < self.layers.len()
    }

    /// The blocks from one place up to another.
    pub(crate) fn part(&self, start: usize, end: usize) -> BlocksRef<'_>
        requires rise { start ≤ end }
        requires within { end ≤ length self.now }
        ensures { result ≡ drop start (take end self.now) }
    {
        BlocksRef {
            all: self,
            start,
            end,
        }
    }

    /// The block at a place.
    pub(crate) fn get(&self, i: usize) -> BlockRef<'_>
        requires { i < length self.now }
        ensures { slice_get self.now i ≡ Some (block_seen result) }
    {
        let block = self.starts[i];
        let end = end_of(self.starts.as_slice(), i, self.layers.len());
        BlockRef {
            component: block.component,
            n: block.n,
            layers: self.layers.part(block.layers as usize, end),
        }
    }
}

/// Where the layers of the block at a place end: where those of the next one begin, or else at the end of the column.
fn end_of(starts: &[BlockStart], i: usize, total: usize) -> usize
    requires { i < length starts.now }
    ensures { result ≡ next_start layers_start (drop (i + 1) starts.now) total }
{
    if i + 1 < starts.len() {
        starts[i + 1].layers as usize
    } else {
        total
    }
}

/// Some blocks, one after another, seen as the list of them.
#[derive(Drop)]
pub struct BlocksRef<'a> {
    all: &'a Blocks,
    start: usize,
    end: usize,
}

impl<'a> Model for BlocksRef<'a> {
    ghost use Rattle.std.specs.Prelude.{List, ◌≤◌, length, take, drop};
    ghost use Rattle.std.specs.Coded.{coded_list};
    ghost use Rattle.cls_proof.specs.Certificates as certificates;
    ghost use Rattle.cls_proof.specs.Stored.{coded_block};

    ghost Value = { List certificates.Block };

    ghost coded = { coded_list coded_block };

    ghost view = { λ b. drop b.start (take b.end b.all.now) };

    ghost invariant = { λ b. (b.start ≤ b.end) × (b.end ≤ length b.all.now) };
}

impl<'a> BlocksRef<'a> {
    /// The number of blocks.
    pub fn len(&self) -> usize
        ensures { result ≡ length self.now }
    {
        self.end - self.start
    }

    /// The block at a place.
    pub fn get(&self, i: usize) -> BlockRef<'a>
        requires { i < length self.now }
        ensures { slice_get self.now i ≡ Some (block_seen result) }
    {
        let all = self.all;
        // For the prover: the sum is below the end, a number of 64 bits.
        let _end = self.end;
        all.get(self.start + i)
    }
}
