//! The form of blocks.
ghost use Rattle.std.specs.Prelude.{◌≡◌, ◌↔◌, All, map, MatchOption, IfOk, IsTrue};
ghost use Rattle.cls_proof.specs.Blocks.{block_seen};
ghost use Rattle.cls_check.specs.Checking.{ArePositions, IsFormed, PassesLayers};
ghost use Rattle.cls_check.specs.Places.{block_place};

use crate::place::Place;
use crate::positions::are_positions;
use cls_base::OutOfMemory;
use cls_library::Library;
use cls_proof::{BlockRef, BlocksRef, LayerRef, LayersRef};
use indexmap::IndexSet;
use std::alloc::Global;

/// The places of the blocks in their order, if each block is of the form that it must have for a goal with so many paths
/// and no two have one place. The only error is out of memory.
pub(crate) fn block_places(
    alloc: Global,
    lib: &Library,
    count: usize,
    blocks: &BlocksRef,
) -> Result<Option<IndexSet<Place>>, OutOfMemory>
    ensures { IfOk result (λ places. MatchOption places (PassesLayers lib.now blocks.now count → ⊥)
        (λ table. PassesLayers lib.now blocks.now count
        × (table.keys ≡ map block_place blocks.now))) }
{
    let mut places = IndexSet::new(alloc);
    for i in 0..blocks.len() {
        let block = blocks.get(i);
        if !is_formed(lib, count, &block) || !places.insert(place_of(&block))? {
            return Ok(None);
        }
    }
    Ok(Some(places))
}

/// Where the block stands.
pub(crate) fn place_of(block: &BlockRef) -> Place
    ensures { result ≡ block_place (block_seen block.now) }
{
    Place {
        component: block.component,
        n: block.n,
    }
}

/// Whether there are arrows for the block, it has so many layers, and all its sets are of positions.
fn is_formed(lib: &Library, count: usize, block: &BlockRef) -> bool
    ensures { IsTrue result ↔ IsFormed lib.now count (block_seen block.now) }
{
    let place = place_of(block);
    let layers = &block.layers;
    place.stands(lib) && layers.len() == count && are_layers(layers, place.arrows(lib).len())
}

/// Whether the sets of the layers are of positions of so many arrows.
fn are_layers(layers: &LayersRef, count: usize) -> bool
    ensures { IsTrue result ↔ All (All (ArePositions count)) layers.now }
{
    for i in 0..layers.len() {
        if !are_sets(&layers.get(i), count) {
            return false;
        }
    }
    true
}

/// Whether the sets are of positions of so many arrows.
fn are_sets(sets: &LayerRef, count: usize) -> bool
    ensures { IsTrue result ↔ All (ArePositions count) sets.now }
{
    for i in 0..sets.len() {
        if !are_positions(sets.get(i), count) {
            return false;
        }
    }
    true
}
