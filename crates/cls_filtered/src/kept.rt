//! Which pairs of a node and a state are nodes of the filtered book.
ghost use Rattle.std.specs.Prelude.{◌≡◌, ◌+◌, ◌^◌, ◌<◌, false, None, Some, IfOk, OnOk, cond, slice_index_or, take};
ghost use Rattle.cls_filtered.specs.Filtered.{count_true, is_kept};
ghost use Rattle.cls_filtered.specs.Makings.{AreNodes, kept_node};

use crate::flags::{is_up, pair_of};
use cls_base::OutOfMemory;
use std::alloc::Global;
use std::marker::Model;

/// The pairs of a node and a state that have a term, which are the nodes of the filtered book. They are seen as flags.
#[derive(Drop)]
pub(crate) struct Kept {
    flags: Vec<bool>,
    // The node of each pair, if it is kept.
    numbers: Vec<u32>,
}

impl Model for Kept {
    ghost use Rattle.std.specs.Prelude.{Bool, List};
    ghost use Rattle.cls_filtered.specs.Makings.{AreNodes};

    ghost Value = { List Bool };

    ghost view = { λ k. k.flags.items };

    ghost invariant = { λ k. AreNodes k.flags.items k.numbers.items };
}

impl Kept {
    /// The pairs whose flag is true. The only error is out of memory, as which more nodes than a `u32` counts count.
    pub(crate) fn new(alloc: Global, flags: Vec<bool>) -> Result<Kept, OutOfMemory>
        ensures kept { IfOk result (λ kept. kept ≡ flags.items) }
        ensures few { OnOk result (count_true flags.items + 1 < 2 ^ 32) }
    {
        let numbers = numbers_of(alloc, flags.as_slice())?;
        Ok(Kept { flags, numbers })
    }

    /// The node of the pair, if it is kept.
    pub(crate) fn node(&self, node: u32, state: u32) -> Option<u32>
        ensures { result ≡ kept_node self.now node state }
    {
        let flags = self.flags.as_slice();
        let numbers = self.numbers.as_slice();
        number_at(flags, numbers, pair_of(node, state))
    }

    /// Whether the pair is kept.
    pub(crate) fn has(&self, node: u32, state: u32) -> bool
        ensures { result ≡ is_kept self.now node state }
    {
        is_up(self.flags.as_slice(), pair_of(node, state))
    }
}

// The node of each pair, if it is kept.
fn numbers_of(alloc: Global, flags: &[bool]) -> Result<Vec<u32>, OutOfMemory>
    ensures numbers { IfOk result (λ numbers. AreNodes flags.now numbers.items) }
    ensures few { OnOk result (count_true flags.now + 1 < 2 ^ 32) }
{
    let mut numbers = Vec::with_capacity(alloc, flags.len())?;
    let mut next = 1;
    for flag in flags {
        numbers.push(next)?;
        next = number_after(next, *flag)?;
    }
    Ok(numbers)
}

// The number of the next node behind a pair, which is a node if it is kept.
fn number_after(next: u32, kept: bool) -> Result<u32, OutOfMemory>
    ensures number { IfOk result (λ after. after ≡ cond kept (next + 1) next) }
    ensures few { IfOk result (λ after. after < 2 ^ 32) }
{
    if !kept {
        return Ok(next);
    }
    if next == u32::MAX {
        return Err(OutOfMemory);
    }
    Ok(next + 1)
}

// The number of the pair, if it is kept.
fn number_at(flags: &[bool], numbers: &[u32], pair: usize) -> Option<u32>
    requires { AreNodes flags.now numbers.now }
    ensures { result ≡ cond (slice_index_or flags.now pair false) (Some (count_true (take pair flags.now) + 1)) None }
{
    if !is_up(flags, pair) {
        return None;
    }
    Some(numbers[pair])
}
