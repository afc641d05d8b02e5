//! What one set of positions lacks of another.
ghost use Rattle.std.specs.Prelude.{ℕ, ◌≡◌, ◌↔◌, length, Contains, IfOk, IsTrue};
ghost use Rattle.cls_base.specs.Lists.{AreBelow};
ghost use Rattle.cls_check.specs.Near.{AreIndexed};
ghost use Rattle.cls_check.specs.Layers.{AllBelow, AllMet, AreFlagged, IsLack, flag};

use crate::near::{Index, near};
use cls_base::OutOfMemory;
use cls_proof::LayerRef;
use std::alloc::Global;

/// How much a set lacks of another one.
#[derive(Clone, Copy, Debug, PartialEq, Eq)]
pub(crate) enum Lack {
    Nothing,
    One(u32),
    More,
}

/// Whether with each number of the family the set contains a set of the layer. Only those are looked at that the index
/// finds near the set. The only error is out of memory.
pub(crate) fn all_met(
    alloc: Global,
    family: &[u32],
    layer: &LayerRef,
    index: &Index,
    set: &[u32],
    count: usize,
) -> Result<bool, OutOfMemory>
    requires family { AreBelow count family.now }
    requires layer { AllBelow count layer.now }
    requires index { AreIndexed count layer.now (length layer.now) index.now.under.items index.now.small }
    requires set { AreBelow count set.now }
    ensures { IfOk result (λ met. IsTrue met ↔ AllMet family.now layer.now set.now) }
{
    let flags = flags_of(alloc, set, count)?;
    let mut met = vec![in alloc; false; count]?;
    let near = near(alloc, index, set)?;
    for number in &near {
        match lack_of(layer.get(*number), &flags) {
            Lack::Nothing => return Ok(true),
            Lack::One(position) => met[position as usize] = true,
            Lack::More => {}
        }
    }
    Ok(are_flagged(family, &met))
}

/// What the flagged set lacks of the numbers.
fn lack_of(numbers: &[u32], flags: &[bool]) -> Lack
    requires { AreBelow (length flags.now) numbers.now }
    ensures { IsLack flags.now numbers.now result }
{
    let mut missing = None;
    for number in numbers {
        if flags[*number as usize] {
            continue;
        }
        match missing {
            None => missing = Some(*number),
            Some(first) if first == *number => {}
            Some(_) => return Lack::More,
        }
    }
    match missing {
        None => Lack::Nothing,
        Some(number) => Lack::One(number),
    }
}

/// The flags of the numbers of a set, so many in all.
fn flags_of(alloc: Global, set: &[u32], count: usize) -> Result<Vec<bool>, OutOfMemory>
    requires { AreBelow count set.now }
    ensures flagged { IfOk result (λ flags. AreFlagged set.now flags.items) }
    ensures count { IfOk result (λ flags. length flags.items ≡ count) }
{
    let mut flags = vec![in alloc; false; count]?;
    for number in set {
        flags[*number as usize] = true;
    }
    Ok(flags)
}

/// Whether the flag of each of the numbers is set.
fn are_flagged(numbers: &[u32], flags: &[bool]) -> bool
    requires { AreBelow (length flags.now) numbers.now }
    ensures { IsTrue result ↔ ((i : ℕ) → Contains numbers.now i → IsTrue (flag flags.now i)) }
{
    for number in numbers {
        if !flags[*number as usize] {
            return false;
        }
    }
    true
}
