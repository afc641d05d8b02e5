//! Sets of positions below 128, each as a number of 128 bits. Position 0 is the greatest bit.
ghost use Rattle.std.specs.Prelude.{◌≡◌, ℕ, ◌<◌, ◌≤◌, ◌↔◌, ◌++◌, IfOk, IfSome, OnOk, IsTrue, length};
ghost use Rattle.cls_cover.specs.Sets.{IsIn, members, members_of_half, IsSetOf, IsSingle, AreSetsOf, MeetsAlone};
ghost use Rattle.cls_cover.specs.Forced.{IsForced};

use cls_base::{Numbers, OutOfMemory};
use std::alloc::Global;

/// The set of position 0 alone.
const FIRST: u128 = 1 << 127;

/// The positions of the lower half of a set.
const LOWER_HALF: u128 = 0xffff_ffff_ffff_ffff;

/// Position 0 of a half of a set, which has 64 positions.
const FIRST_OF_HALF: u64 = 1 << 63;

/// The set of one position.
pub(crate) fn alone(x: u32) -> u128
    requires { x < 128 }
    ensures { (y : ℕ) → IsIn result y ↔ (y ≡ x) }
{
    FIRST >> x
}

/// The set of the positions, if each is below 128.
pub(crate) fn set_of(positions: &[u32]) -> Option<u128>
    ensures { IfSome result (IsSetOf positions.now) }
{
    let mut set = 0;
    for x in positions {
        if *x >= 128 {
            return None;
        }
        set |= alone(*x);
    }
    Some(set)
}

/// The sets of the families, if each position is below 128.
pub(crate) fn sets_of(alloc: Global, families: &[Numbers]) -> Result<Option<Vec<u128>>, OutOfMemory>
    ensures { IfOk result (λ found. IfSome found (λ sets. AreSetsOf families.now sets.items)) }
{
    let mut sets = Vec::with_capacity(alloc, families.len())?;
    for family in families {
        match set_of(family.as_slice()) {
            Some(set) => sets.push(set)?,
            None => return Ok(None),
        }
    }
    Ok(Some(sets))
}

/// The only cover of the families, if each has a single position, and this is below 128.
pub(crate) fn forced_set(families: &[Numbers]) -> Option<u128>
    ensures { IfSome result (λ set. IsForced families.now (members set)) }
{
    let mut set = 0;
    for family in families {
        match family.as_slice() {
            [x] if *x < 128 => set |= alone(*x),
            _ => return None,
        }
    }
    Some(set)
}

/// The positions of the set, ascending.
pub(crate) fn members_of(alloc: Global, set: u128) -> Result<Vec<u32>, OutOfMemory>
    ensures { IfOk result (λ list. list.items ≡ members set) }
{
    let mut list = Vec::with_capacity(alloc, set.count_ones() as usize)?;
    put_members(set, &mut list)?;
    Ok(list)
}

/// Puts the positions of the set last, ascending.
pub(crate) fn put_members(set: u128, list: &mut Vec<u32>) -> Result<(), OutOfMemory>
    ensures { OnOk result (list.new.items ≡ list.old.items ++ members set) }
{
    put_half((set >> 64) as u64, 0, list)?;
    put_half((set & LOWER_HALF) as u64, 64, list)?;
    Ok(())
}

/// Puts the positions of a half of a set last, ascending. The first position that the half can have is given.
fn put_half(half: u64, first: u32, list: &mut Vec<u32>) -> Result<(), OutOfMemory>
    requires { first ≤ 64 }
    ensures { OnOk result (list.new.items ≡ list.old.items ++ members_of_half half first) }
{
    let mut rest = half;
    while rest != 0 {
        let x = rest.leading_zeros();
        list.push(first + x)?;
        rest &= !(FIRST_OF_HALF >> x);
    }
    Ok(())
}

/// Whether the set has one position.
fn is_single(set: u128) -> bool
    ensures { IsTrue result ↔ IsSingle set }
{
    set != 0 && set & (set - 1) == 0
}

/// Whether each position of the set is the only one that the set shares with one of the others.
pub(crate) fn each_meets_alone(sets: &[u128], set: u128) -> bool
    ensures { IsTrue result ↔ ((x : ℕ) → IsIn set x → MeetsAlone sets.now (length sets.now) set x) }
{
    let mut found = 0;
    for other in sets {
        let shared = *other & set;
        if is_single(shared) {
            found |= shared;
        }
    }
    found == set
}
