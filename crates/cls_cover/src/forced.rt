ghost use Rattle.std.specs.Prelude.{◌≡◌, ℕ, ◌<◌, ◌↔◌, ◌⊎◌, ◌∷◌, [], IfOk, IfSome, IsTrue, OnOk, length, slice_index};
ghost use Rattle.cls_cover.specs.Members.{Member, Ascending};
ghost use Rattle.cls_cover.specs.Growing.{single};
ghost use Rattle.cls_cover.specs.Forced.{IsForced};

use crate::cover::place_of;
use cls_base::{NumberLists, Numbers, OutOfMemory};
use std::alloc::Global;

/// The only cover of the families, if each has a single position.
pub(crate) fn forced(alloc: Global, families: &[Numbers]) -> Result<Option<Vec<u32>>, OutOfMemory>
    ensures { IfOk result (λ found. IfSome found (λ cover. IsForced families.now cover.items)) }
{
    let mut positions = Vec::with_capacity(alloc, families.len())?;
    for family in families {
        match only_of(family.as_slice()) {
            Some(x) => put(&mut positions, x)?,
            None => return Ok(None),
        }
    }
    Ok(Some(positions))
}

/// The position of the family, if it has a single one.
fn only_of(family: &[u32]) -> Option<u32>
    ensures { IfSome result (λ x. family.now ≡ single x) }
{
    match family.first() {
        Some(x) if family.len() == 1 => Some(*x),
        _ => None,
    }
}

/// Puts a position among ascending ones, unless it is there.
pub(crate) fn put(positions: &mut Vec<u32>, x: u32) -> Result<(), OutOfMemory>
    requires { Ascending positions.old.items }
    ensures ascending { OnOk result (Ascending positions.new.items) }
    ensures members { OnOk result
        ((y : ℕ) → Member positions.new.items y ↔ (Member positions.old.items y ⊎ (y ≡ x))) }
{
    let place = place_of(positions.as_slice(), x);
    if stands_at(positions.as_slice(), place, x) {
        return Ok(());
    }
    positions.insert(place, x)?;
    Ok(())
}

/// Whether the position stands at this place.
fn stands_at(positions: &[u32], place: usize, x: u32) -> bool
    ensures { IsTrue result ↔ ((place < length positions.now) × (slice_index positions.now place ≡ x)) }
{
    place < positions.len() && positions[place] == x
}

/// The list of one cover.
pub(crate) fn only(alloc: Global, cover: Vec<u32>) -> Result<NumberLists, OutOfMemory>
    ensures { IfOk result (λ list. list ≡ cover.items ∷ []) }
{
    let mut lists = NumberLists::new(alloc);
    lists.push(&cover)?;
    Ok(lists)
}
