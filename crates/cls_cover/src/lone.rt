//! The cover of families of one position each.
ghost use Rattle.std.specs.Prelude.{◌≡◌, ℕ, ◌<◌, ◌∷◌, [], OnOk, map};
ghost use Rattle.cls_cover.specs.Covers.{AreCovers, AreWithinLimit};
ghost use Rattle.cls_cover.specs.Growing.{single};

use crate::forced::put;
use crate::sets::{put_members, set_of};
use cls_base::OutOfMemory;

/// Makes the list the only minimal cover of families of one position each: these positions, without repetition and strictly
/// ascending. The only error is out of memory.
pub fn lone_cover(positions: &[u32], cover: &mut Vec<u32>) -> Result<(), OutOfMemory>
    ensures covers { OnOk result (AreCovers (map single positions.now) (cover.new.items ∷ [])) }
    ensures within { OnOk result
        ((limit : ℕ) → 0 < limit → AreWithinLimit (map single positions.now) limit) }
{
    cover.clear();
    if let Some(set) = set_of(positions) {
        put_members(set, cover)?;
        return Ok(());
    }
    for position in positions {
        put(cover, *position)?;
    }
    Ok(())
}
