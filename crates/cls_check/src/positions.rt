//! Positions of arrows.
ghost use Rattle.std.specs.Prelude.{◌↔◌, IsTrue};
ghost use Rattle.cls_check.specs.Checking.{ArePositions};

/// Whether the positions are strictly ascending and below the count.
pub(crate) fn are_positions(positions: &[u32], count: usize) -> bool
    ensures { IsTrue result ↔ ArePositions count positions.now }
{
    let mut least = 0;
    for position in positions {
        let position = *position as usize;
        if position < least || position >= count {
            return false;
        }
        least = position + 1;
    }
    true
}
