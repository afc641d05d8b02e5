//! Whether arrows lead to a goal.
ghost use Rattle.std.specs.Prelude.{ℕ, ◌↔◌, length, Contains, IsTrue};
ghost use Rattle.cls_base.specs.Lists.{AreBelow};
ghost use Rattle.cls_path.specs.Paths.{listed, Suits, SuitsAll};
ghost use Rattle.cls_library.specs.Libraries.{variances_in};
ghost use Rattle.cls_library.specs.Reaching.{CoversGoal};
ghost use Rattle.cls_check.specs.Checking.{LeadsTo};
ghost use Rattle.cls_check.specs.Places.{Stands, arrows_in};

use crate::place::Place;
use cls_library::Library;
use cls_path::{Nf, Path};

/// Whether each path of the goal is above the target of an arrow at one of the positions.
pub(crate) fn cover_goal(lib: &Library, place: Place, positions: &[u32], goal: &Nf) -> bool
    requires place { Stands lib.now place }
    requires within { AreBelow (length (arrows_in lib.now place)) positions.now }
    requires suits { SuitsAll (variances_in lib.now.taxonomy) (listed goal.now) }
    ensures { IsTrue result ↔ CoversGoal lib.now (arrows_in lib.now place) (listed goal.now) positions.now }
{
    for path in goal.paths() {
        if !some_leads(lib, place, positions, path) {
            return false;
        }
    }
    true
}

/// Whether the target of an arrow at one of the positions is below the path.
fn some_leads(lib: &Library, place: Place, positions: &[u32], path: &Path) -> bool
    requires place { Stands lib.now place }
    requires within { AreBelow (length (arrows_in lib.now place)) positions.now }
    requires suits { Suits (variances_in lib.now.taxonomy) path.now }
    ensures { IsTrue result
        ↔ ((i : ℕ) × Contains positions.now i × LeadsTo lib.now (arrows_in lib.now place) path.now i) }
{
    let arrows = place.arrows(lib);
    for position in positions {
        let target = arrows.get(*position as usize).target();
        if target.le(lib.taxonomy(), path) {
            return true;
        }
    }
    false
}
