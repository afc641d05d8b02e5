//! Which arrows of a term's head are kept, and what their targets are above.
ghost use Rattle.std.specs.Prelude.{ℕ, ◌≡◌, ◌↔◌, Contains, IfOk, IsTrue};
ghost use Rattle.cls_path.specs.Paths.{Paths, listed};
ghost use Rattle.cls_library.specs.Arrows as definitions;
ghost use Rattle.cls_library.specs.Reaching.{PathsLeIn};
ghost use Rattle.cls_check.specs.Asking.{goals_of};
ghost use Rattle.cls_check.specs.Deciding.{AllSuitIn, AreSuited, IsLeading, SomeBelow, SuitIn, source_of, targets_of};
ghost use Rattle.cls_check.specs.Places.{Stands, arrows_in};

use crate::asked::{Asked, leads_to_asked};
use crate::found::found;
use crate::kept::KeptArrows;
use crate::place::Place;
use cls_base::OutOfMemory;
use cls_library::{Arrows, Library, MultiArrow};
use cls_path::{ArrowSource, Nf, Path};
use smallvec::SmallVec;
use std::alloc::Global;

/// The arrows of the place that lead to a path that is asked.
pub(crate) fn leading<'l>(
    alloc: Global,
    lib: &Library,
    place: Place,
    arrows: Arrows<'l>,
    asked: &Asked<'_>,
) -> Result<KeptArrows<'l>, OutOfMemory>
    requires place { Stands lib.now place }
    requires same { arrows ≡ arrows_in lib.now place }
    requires arrows { AreSuited lib.now arrows }
    requires goals { (n : Paths) → Contains (goals_of asked.now) n → AllSuitIn lib.now n }
    ensures { IfOk result (λ kept. (a : definitions.MultiArrow) → Contains kept a
        ↔ (Contains arrows.entry a × IsLeading lib.now (goals_of asked.now) a.target)) }
{
    match found(alloc, lib, place, asked, arrows.len())? {
        Some(positions) => Ok(KeptArrows { arrows, positions }),
        None => tested(alloc, lib, arrows, asked),
    }
}

/// The same, by a test of each arrow.
// Not inlined: a frame is cleared whenever its function is called, and this one's is large.
#[inline(never)]
fn tested<'l>(
    alloc: Global,
    lib: &Library,
    arrows: Arrows<'l>,
    asked: &Asked<'_>,
) -> Result<KeptArrows<'l>, OutOfMemory>
    requires arrows { AreSuited lib.now arrows }
    requires goals { (n : Paths) → Contains (goals_of asked.now) n → AllSuitIn lib.now n }
    ensures { IfOk result (λ kept. (a : definitions.MultiArrow) → Contains kept a
        ↔ (Contains arrows.entry a × IsLeading lib.now (goals_of asked.now) a.target)) }
{
    let mut positions = SmallVec::new(alloc);
    for i in 0..arrows.len() {
        if leads_to_asked(lib, arrows.get(i).target(), asked) {
            positions.push(i)?;
        }
    }
    Ok(KeptArrows { arrows, positions })
}

/// Whether the target of one of the arrows is below the path.
fn is_above(lib: &Library, had: &KeptArrows<'_>, path: &Path) -> bool
    requires path { SuitIn lib.now path.now }
    requires had { AllSuitIn lib.now (targets_of had.now) }
    ensures { IsTrue result ↔ SomeBelow lib.now (targets_of had.now) path.now }
{
    for i in 0..had.len() {
        if had.get(i).target().le(lib.taxonomy(), path) {
            return true;
        }
    }
    false
}

/// Whether each path of the goal is above the target of one of the arrows.
pub(crate) fn are_above(lib: &Library, had: &KeptArrows<'_>, goal: &Nf) -> bool
    requires goal { AllSuitIn lib.now (listed goal.now) }
    requires had { AllSuitIn lib.now (targets_of had.now) }
    ensures { IsTrue result ↔ PathsLeIn lib.now (targets_of had.now) (listed goal.now) }
{
    // For the prover: what holds of each library.
    let _count = lib.count();
    for path in goal.paths() {
        if !is_above(lib, had, path) {
            return false;
        }
    }
    true
}

/// Whether what the arrow takes at this place is above the targets of those that are had.
fn has_source(lib: &Library, arrow: &MultiArrow<'_>, place: usize, had: &KeptArrows<'_>) -> bool
    requires source { AllSuitIn lib.now (source_of arrow.now place) }
    requires had { AllSuitIn lib.now (targets_of had.now) }
    ensures { IsTrue result ↔ PathsLeIn lib.now (targets_of had.now) (source_of arrow.now place) }
{
    // For the prover: what holds of each library.
    let _count = lib.count();
    match arrow.source(place) {
        Some(ArrowSource::Name(name)) => is_above(lib, had, &Path::atom(name)),
        Some(ArrowSource::Paths(source)) => are_above(lib, had, source),
        None => true,
    }
}

/// Keeps those of the arrows that take something at this place which is above the targets of those that are had.
pub(crate) fn keep_with_source(
    lib: &Library,
    kept: &mut KeptArrows<'_>,
    place: usize,
    had: &KeptArrows<'_>,
)
    requires arrows { AreSuited lib.now kept.old }
    requires had { AllSuitIn lib.now (targets_of had.now) }
    ensures { (a : definitions.MultiArrow) → Contains kept.new a
        ↔ (Contains kept.old a × PathsLeIn lib.now (targets_of had.now) (source_of a place)) }
{
    let mut i = kept.len();
    while i > 0 {
        i -= 1;
        if !has_source(lib, &kept.get(i), place, had) {
            kept.swap_remove(i);
        }
    }
}
