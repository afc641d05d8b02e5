//! Arrows that lead to what is asked, found by the families of the paths that are asked.
ghost use Rattle.std.specs.Prelude.{ℕ, ◌≡◌, ◌<◌, ◌↔◌, ◌++◌, Contains, IfOk, IfSome, IsTrue, OnOk, length};
ghost use Rattle.cls_path.specs.Paths.{Paths, listed};
ghost use Rattle.cls_library.specs.Reaching.{PathLeIn};
ghost use Rattle.cls_check.specs.Asking.{goals_of};
ghost use Rattle.cls_check.specs.Deciding.{AllSuitIn, IsLeading, SomeAbove, SuitIn, arrow_of, source_of, sources_of};
ghost use Rattle.cls_check.specs.Found.{Adds};
ghost use Rattle.cls_check.specs.Places.{Stands, arrows_in};

use crate::asked::Asked;
use crate::kept::{KeptArrows, Positions};
use crate::place::Place;
use cls_base::OutOfMemory;
use cls_library::{Library, MultiArrow};
use cls_path::{ArrowSource, Nf, Path};
use smallvec::SmallVec;
use std::alloc::Global;

/// With so little room each arrow is tested.
const FEW: usize = 64;

/// The positions of the arrows of the place that lead to a path that is asked. None if there is little room, if some family isn't
/// found at once, or if they take more than `room`: then each arrow is to be tested.
pub(crate) fn found(
    alloc: Global,
    lib: &Library,
    place: Place,
    asked: &Asked<'_>,
    room: usize,
) -> Result<Option<Positions>, OutOfMemory>
    requires place { Stands lib.now place }
    requires goals { (n : Paths) → Contains (goals_of asked.now) n → AllSuitIn lib.now n }
    ensures { IfOk result (λ found. IfSome found (λ positions. (k : ℕ) → Contains positions.items k
        ↔ ((k < length (arrows_in lib.now place))
        × IsLeading lib.now (goals_of asked.now) (arrow_of (arrows_in lib.now place) k).target))) }
{
    if room <= FEW {
        return Ok(None);
    }
    let mut positions = SmallVec::new(alloc);
    if put_asked(alloc, lib, place, asked, room, &mut positions)? {
        return Ok(Some(positions));
    }
    Ok(None)
}

/// Puts the positions of the arrows that lead to a path that is asked. False if they aren't put; then what stands there is of no use.
fn put_asked(
    alloc: Global,
    lib: &Library,
    place: Place,
    asked: &Asked<'_>,
    room: usize,
    positions: &mut Positions,
) -> Result<bool, OutOfMemory>
    requires place { Stands lib.now place }
    requires goals { (n : Paths) → Contains (goals_of asked.now) n → AllSuitIn lib.now n }
    ensures { IfOk result (λ put. IsTrue put → Adds (arrows_in lib.now place)
        (IsLeading lib.now (goals_of asked.now)) positions.old.items positions.new.items) }
{
    match asked {
        Asked::Goal(goal) => Ok(put_goal(alloc, lib, place, goal, room, positions)?),
        Asked::Sources(arrows, at) => {
            Ok(put_sources(alloc, lib, place, arrows, *at, room, positions)?)
        }
    }
}

/// The same for the paths that the arrows take as the argument with this number.
fn put_sources(
    alloc: Global,
    lib: &Library,
    place: Place,
    arrows: &KeptArrows<'_>,
    at: usize,
    room: usize,
    positions: &mut Positions,
) -> Result<bool, OutOfMemory>
    requires place { Stands lib.now place }
    requires sources { (n : Paths) → Contains (sources_of arrows.now at) n → AllSuitIn lib.now n }
    ensures { IfOk result (λ put. IsTrue put → Adds (arrows_in lib.now place)
        (IsLeading lib.now (sources_of arrows.now at)) positions.old.items positions.new.items) }
{
    for i in 0..arrows.len() {
        if !put_source(alloc, lib, place, &arrows.get(i), at, room, positions)? {
            return Ok(false);
        }
    }
    Ok(true)
}

/// The same for the paths that one arrow takes.
fn put_source(
    alloc: Global,
    lib: &Library,
    place: Place,
    arrow: &MultiArrow<'_>,
    at: usize,
    room: usize,
    positions: &mut Positions,
) -> Result<bool, OutOfMemory>
    requires place { Stands lib.now place }
    requires source { AllSuitIn lib.now (source_of arrow.now at) }
    ensures { IfOk result (λ put. IsTrue put → Adds (arrows_in lib.now place)
        (SomeAbove lib.now (source_of arrow.now at)) positions.old.items positions.new.items) }
{
    match arrow.source(at) {
        Some(ArrowSource::Name(name)) => {
            Ok(put_path(alloc, lib, place, &Path::atom(name), room, positions)?)
        }
        Some(ArrowSource::Paths(source)) => {
            Ok(put_goal(alloc, lib, place, source, room, positions)?)
        }
        None => Ok(true),
    }
}

/// The same for the paths of a goal.
fn put_goal(
    alloc: Global,
    lib: &Library,
    place: Place,
    goal: &Nf,
    room: usize,
    positions: &mut Positions,
) -> Result<bool, OutOfMemory>
    requires place { Stands lib.now place }
    requires goal { AllSuitIn lib.now (listed goal.now) }
    ensures { IfOk result (λ put. IsTrue put → Adds (arrows_in lib.now place)
        (SomeAbove lib.now (listed goal.now)) positions.old.items positions.new.items) }
{
    for path in goal.paths() {
        if !put_path(alloc, lib, place, path, room, positions)? {
            return Ok(false);
        }
    }
    Ok(true)
}

/// The same for one path: its family.
fn put_path(
    alloc: Global,
    lib: &Library,
    place: Place,
    path: &Path,
    room: usize,
    positions: &mut Positions,
) -> Result<bool, OutOfMemory>
    requires place { Stands lib.now place }
    requires path { SuitIn lib.now path.now }
    ensures { IfOk result (λ put. IsTrue put → Adds (arrows_in lib.now place)
        (λ p. PathLeIn lib.now p path.now) positions.old.items positions.new.items) }
{
    if !lib.is_quick(path) {
        return Ok(false);
    }
    let family = lib.family(alloc, place.component, place.n, path)?;
    let leading = family.as_slice();
    if positions.len().saturating_add(leading.len()) > room {
        return Ok(false);
    }
    put_all(leading, positions)?;
    Ok(true)
}

/// Puts the numbers behind the positions.
fn put_all(numbers: &[u32], positions: &mut Positions) -> Result<(), OutOfMemory>
    ensures { OnOk result (positions.new.items ≡ positions.old.items ++ numbers.now) }
{
    for number in numbers {
        positions.push(*number as usize)?;
    }
    Ok(())
}
