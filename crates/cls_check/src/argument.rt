//! The intersections of what arrows take, argument by argument.
ghost use Rattle.std.specs.Prelude.{ℕ, ◌≡◌, ◌<◌, length, IfOk, slice_index_or, []};
ghost use Rattle.cls_base.specs.Lists.{AreBelow};
ghost use Rattle.cls_path.specs.Paths.{listed};
ghost use Rattle.cls_check.specs.Arguments.{argument_type};
ghost use Rattle.cls_check.specs.Checking.{IsForm};
ghost use Rattle.cls_check.specs.Places.{Stands, arrows_in};

use crate::place::Place;
use cls_base::OutOfMemory;
use cls_library::Library;
use cls_path::{Nf, Path};
use std::alloc::Global;

/// For each argument the normal form of the intersection of what the arrows at the positions take. The only error is out
/// of memory.
pub(crate) fn arguments(
    alloc: Global,
    lib: &Library,
    place: Place,
    positions: &[u32],
) -> Result<Vec<Nf>, OutOfMemory>
    requires place { Stands lib.now place }
    requires within { AreBelow (length (arrows_in lib.now place)) positions.now }
    ensures count { IfOk result (λ arguments. length arguments.items ≡ place.n) }
    ensures each { IfOk result (λ arguments. (i : ℕ) → i < place.n
        → IsForm lib.now (argument_type (arrows_in lib.now place) positions.now i)
        (listed (slice_index_or arguments.items i []))) }
{
    let mut arguments = Vec::with_capacity(alloc, place.n as usize)?;
    for number in 0..place.n {
        arguments.push(argument(alloc, lib, place, positions, number)?)?;
    }
    Ok(arguments)
}

/// The normal form of the intersection of what the arrows at the positions take as this argument.
fn argument(
    alloc: Global,
    lib: &Library,
    place: Place,
    positions: &[u32],
    number: u32,
) -> Result<Nf, OutOfMemory>
    requires place { Stands lib.now place }
    requires within { AreBelow (length (arrows_in lib.now place)) positions.now }
    ensures { IfOk result (λ nf.
        IsForm lib.now (argument_type (arrows_in lib.now place) positions.now number) (listed nf)) }
{
    let arrows = place.arrows(lib);
    let mut paths = Vec::new(alloc);
    for position in positions {
        match arrows.get(*position as usize).source(number as usize) {
            Some(source) => source.copy_onto(alloc, &mut paths)?,
            None => {}
        }
    }
    Ok(Nf::from_paths(alloc, lib.taxonomy(), paths)?)
}
