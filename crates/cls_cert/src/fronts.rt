//! The minimal covers of families no first ones of which have more than the limit.
ghost use Rattle.std.specs.Prelude.{◌+◌, ◌<◌, ◌≤◌, All, IfOk, IfSome, length};
ghost use Rattle.cls_base.specs.Limits.{max_covers};
ghost use Rattle.cls_cover.specs.Lists.{IsAscending};
ghost use Rattle.cls_cover.specs.Covers.{AreCovers, AreWithinLimit};
ghost use Rattle.cls_cover.specs.Fronts.{HasCovers};

use cls_base::limits::MAX_COVERS;
use cls_base::{NumberLists, Numbers, OutOfMemory};
use cls_cover::{CoverFault, GrowingCovers, covers};
use std::alloc::Global;

/// The minimal covers of the families, which have few.
pub(crate) fn few_covers(alloc: Global, families: &[Numbers]) -> Result<NumberLists, OutOfMemory>
    requires ascending { All IsAscending families.now }
    requires few { AreWithinLimit families.now max_covers }
    ensures { IfOk result (AreCovers families.now) }
{
    match covers(alloc, families, MAX_COVERS) {
        Ok(list) => Ok(list),
        Err(CoverFault::TooManyCovers(_)) => unreachable!(),
        Err(CoverFault::OutOfMemory) => Err(OutOfMemory),
    }
}

/// The covers of one family more than the front has, made from those of the front if these are known.
pub(crate) fn grown_with(
    alloc: Global,
    families: &[Numbers],
    front: usize,
    grown: Option<GrowingCovers>,
) -> Result<GrowingCovers, OutOfMemory>
    requires ascending { All IsAscending families.now }
    requires few { AreWithinLimit families.now max_covers }
    requires grown { IfSome grown (HasCovers families.now max_covers front) }
    requires more { front < length families.now }
    ensures { IfOk result (HasCovers families.now max_covers (front + 1)) }
{
    match grown {
        Some(before) => one_more(alloc, families, front, before),
        None => first_covers(alloc, families, front + 1),
    }
}

/// The covers of the first `count` families.
fn first_covers(
    alloc: Global,
    families: &[Numbers],
    count: usize,
) -> Result<GrowingCovers, OutOfMemory>
    requires ascending { All IsAscending families.now }
    requires few { AreWithinLimit families.now max_covers }
    requires within { count ≤ length families.now }
    ensures { IfOk result (HasCovers families.now max_covers count) }
{
    let mut grown = GrowingCovers::new(alloc, families)?;
    for front in 0..count {
        grown = one_more(alloc, families, front, grown)?;
    }
    Ok(grown)
}

/// The covers of one family more than the front has, made from those of the front.
fn one_more(
    alloc: Global,
    families: &[Numbers],
    front: usize,
    before: GrowingCovers,
) -> Result<GrowingCovers, OutOfMemory>
    requires ascending { All IsAscending families.now }
    requires few { AreWithinLimit families.now max_covers }
    requires before { HasCovers families.now max_covers front before }
    requires more { front < length families.now }
    ensures { IfOk result (HasCovers families.now max_covers (front + 1)) }
{
    match before.grow(alloc, families, front, MAX_COVERS) {
        Ok(grown) => Ok(grown),
        Err(CoverFault::TooManyCovers(_)) => unreachable!(),
        Err(CoverFault::OutOfMemory) => Err(OutOfMemory),
    }
}
