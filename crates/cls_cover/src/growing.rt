//! The minimal covers of the first families, as they grow family by family.
ghost use Rattle.std.specs.Prelude.{ℕ, ◌+◌, ◌<◌, IfOk, IfErr, List, All, length, take};
ghost use Rattle.cls_cover.specs.Lists.{IsAscending};
ghost use Rattle.cls_cover.specs.Covers.{AreCovers};
ghost use Rattle.cls_cover.specs.Faults.{HasCause};
ghost use Rattle.cls_cover.specs.Fronts.{HasCovers};

use crate::large::{LargeCovers, grow_large, list_large, start_large};
use crate::minimal::CoverFault;
use crate::sets::sets_of;
use crate::small::{SmallCovers, grow_small, list_small, start_small};
use cls_base::{NumberLists, Numbers, OutOfMemory};
use std::alloc::Global;

/// The minimal covers of so many of the first families, with what makes those of one family more.
///
/// It holds no families: [`GrowingCovers::grow`] is given those that [`GrowingCovers::new`] was given, and how many it has the
/// covers of.
pub struct GrowingCovers {
    kind: Kind,
}

/// How the covers are kept.
#[derive(Drop)]
pub(crate) enum Kind {
    /// As sets, since each position of the families is below 128.
    Small(SmallCovers),
    /// As lists, with flags of the families that they meet.
    Large(LargeCovers),
}

// Not derived, for the prover: so a caller's proof has one step where a value is dropped, and not one for each part of it.
impl Drop for GrowingCovers {
    fn drop(self) {
        let GrowingCovers { kind: _ } = self;
    }
}

impl GrowingCovers {
    /// The cover of none of these families. The only error is out of memory.
    pub fn new(alloc: Global, families: &[Numbers]) -> Result<GrowingCovers, OutOfMemory>
        ensures { IfOk result (λ covers. (limit : ℕ) → 0 < limit → HasCovers families.now limit 0 covers) }
    {
        let found = sets_of(alloc, families)?;
        match found {
            Some(sets) => {
                let small = start_small(alloc, sets)?;
                Ok(GrowingCovers {
                    kind: Kind::Small(small),
                })
            }
            None => {
                let large = start_large(alloc, families)?;
                Ok(GrowingCovers {
                    kind: Kind::Large(large),
                })
            }
        }
    }

    /// The covers of one family more, made from those of the first `count`.
    pub fn grow(
        self,
        alloc: Global,
        families: &[Numbers],
        count: usize,
        limit: u32,
    ) -> Result<GrowingCovers, CoverFault>
        requires ascending { All IsAscending families.now }
        requires covers { HasCovers families.now limit count self }
        requires more { count < length families.now }
        ensures covers { IfOk result (λ covers. HasCovers families.now limit (count + 1) covers) }
        ensures fault { IfErr result (HasCause families.now limit) }
    {
        let GrowingCovers { kind } = self;
        match kind {
            Kind::Small(mut small) => {
                grow_small(families, count, limit, &mut small)?;
                Ok(GrowingCovers {
                    kind: Kind::Small(small),
                })
            }
            Kind::Large(before) => {
                let large = grow_large(alloc, families, count, limit, before)?;
                Ok(GrowingCovers {
                    kind: Kind::Large(large),
                })
            }
        }
    }

    /// The covers, in lexicographic order. The only error is out of memory.
    pub fn covers(&self, alloc: Global) -> Result<NumberLists, OutOfMemory>
        requires { (families : List (List ℕ)) × (limit : ℕ) × (count : ℕ)
            × HasCovers families limit count self.now }
        ensures { (families : List (List ℕ)) (limit count : ℕ) → HasCovers families limit count self.now
            → IfOk result (AreCovers (take count families)) }
    {
        match &self.kind {
            Kind::Small(small) => list_small(alloc, small),
            Kind::Large(large) => list_large(alloc, large),
        }
    }
}
