//! Arrows of a component of which some are kept.
ghost use Rattle.std.specs.Prelude.{◌≡◌, ◌<◌, ◌==◌, [], Some, length, slice_get};
ghost use Rattle.std.specs.List.{swap_remove};
ghost use Rattle.cls_check.specs.Deciding.{no_arrow};

use cls_library::{Arrows, MultiArrow};
use smallvec::SmallVec;
use std::alloc::Global;
use std::marker::Model;

/// Positions of arrows, of which mostly few are kept.
pub(crate) type Positions = SmallVec<usize, 4>;

/// Arrows of a component of which some are kept. They are seen as the list of those.
#[derive(Drop)]
pub(crate) struct KeptArrows<'l> {
    pub(crate) arrows: Arrows<'l>,
    pub(crate) positions: Positions,
}

impl<'l> Model for KeptArrows<'l> {
    ghost use Rattle.std.specs.Prelude.{List, length, map};
    ghost use Rattle.std.specs.Coded.{coded_list};
    ghost use Rattle.cls_base.specs.Lists.{AreBelow};
    ghost use Rattle.cls_library.specs.Arrows as definitions;
    ghost use Rattle.cls_library.specs.Stored.{coded_arrow};

    ghost Value = { List definitions.MultiArrow };

    ghost coded = { coded_list coded_arrow };

    ghost use Rattle.cls_check.specs.Deciding.{arrow_of};

    ghost view = { λ k. map (arrow_of k.arrows) k.positions.items };

    ghost invariant = { λ k. AreBelow (length k.arrows) k.positions.items };
}

impl<'l> KeptArrows<'l> {
    /// None of the arrows.
    pub(crate) fn none(alloc: Global, arrows: Arrows<'l>) -> KeptArrows<'l>
        ensures { result ≡ [] }
    {
        KeptArrows {
            arrows,
            positions: SmallVec::new(alloc),
        }
    }

    /// The number of arrows.
    pub(crate) fn len(&self) -> usize
        ensures { result ≡ length self.now }
    {
        self.positions.len()
    }

    /// Whether there is none.
    pub(crate) fn is_empty(&self) -> bool
        ensures { result ≡ (length self.now == 0) }
    {
        self.positions.is_empty()
    }

    /// The arrow with this number, counted from 0.
    pub(crate) fn get(&self, i: usize) -> MultiArrow<'l>
        requires { i < length self.now }
        ensures { slice_get self.now i ≡ Some result }
    {
        self.arrows.get(self.positions[i])
    }

    /// Drops the arrow with this number, and moves the last one into its place.
    pub(crate) fn swap_remove(&mut self, i: usize)
        requires { i < length self.old }
        ensures { self.new ≡ swap_remove self.old i no_arrow }
    {
        self.positions.swap_remove(i);
    }
}
