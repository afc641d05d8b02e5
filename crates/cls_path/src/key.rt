//! Intersections of paths as keys of a table.
use crate::path::Nf;
use cls_base::{Key, OutOfMemory};
use std::alloc::Global;
use std::hash::{Hash, Hasher};

impl PartialEq for Nf {
    ghost use Rattle.std.specs.Ordering.{eq_by_cmp};
    ghost use Rattle.std.specs.Cmp.{partial_equiv_from_equiv};
    ghost use Rattle.cls_path.specs.PathOrder.{list_order};
    ghost use Rattle.cls_path.specs.OrderLaws.{list_equal};

    ghost eq = { eq_by_cmp list_order };

    fn eq(&self, other: &Nf) -> bool {
        self.is_same(other)
    }

    ghost laws = { partial_equiv_from_equiv list_equal };
}

impl Eq for Nf {
    ghost use Rattle.cls_path.specs.OrderLaws.{list_equal};

    ghost laws = { list_equal };
}

impl Hash for Nf {
    ghost use Rattle.std.proofs.Common.{ap};
    ghost use Rattle.cls_path.specs.Feed.{list_writes};
    ghost use Rattle.cls_path.specs.OrderLaws.{list_same};

    ghost hash_input = { list_writes };

    fn hash<H: Hasher>(&self, state: &mut H) {
        self.feed(state);
    }

    ghost respects_eq = { λ x y e. ap list_writes (list_same x y e) };
}

impl Key for Nf {
    ghost use Rattle.cls_path.specs.OrderLaws.{list_same};

    fn copy(&self, alloc: Global) -> Result<Nf, OutOfMemory> {
        Ok(Nf::copy(self, alloc)?)
    }

    ghost exact = { list_same };
}
