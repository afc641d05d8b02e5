//! The variances of names.
ghost use Rattle.std.specs.Prelude.{◌≡◌, map, IfOk};
ghost use Rattle.cls_base.specs.Lists.{AreDistinct};
ghost use Rattle.cls_base.specs.Taxa.{variance_of};
ghost use Rattle.cls_taxon.specs.Orders.{variance_in};
ghost use Rattle.cls_taxon.specs.Variances.{declared_of};

use cls_base::{Name, OutOfMemory, Variance};
use indexmap::IndexMap;
use std::alloc::Global;
use std::marker::Model;

/// Names with a variance, seen as the list of them in the order in which they were declared.
#[derive(Drop)]
pub struct Variances {
    by_name: IndexMap<u32, Variance>,
}

impl Model for Variances {
    ghost use Rattle.std.specs.Prelude.{ℕ, List, map};
    ghost use Rattle.cls_base.specs.Taxonomies as taxonomies;
    ghost use Rattle.cls_taxon.specs.Variances.{entry_of};

    ghost Value = { List (ℕ × taxonomies.Variance) };

    ghost view = { λ v. map entry_of v.by_name.entries };
}

impl Variances {
    /// These names with their variances. No name stands twice.
    pub fn new(alloc: Global, declared: &[(Name, Variance)]) -> Result<Variances, OutOfMemory>
        requires { AreDistinct (map (λ d. d.0.0) declared.now) }
        ensures { IfOk result (λ v. v ≡ map declared_of declared.now) }
    {
        let mut by_name = IndexMap::new(alloc);
        for (name, variance) in declared {
            by_name.insert(name.0, *variance)?;
        }
        Ok(Variances { by_name })
    }

    /// Names with variances equal to these.
    pub fn copy(&self) -> Result<Variances, OutOfMemory>
        ensures { IfOk result (λ copy. copy ≡ self.now) }
    {
        Ok(Variances {
            by_name: self.by_name.clone()?,
        })
    }

    /// The variance of the name. One that has none is covariant.
    pub fn of(&self, name: Name) -> Variance
        ensures { variance_of result ≡ variance_in self.now name.0 }
    {
        match self.by_name.get(&name.0) {
            Some(variance) => *variance,
            None => Variance::Co,
        }
    }
}
