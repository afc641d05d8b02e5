//! A component of a library.
ghost use Rattle.std.specs.Prelude.{◌≡◌, ℕ, ◌≤◌, [], false, IfOk, IsTrue};
ghost use Rattle.cls_base.specs.Limits.{max_arity};
ghost use Rattle.cls_path.specs.Paths.{TypePath, listed, Suits, SuitsAll};
ghost use Rattle.cls_taxon.specs.Orders.{Declared, class_by};
ghost use Rattle.cls_library.specs.Arrows.{arity_of, arrows_of};
ghost use Rattle.cls_library.specs.Endings.{IsSought, is_alone};
ghost use Rattle.cls_library.specs.Families.{IsFamilyIn};
ghost use Rattle.cls_library.specs.Libraries.{variances_in};

use crate::arrow::Arrows;
use crate::column::Column;
use crate::depths::Depths;
use crate::endings::Endings;
use crate::family::{family_along, family_of};
use crate::marks::Marks;
use crate::measure::arity;
use crate::sought::Sought;
use cls_base::{Numbers, OutOfMemory};
use cls_path::{Nf, Path};
use cls_taxon::Taxonomy;
use std::alloc::Global;
use std::marker::Model;

/// A component: its paths, the places of its arrows for each number of arguments, the endings of its paths, the flags of their
/// heads and of their numbers of arrows, and its weight. It is seen as its paths and its weight.
#[derive(Drop)]
pub(crate) struct Component {
    paths: Nf,
    columns: Vec<Column>,
    endings: Endings,
    marks: Marks,
    depths: Depths,
    weight: u64,
}

impl Model for Component {
    ghost use Rattle.cls_path.specs.Paths.{listed};
    ghost use Rattle.std.specs.Prelude.{length};
    ghost use Rattle.cls_library.specs.Chains.{AreChained};
    ghost use Rattle.cls_library.specs.Endings.{AreDeep, AreMarked, IsKept};
    ghost use Rattle.cls_library.specs.Libraries as libraries;
    ghost use Rattle.cls_library.specs.Stems.{AreStems};
    ghost use Rattle.cls_library.specs.Stored.{coded_component};

    ghost Value = { libraries.Component };

    ghost coded = { coded_component };

    ghost view = { λ c. record { paths = listed c.paths; weight = c.weight } };

    ghost invariant = { λ c. IsKept c.paths c.columns.items c.endings.kinds.keys c.endings.places.items
        × AreMarked c.marks.words c.paths
        × AreChained 0 (length c.endings.kinds.keys)
        c.endings.places.items c.endings.chains.firsts.items c.endings.chains.next.items
        × AreDeep c.depths.word c.paths
        × AreStems c.paths c.endings.stems };
}

impl Component {
    /// The component with these paths, which have few leading arrows, and this weight.
    pub fn new(alloc: Global, paths: Nf, weight: u64) -> Result<Component, OutOfMemory>
        requires { arity_of (listed paths) ≤ max_arity }
        ensures { IfOk result (λ c. c ≡ record { paths = listed paths; weight = weight }) }
    {
        let endings = Endings::new(alloc, paths.paths())?;
        let kinds = endings.kinds.as_slice();
        let mut columns = Vec::new(alloc);
        for count in 0..arity(&paths) + 1 {
            columns.push(Column::new(alloc, paths.paths(), kinds, &endings.places, count)?)?;
        }
        let marks = Marks::of(kinds);
        let depths = Depths::of(kinds);
        Ok(Component {
            paths,
            columns,
            endings,
            marks,
            depths,
            weight,
        })
    }

    /// A component equal to this one.
    pub fn copy(&self, alloc: Global) -> Result<Component, OutOfMemory>
        ensures { IfOk result (λ copy. copy ≡ self.now) }
    {
        let paths = self.paths.copy(alloc)?;
        let columns = copy_columns(alloc, &self.columns)?;
        let endings = self.endings.copy(alloc)?;
        Ok(Component {
            paths,
            columns,
            endings,
            marks: self.marks,
            depths: self.depths,
            weight: self.weight,
        })
    }

    /// The sum of spread + 1 over its instances.
    pub fn weight(&self) -> u64
        ensures { result ≡ self.now.weight }
    {
        self.weight
    }

    /// The paths.
    pub fn paths(&self) -> &Nf
        ensures { listed result.now ≡ self.now.paths }
    {
        &self.paths
    }

    /// The greatest number of arguments that an arrow takes.
    pub fn arity(&self) -> usize
        ensures { result ≡ arity_of self.now.paths }
    {
        self.columns.len() - 1
    }

    /// The arrows that take so many arguments.
    pub fn arrows(&self, count: usize) -> Arrows<'_>
        requires { count ≤ arity_of self.now.paths }
        ensures { result ≡ arrows_of count self.now.paths }
    {
        Arrows::new(self.paths.paths(), &self.columns[count], count)
    }

    /// Whether an arrow may lead to the path for which this is sought, by the flags of heads. If not, none does.
    pub fn may_lead(&self, sought: Sought) -> bool
        ensures { result ≡ false → (d : Declared) (q : TypePath) → IsSought d q sought
            → (n : ℕ) → IsFamilyIn d (arrows_of n self.now.paths) q [] }
    {
        if sought.alone {
            self.marks.has(sought.ending.head)
        } else {
            true
        }
    }

    /// The same for the arrows that take so many arguments, by the flags of numbers of arrows, and by the endings of the paths
    /// if these are few or another head may be below the one that is sought.
    pub fn may_lead_by(&self, taxonomy: &Taxonomy, count: usize, sought: Sought) -> bool
        requires { sought.alone ≡ is_alone (class_by taxonomy.now.pairs) sought.ending.head }
        ensures { result ≡ false → (q : TypePath) → IsSought taxonomy.now q sought
            → IsFamilyIn taxonomy.now (arrows_of count self.now.paths) q [] }
    {
        if !self.depths.has(sought.ending.behind(count).arrows) {
            return false;
        }
        if sought.alone && self.endings.are_many() {
            return true;
        }
        self.endings.may_lead(taxonomy, count, sought)
    }

    /// The strictly ascending positions of the arrows that take so many arguments and whose target is below the path. Only
    /// those are tested that have as many arrows behind the first `count` as the path, and whose head may be below that of
    /// the path.
    pub fn family(
        &self,
        alloc: Global,
        taxonomy: &Taxonomy,
        count: usize,
        path: &Path,
    ) -> Result<Numbers, OutOfMemory>
        requires within { count ≤ arity_of self.now.paths }
        requires paths { SuitsAll (variances_in taxonomy.now) self.now.paths }
        requires suits { Suits (variances_in taxonomy.now) path.now }
        ensures { IfOk result (IsFamilyIn taxonomy.now (arrows_of count self.now.paths) path.now) }
    {
        let sought = Sought::of(taxonomy, path);
        if sought.alone {
            return self.family_along(alloc, taxonomy, count, sought, path);
        }
        if !self.may_lead_by(taxonomy, count, sought) {
            return Ok(Numbers::new(Vec::new(alloc)));
        }
        let family = family_of(
            alloc,
            taxonomy,
            self.paths.paths(),
            &self.columns[count],
            count,
            self.endings.kinds.as_slice(),
            &self.endings.places,
            sought,
            path,
        )?;
        Ok(Numbers::new(family))
    }

    /// The same for a path whose head is alone.
    fn family_along(
        &self,
        alloc: Global,
        taxonomy: &Taxonomy,
        count: usize,
        sought: Sought,
        path: &Path,
    ) -> Result<Numbers, OutOfMemory>
        requires sought { IsSought taxonomy.now path.now sought }
        requires alone { IsTrue sought.alone }
        requires within { count ≤ arity_of self.now.paths }
        requires paths { SuitsAll (variances_in taxonomy.now) self.now.paths }
        requires suits { Suits (variances_in taxonomy.now) path.now }
        ensures { IfOk result (IsFamilyIn taxonomy.now (arrows_of count self.now.paths) path.now) }
    {
        let Some(kind) = self.endings.find(sought.ending.behind(count)) else {
            return Ok(Numbers::new(Vec::new(alloc)));
        };
        let family = family_along(
            alloc,
            taxonomy,
            self.paths.paths(),
            &self.columns[count],
            count,
            &self.endings,
            kind,
            path,
        )?;
        Ok(Numbers::new(family))
    }
}

/// The columns once more.
fn copy_columns(alloc: Global, columns: &[Column]) -> Result<Vec<Column>, OutOfMemory>
    ensures { IfOk result (λ copy. copy.items ≡ columns.now) }
{
    let mut copy = Vec::with_capacity(alloc, columns.len())?;
    for column in columns {
        copy.push(column.copy(alloc)?)?;
    }
    Ok(copy)
}
