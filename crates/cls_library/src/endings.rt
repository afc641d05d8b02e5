//! The endings of the paths of a component.
ghost use Rattle.std.specs.Prelude.{◌≡◌, IfOk, List, length};
ghost use Rattle.std.specs.List.{list_any};
ghost use Rattle.cls_path.specs.Paths.{TypePath};
ghost use Rattle.cls_taxon.specs.Decisions.{is_below};
ghost use Rattle.cls_taxon.specs.Orders.{class_by};
ghost use Rattle.cls_library.specs.Chains.{AreChained};
ghost use Rattle.cls_library.specs.Endings.{AreEndings, IsFound, is_alone, may_end_below};
ghost use Rattle.cls_library.specs.Stems.{AreStems};

use crate::chains::Chains;
use crate::ending::Ending;
use crate::sought::Sought;
use crate::stems::Stems;
use cls_base::OutOfMemory;
use cls_path::Path;
use cls_taxon::Taxonomy;
use indexmap::IndexSet;
use std::alloc::Global;

/// So many endings are gone over one by one.
const FEW: usize = 8;

/// Different endings, for each path the place of its own among them, the chains of the paths of one ending, and those of one stem.
#[derive(Drop)]
pub(crate) struct Endings {
    pub kinds: IndexSet<Ending>,
    pub places: Vec<u32>,
    pub chains: Chains,
    pub stems: Stems,
}

impl Endings {
    /// The endings of the paths.
    pub fn new(alloc: Global, paths: &[Path]) -> Result<Endings, OutOfMemory>
        ensures endings { IfOk result (λ made. AreEndings made.kinds.keys made.places.items paths.now) }
        ensures chains { IfOk result (λ made. AreChained
            0 (length made.kinds.keys) made.places.items made.chains.firsts.items made.chains.next.items) }
        ensures stems { IfOk result (λ made. AreStems paths.now made.stems) }
    {
        let mut kinds = IndexSet::new(alloc);
        let mut places = Vec::with_capacity(alloc, paths.len())?;
        for path in paths {
            let (place, _) = kinds.insert_full(Ending::of(path))?;
            let Ok(place) = u32::try_from(place) else {
                return Err(OutOfMemory);
            };
            places.push(place)?;
        }
        let chains = Chains::new(alloc, &places, kinds.len())?;
        let stems = Stems::new(alloc, paths, kinds.len())?;
        Ok(Endings {
            kinds,
            places,
            chains,
            stems,
        })
    }

    /// Endings equal to these.
    pub fn copy(&self, alloc: Global) -> Result<Endings, OutOfMemory>
        ensures kinds { IfOk result (λ copy. copy.kinds.keys ≡ self.now.kinds.keys) }
        ensures places { IfOk result (λ copy. copy.places.items ≡ self.now.places.items) }
        ensures firsts { IfOk result (λ copy. copy.chains.firsts.items ≡ self.now.chains.firsts.items) }
        ensures next { IfOk result (λ copy. copy.chains.next.items ≡ self.now.chains.next.items) }
        ensures stems { IfOk result (λ copy.
            (ps : List TypePath) → AreStems ps self.now.stems → AreStems ps copy.stems) }
    {
        let kinds = self.kinds.clone()?;
        let places = Vec::from_slice(alloc, self.places.as_slice())?;
        let chains = self.chains.copy(alloc)?;
        let stems = self.stems.copy(alloc)?;
        Ok(Endings {
            kinds,
            places,
            chains,
            stems,
        })
    }

    /// The place of the ending among the different ones, if it is one of them.
    pub fn find(&self, ending: Ending) -> Option<usize>
        ensures { IsFound self.now.kinds.keys ending result }
    {
        if self.kinds.len() > FEW {
            return self.kinds.get_index_of(&ending);
        }
        for (place, kind) in self.kinds.as_slice().iter().enumerate() {
            if ending == *kind {
                return Some(place);
            }
        }
        None
    }

    /// Whether there are so many endings that one of them is looked up.
    pub fn are_many(&self) -> bool {
        self.kinds.len() > FEW
    }

    /// Whether a path of some ending, behind its first `count` arrows, may be below one of the ending that is sought.
    pub fn may_lead(&self, taxonomy: &Taxonomy, count: usize, sought: Sought) -> bool
        requires { sought.alone ≡ is_alone (class_by taxonomy.now.pairs) sought.ending.head }
        ensures { result ≡ list_any
            (λ lower. may_end_below (is_below taxonomy.now) count lower sought.ending) self.now.kinds.keys }
    {
        for lower in self.kinds.as_slice() {
            if lower.may_lead(taxonomy, count, sought) {
                return true;
            }
        }
        false
    }
}
