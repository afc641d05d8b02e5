//! The paths of a component by their stems, so that those that may lead to a path are found without the others of its head.
ghost use Rattle.std.specs.Prelude.{◌≡◌, ◌<◌, List, IfOk, IfSome, IsTrue, length};
ghost use Rattle.cls_path.specs.Paths.{TypePath};
ghost use Rattle.cls_taxon.specs.Orders.{class_by};
ghost use Rattle.cls_library.specs.Quick.{tells};
ghost use Rattle.cls_library.specs.Stems.{AreStems, IsStemTable, IsTableIf, numbers_of, stem_number};

use crate::chains::Chains;
use crate::stem::{is_deep, stem_number, tells};
use cls_base::OutOfMemory;
use cls_path::Path;
use cls_taxon::Taxonomy;
use std::alloc::Global;

/// So many paths with the ending of an earlier one are gone over one by one.
const FEW: usize = 64;

/// Chains of the paths whose stems of one length have one number, as in a hash table. What stems have one number is told apart by
/// the test of each path.
#[derive(Drop)]
pub(crate) struct StemTable {
    /// The length of the stems.
    pub depth: usize,
    /// Their numbers are below this one.
    pub count: u32,
    pub chains: Chains,
}

/// The tables of the stems of two and of three names and sides, where they are of use. Each takes 8 bytes for a path.
pub(crate) struct Stems {
    pub pairs: Option<StemTable>,
    pub triples: Option<StemTable>,
}

// Not derived, for the prover: so a caller's proof has one step where a value is dropped, and not one for each table.
impl Drop for Stems {
    fn drop(self) {
        let Stems {
            pairs: _,
            triples: _,
        } = self;
    }
}

impl StemTable {
    /// The table of the stems of this length, with as many numbers as there are paths.
    fn new(alloc: Global, paths: &[Path], depth: usize) -> Result<StemTable, OutOfMemory>
        requires { 0 < length paths.now }
        ensures { IfOk result (IsStemTable paths.now) }
    {
        let Ok(count) = u32::try_from(paths.len()) else {
            return Err(OutOfMemory);
        };
        let numbers = stem_numbers(alloc, paths, depth, count)?;
        let chains = Chains::new(alloc, &numbers, count as usize)?;
        Ok(StemTable {
            depth,
            count,
            chains,
        })
    }

    /// A table equal to this one.
    fn copy(&self, alloc: Global) -> Result<StemTable, OutOfMemory>
        ensures { IfOk result (λ copy. (ps : List TypePath) → IsStemTable ps self.now → IsStemTable ps copy) }
    {
        let chains = self.chains.copy(alloc)?;
        Ok(StemTable {
            depth: self.depth,
            count: self.count,
            chains,
        })
    }

    /// The number of the path's stem.
    pub fn number(&self, path: &Path) -> usize
        requires { 0 < self.now.count }
        ensures { result ≡ stem_number self.now.count self.now.depth path.now }
    {
        stem_number(path, self.depth, self.count) as usize
    }
}

impl Stems {
    /// The tables for these paths, which have so many endings. There is none where few paths share an ending, and none of three
    /// where no path has such a stem.
    pub fn new(alloc: Global, paths: &[Path], endings: usize) -> Result<Stems, OutOfMemory>
        ensures { IfOk result (AreStems paths.now) }
    {
        if paths.len().saturating_sub(endings) <= FEW {
            return Ok(Stems {
                pairs: None,
                triples: None,
            });
        }
        let pairs = Some(StemTable::new(alloc, paths, 2)?);
        let triples = table_if(alloc, paths, 3)?;
        Ok(Stems { pairs, triples })
    }

    /// Tables equal to these.
    pub fn copy(&self, alloc: Global) -> Result<Stems, OutOfMemory>
        ensures { IfOk result (λ copy. (ps : List TypePath) → AreStems ps self.now → AreStems ps copy) }
    {
        let pairs = copy_if(alloc, &self.pairs)?;
        let triples = copy_if(alloc, &self.triples)?;
        Ok(Stems { pairs, triples })
    }

    /// The table of the longest stems that tells which paths may be below this one, if there is one.
    pub fn find(&self, taxonomy: &Taxonomy, path: &Path) -> Option<&StemTable>
        ensures tells { IfSome result (λ found.
            IsTrue (tells (class_by taxonomy.now.pairs) found.now.depth path.now)) }
        ensures table { IfSome result (λ found.
            (ps : List TypePath) → AreStems ps self.now → IsStemTable ps found.now) }
    {
        match told(&self.triples, taxonomy, path) {
            Some(table) => Some(table),
            None => told(&self.pairs, taxonomy, path),
        }
    }
}

/// The table, if there is one and the path has a stem of its length that tells which paths may be below it.
fn told<'a>(table: &'a Option<StemTable>, taxonomy: &Taxonomy, path: &Path) -> Option<&'a StemTable>
    ensures tells { IfSome result (λ found.
        IsTrue (tells (class_by taxonomy.now.pairs) found.now.depth path.now)) }
    ensures table { IfSome result (λ found.
        (ps : List TypePath) → IsTableIf ps table.entry.now → IsStemTable ps found.now) }
{
    match table {
        Some(found) => {
            if tells(taxonomy, path, found.depth) {
                Some(found)
            } else {
                None
            }
        }
        None => None,
    }
}

/// The numbers of the paths' stems.
fn stem_numbers(
    alloc: Global,
    paths: &[Path],
    depth: usize,
    count: u32,
) -> Result<Vec<u32>, OutOfMemory>
    requires { 0 < count }
    ensures { IfOk result (λ numbers. numbers.items ≡ numbers_of count depth paths.now) }
{
    let mut numbers = Vec::with_capacity(alloc, paths.len())?;
    for path in paths {
        numbers.push(stem_number(path, depth, count))?;
    }
    Ok(numbers)
}

/// The table of the stems of this length, if a path has one.
fn table_if(alloc: Global, paths: &[Path], depth: usize) -> Result<Option<StemTable>, OutOfMemory>
    ensures { IfOk result (IsTableIf paths.now) }
{
    if paths.is_empty() || !is_some_deep(paths, depth) {
        return Ok(None);
    }
    Ok(Some(StemTable::new(alloc, paths, depth)?))
}

/// Whether a path has a stem of this length. Nothing rests on it.
fn is_some_deep(paths: &[Path], depth: usize) -> bool {
    for path in paths {
        if is_deep(path, depth) {
            return true;
        }
    }
    false
}

/// A table equal to this one, if there is one.
fn copy_if(alloc: Global, table: &Option<StemTable>) -> Result<Option<StemTable>, OutOfMemory>
    ensures { IfOk result (λ copy. (ps : List TypePath) → IsTableIf ps table.now → IsTableIf ps copy) }
{
    match table {
        Some(table) => Ok(Some(table.copy(alloc)?)),
        None => Ok(None),
    }
}
