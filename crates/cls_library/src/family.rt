//! The family of a path: the arrows of a component that lead to it.
ghost use Rattle.std.specs.Prelude.{◌≡◌, IfOk, IsTrue, OnOk, Some, length};
ghost use Rattle.std.specs.List.Sorted.{IsStrictlyIncreasing};
ghost use Rattle.cls_path.specs.Paths.{listed, Suits, SuitsAll};
ghost use Rattle.cls_taxon.specs.Orders.{class_by};
ghost use Rattle.cls_library.specs.Arrows.{arrows_of};
ghost use Rattle.cls_library.specs.Chains.{AreChained};
ghost use Rattle.cls_library.specs.Endings.{AreEndings, IsFound, IsSought, ending_behind, ending_of, head_of, is_alone};
ghost use Rattle.cls_library.specs.Families.{IsFamilyIn};
ghost use Rattle.cls_library.specs.Libraries.{variances_in};
ghost use Rattle.cls_library.specs.Quick.{tells};
ghost use Rattle.cls_library.specs.Splits.{PutsPosition, arrows_at_places, places_from};
ghost use Rattle.cls_library.specs.Stems.{AreStems, HoldsLeading, IsStemTable};

use crate::arrow::target_of;
use crate::chains::Chains;
use crate::column::Column;
use crate::ending::Ending;
use crate::endings::Endings;
use crate::sought::Sought;
use crate::stems::StemTable;
use cls_base::OutOfMemory;
use cls_path::Path;
use cls_taxon::Taxonomy;
use std::alloc::Global;

/// The strictly ascending positions of the arrows in the column whose target is below the path. The place of a path's ending
/// among the kinds stands at its own place, and only those are tested whose ending may be below that of the path.
pub(crate) fn family_of(
    alloc: Global,
    taxonomy: &Taxonomy,
    paths: &[Path],
    column: &Column,
    count: usize,
    kinds: &[Ending],
    endings: &[u32],
    sought: Sought,
    path: &Path,
) -> Result<Vec<u32>, OutOfMemory>
    requires column { column.now ≡ places_from count 0 paths.now }
    requires endings { AreEndings kinds.now endings.now paths.now }
    requires sought { IsSought taxonomy.now path.now sought }
    requires paths { SuitsAll (variances_in taxonomy.now) (listed paths.now) }
    requires suits { Suits (variances_in taxonomy.now) path.now }
    ensures { IfOk result (λ family.
        IsFamilyIn taxonomy.now (arrows_at_places count paths.now column.now) path.now family.items) }
{
    let mut family = Vec::new(alloc);
    for i in 0..column.len() {
        let place = column.get(i);
        let lower = kinds[endings[place] as usize];
        if lower.may_lead(taxonomy, count, sought)
            && target_of(&paths[place], count).le(taxonomy, path)
        {
            let Ok(position) = u32::try_from(i) else {
                return Err(OutOfMemory);
            };
            family.push(position)?;
        }
    }
    Ok(family)
}

/// The same for a path to which the paths of one ending alone may lead: only these are tested, and of these only those of the
/// path's stem where there is a table of such stems. `kind` is the place of that ending.
pub(crate) fn family_along(
    alloc: Global,
    taxonomy: &Taxonomy,
    paths: &[Path],
    column: &Column,
    count: usize,
    endings: &Endings,
    kind: usize,
    path: &Path,
) -> Result<Vec<u32>, OutOfMemory>
    requires column { column.now ≡ places_from count 0 paths.now }
    requires endings { AreEndings endings.now.kinds.keys endings.now.places.items paths.now }
    requires chains { AreChained 0 (length endings.now.kinds.keys)
        endings.now.places.items endings.now.chains.firsts.items endings.now.chains.next.items }
    requires stems { AreStems paths.now endings.now.stems }
    requires kind { IsFound endings.now.kinds.keys (ending_behind count (ending_of path.now)) (Some kind) }
    requires alone { IsTrue (is_alone (class_by taxonomy.now.pairs) (head_of path.now)) }
    requires paths { SuitsAll (variances_in taxonomy.now) (listed paths.now) }
    requires suits { Suits (variances_in taxonomy.now) path.now }
    ensures { IfOk result (λ family.
        IsFamilyIn taxonomy.now (arrows_of count (listed paths.now)) path.now family.items) }
{
    match endings.stems.find(taxonomy, path) {
        Some(table) => family_by_stem(alloc, taxonomy, paths, column, count, table, path),
        None => family_in_chain(
            alloc,
            taxonomy,
            paths,
            column,
            count,
            &endings.chains,
            kind,
            path,
        ),
    }
}

/// The same for a path whose stem tells which paths may be below it.
fn family_by_stem(
    alloc: Global,
    taxonomy: &Taxonomy,
    paths: &[Path],
    column: &Column,
    count: usize,
    table: &StemTable,
    path: &Path,
) -> Result<Vec<u32>, OutOfMemory>
    requires column { column.now ≡ places_from count 0 paths.now }
    requires table { IsStemTable paths.now table.now }
    requires tells { IsTrue (tells (class_by taxonomy.now.pairs) table.now.depth path.now) }
    requires paths { SuitsAll (variances_in taxonomy.now) (listed paths.now) }
    requires suits { Suits (variances_in taxonomy.now) path.now }
    ensures { IfOk result (λ family.
        IsFamilyIn taxonomy.now (arrows_of count (listed paths.now)) path.now family.items) }
{
    let kind = table.number(path);
    family_in_chain(
        alloc,
        taxonomy,
        paths,
        column,
        count,
        &table.chains,
        kind,
        path,
    )
}

/// The same where all paths that lead to the path are in one chain: only these are tested.
fn family_in_chain(
    alloc: Global,
    taxonomy: &Taxonomy,
    paths: &[Path],
    column: &Column,
    count: usize,
    chains: &Chains,
    kind: usize,
    path: &Path,
) -> Result<Vec<u32>, OutOfMemory>
    requires column { column.now ≡ places_from count 0 paths.now }
    requires chain { HoldsLeading taxonomy.now count path.now paths.now
        chains.now.firsts.items chains.now.next.items kind }
    requires paths { SuitsAll (variances_in taxonomy.now) (listed paths.now) }
    requires suits { Suits (variances_in taxonomy.now) path.now }
    ensures { IfOk result (λ family.
        IsFamilyIn taxonomy.now (arrows_of count (listed paths.now)) path.now family.items) }
{
    let mut family = Vec::new(alloc);
    let mut place = chains.firsts[kind] as usize;
    while place < paths.len() {
        if target_of(&paths[place], count).le(taxonomy, path) {
            put_position(&mut family, column, place)?;
        }
        place = chains.next[place] as usize;
    }
    Ok(family)
}

/// Puts the position of the place in the column behind the others, if the place stands there.
fn put_position(family: &mut Vec<u32>, column: &Column, place: usize) -> Result<(), OutOfMemory>
    requires { IsStrictlyIncreasing column.now }
    ensures { OnOk result (PutsPosition column.now place family.old.items family.new.items) }
{
    let Some(i) = column.position_of(place) else {
        return Ok(());
    };
    let Ok(position) = u32::try_from(i) else {
        return Err(OutOfMemory);
    };
    family.push(position)?;
    Ok(())
}
