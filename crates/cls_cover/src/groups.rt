ghost use Rattle.std.specs.Prelude.{◌≡◌, ℕ, ◌<◌, ◌⊎◌, IfOk, List, [], length, false};
ghost use Rattle.std.specs.List.Sorted.{IsPermutation};
ghost use Rattle.cls_cover.specs.Members.{Member, Ascending};
ghost use Rattle.cls_cover.specs.Groups.{HasRowOf, AreRuns, AreGroups};

use crate::rows::{Row, hash_at};
use cls_base::{NumberLists, Numbers, OutOfMemory};
use std::alloc::Global;

/// The positions of the family in groups. Those of a group stand in the same families: what is found of one holds of all.
pub(crate) fn groups_of(
    alloc: Global,
    rows: &[Row],
    family: &Numbers,
) -> Result<NumberLists, OutOfMemory>
    requires ascending { Ascending family.now }
    requires below { (x : ℕ) → Member family.now x → x < length rows.now }
    ensures { IfOk result (λ groups. AreGroups rows.now family.now groups) }
{
    let positions = arranged(alloc, rows, family)?;
    Ok(runs(alloc, rows, positions.as_slice())?)
}

/// The positions of the family, those with equal rows beside one another.
fn arranged(alloc: Global, rows: &[Row], family: &Numbers) -> Result<Vec<u32>, OutOfMemory>
    ensures { IfOk result (λ all. IsPermutation family.now all.items) }
{
    let mut all = Vec::from_slice(alloc, family.as_slice())?;
    all.sort_unstable_by_key(|x| hash_at(rows, *x));
    Ok(all)
}

/// The positions in groups of equal rows that stand beside one another.
fn runs(alloc: Global, rows: &[Row], positions: &[u32]) -> Result<NumberLists, OutOfMemory>
    requires { (x : ℕ) → Member positions.now x → x < length rows.now }
    ensures { IfOk result (λ groups. AreRuns rows.now positions.now groups) }
{
    let mut groups = NumberLists::new(alloc);
    let mut group: Vec<u32> = Vec::new(alloc);
    for x in positions {
        if !belongs(rows, group.as_slice(), *x) {
            groups.push(&group)?;
            group.clear();
        }
        group.push(*x)?;
    }
    groups.push(&group)?;
    Ok(groups)
}

/// Whether the position has the row of the group's first one. Each position belongs to an empty group.
fn belongs(rows: &[Row], group: &[u32], x: u32) -> bool
    requires group { (y : ℕ) → Member group.now y → y < length rows.now }
    requires here { x < length rows.now }
    ensures { (result ≡ false) ⊎ HasRowOf rows.now group.now x }
{
    match group.first() {
        Some(y) => rows[*y as usize].flags().is_same(rows[x as usize].flags()),
        None => true,
    }
}
