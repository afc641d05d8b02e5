//! Least paths, found group by group: if one path is below another, their heads have one class, and so have the first names on
//! their ways, as many as each path of the group has. The same is true of the names of their sources, where each path of the
//! group has names of one class there. Names below which there is no other one are even equal. Only paths of one group are
//! compared.
ghost use Rattle.std.specs.List.{IsDistinct};
ghost use Rattle.std.specs.Prelude.{◌≡◌, ◌⊎◌, ◌↔◌, Contains, IsTrue, IfOk, OnOk};
ghost use Rattle.cls_base.specs.Taxa.{Below};
ghost use Rattle.cls_path.specs.Paths.{TypePath, SuitsAll, listed};
ghost use Rattle.cls_path.specs.NormalForms.{EachCanonical};
ghost use Rattle.cls_path.specs.Groups.{Holds, AreKeyed, AreGroups, IsReduced, comparable};
ghost use Rattle.cls_path.specs.Labels.{Fits, key_of};

use crate::clear::cleared;
use crate::label::{GroupKey, Mask};
use crate::meet::pairwise;
use crate::path::Path;
use cls_base::{OutOfMemory, Taxa};
use indexmap::IndexSet;
use std::alloc::Global;
use std::marker::Model;

/// So many paths are compared pairwise at once.
const FEW: usize = 16;

/// Paths with one key, seen as the list of them.
#[derive(Drop)]
struct Group {
    paths: Vec<Path>,
}

impl Model for Group {
    ghost use Rattle.std.specs.Prelude.{List};
    ghost use Rattle.std.specs.Coded.{coded_list};
    ghost use Rattle.cls_path.specs.Paths.{TypePath};
    ghost use Rattle.cls_path.specs.Stored.{coded_path};

    ghost Value = { List TypePath };

    ghost coded = { coded_list coded_path };

    ghost view = { λ g. g.paths.items };
}

/// The paths that no other one is below, each once, in no order. If no two have one key, they are left as they are. Else, with
/// 3 `rounds`, they are grouped by the classes of their heads, and each group then has two rounds by what its mask says of all
/// its paths. Before a round, what is above one of its paths is dropped. With no round, as in groups of few paths, they are
/// compared pairwise. The only error is out of memory.
pub(crate) fn reduced<T: Taxa>(
    alloc: Global,
    taxa: &T,
    paths: Vec<Path>,
    rounds: u8,
) -> Result<Vec<Path>, OutOfMemory>
    requires suits { SuitsAll (T.variance_of_name taxa.now) (listed paths.items) }
    requires canonical { EachCanonical (Below (T.is_below taxa.now)) (T.variance_of_name taxa.now)
        (listed paths.items) }
    ensures { IfOk result (λ least.
        IsReduced (T.is_below taxa.now) (T.variance_of_name taxa.now) paths.items least.items) }
{
    if paths.len() <= 1 {
        return Ok(paths);
    }
    if rounds == 0 || paths.len() <= FEW {
        return pairwise(alloc, taxa, paths);
    }
    let all = Mask::of(taxa, &paths);
    if are_apart(alloc, taxa, &paths, all)? {
        return Ok(paths);
    }
    let mask = all.in_round(rounds);
    let mut groups = grouped(alloc, taxa, paths, mask)?;
    let mut least = Vec::new(alloc);
    while let Some(group) = groups.pop() {
        let rest = cleared(alloc, taxa, group.paths)?;
        let mut few = reduced(alloc, taxa, rest, rounds - 1)?;
        least.append(&mut few)?;
    }
    Ok(least)
}

/// True only if no two of the paths have one key by the mask. Then no path is below another.
fn are_apart<T: Taxa>(
    alloc: Global,
    taxa: &T,
    paths: &[Path],
    mask: Mask,
) -> Result<bool, OutOfMemory>
    requires suits { SuitsAll (T.variance_of_name taxa.now) (listed paths.now) }
    requires fits { (p : TypePath) → Contains paths.now p
        → Fits (Below (T.is_below taxa.now)) (T.class taxa.now) mask p }
    ensures { IfOk result (λ apart. IsTrue apart
        → IsDistinct (comparable (T.is_below taxa.now) (T.variance_of_name taxa.now)) paths.now) }
{
    // The digests of all keys take much less memory than the keys, and few keys share one.
    let mut digests = IndexSet::with_capacity(alloc, paths.len())?;
    for path in paths {
        if !digests.insert(GroupKey::of(taxa, path, mask).digest())? {
            return Ok(false);
        }
    }
    Ok(true)
}

/// The paths in groups by their heads and by the spans of the mask.
fn grouped<T: Taxa>(
    alloc: Global,
    taxa: &T,
    mut paths: Vec<Path>,
    mask: Mask,
) -> Result<Vec<Group>, OutOfMemory>
    requires suits { SuitsAll (T.variance_of_name taxa.now) (listed paths.items) }
    requires fits { (p : TypePath) → Contains paths.items p
        → Fits (Below (T.is_below taxa.now)) (T.class taxa.now) mask p }
    ensures { IfOk result (λ groups.
        AreGroups (T.is_below taxa.now) (T.variance_of_name taxa.now) paths.items groups.items) }
{
    let mut keys = IndexSet::new(alloc);
    let mut groups = Vec::new(alloc);
    while let Some(path) = paths.pop() {
        put_in_group(alloc, taxa, mask, &mut keys, &mut groups, path)?;
    }
    Ok(groups)
}

/// Puts the path into the group of its key.
fn put_in_group<T: Taxa>(
    alloc: Global,
    taxa: &T,
    mask: Mask,
    keys: &mut IndexSet<GroupKey>,
    groups: &mut Vec<Group>,
    path: Path,
) -> Result<(), OutOfMemory>
    requires { AreKeyed (key_of (T.class taxa.now) mask) keys.old.keys groups.old.items }
    ensures keyed { OnOk result (AreKeyed (key_of (T.class taxa.now) mask) keys.new.keys groups.new.items) }
    ensures held { OnOk result ((p : TypePath) → Holds groups.new.items p ↔ (Holds groups.old.items p ⊎ (p ≡ path))) }
{
    let key = GroupKey::of(taxa, &path, mask);
    match keys.get_index_of(&key) {
        Some(place) => groups[place].paths.push(path)?,
        None => {
            keys.insert(key)?;
            let mut paths = Vec::new(alloc);
            paths.push(path)?;
            groups.push(Group { paths })?;
        }
    }
    Ok(())
}
