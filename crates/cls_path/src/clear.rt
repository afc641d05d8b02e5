//! Paths above one path are dropped before the others are compared. Where one path is below all others, it alone is left. Where
//! one path has a name that isn't alone, as one above all names of the others, it is dropped.
ghost use Rattle.std.specs.Prelude.{◌<◌, Contains, IfOk, length};
ghost use Rattle.cls_path.specs.Groups.{IsCleared};
ghost use Rattle.cls_path.specs.Paths.{SuitsAll, listed};

use crate::alone::{are_alone, has_own};
use crate::meet::remove_above;
use crate::path::Path;
use cls_base::{OutOfMemory, Taxa};
use std::alloc::Global;

/// The paths without those above a low one of them. The only error is out of memory.
pub(crate) fn cleared<T: Taxa>(
    alloc: Global,
    taxa: &T,
    mut paths: Vec<Path>,
) -> Result<Vec<Path>, OutOfMemory>
    requires { SuitsAll (T.variance_of_name taxa.now) (listed paths.items) }
    ensures { IfOk result (λ rest.
        IsCleared (T.is_below taxa.now) (T.variance_of_name taxa.now) paths.items rest.items) }
{
    if paths.len() <= 1 {
        return Ok(paths);
    }
    let path = low_path(alloc, taxa, &paths)?;
    remove_above(taxa, &path, &mut paths);
    paths.push(path)?;
    Ok(paths)
}

/// A copy of a low path. In one pass, each path that is below the one found so far takes its place. The first one is a loose one,
/// so that it is dropped if another one is below it.
fn low_path<T: Taxa>(alloc: Global, taxa: &T, paths: &[Path]) -> Result<Path, OutOfMemory>
    requires { 0 < length paths.now }
    ensures { IfOk result (λ path. Contains paths.now path) }
{
    let mut low = first_loose(taxa, paths);
    for i in 0..paths.len() {
        low = lower_of(taxa, paths, low, i);
    }
    let path = paths[low].copy(alloc)?;
    Ok(path)
}

/// The place of the first path of which a name on the way isn't known to be alone, or a source is no lone name. It is 0 if there is
/// none.
fn first_loose<T: Taxa>(taxa: &T, paths: &[Path]) -> usize
    requires { 0 < length paths.now }
    ensures { result < length paths.now }
{
    for (i, path) in paths.iter().enumerate() {
        if !are_alone(taxa, path) || !has_own(taxa, path) {
            return i;
        }
    }
    0
}

/// The place of the lower one of two paths: the second one if it is below the first.
fn lower_of<T: Taxa>(taxa: &T, paths: &[Path], first: usize, second: usize) -> usize
    requires first { first < length paths.now }
    requires second { second < length paths.now }
    ensures { result < length paths.now }
{
    if paths[second].is_below(taxa, &paths[first]) {
        return second;
    }
    first
}
