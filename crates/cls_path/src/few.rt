//! Normal forms of few paths: they are sorted, and mostly that is all that is left to do.
ghost use Rattle.std.specs.Prelude.{IfOk, IsTrue};
ghost use Rattle.std.specs.List.{IsDistinct};
ghost use Rattle.cls_base.specs.Taxa.{Below};
ghost use Rattle.cls_path.specs.Paths.{SuitsAll, listed, type_of_paths};
ghost use Rattle.cls_path.specs.NormalForms.{EachCanonical, IsNormalForm};
ghost use Rattle.cls_path.specs.Groups.{comparable};

use crate::label::head_class;
use crate::meet::sort_up;
use crate::path::{Nf, Path, PathList};
use cls_base::{OutOfMemory, Taxa};
use std::alloc::Global;

/// The normal form of the intersection of the paths. Unless their heads tell them all apart, they are put into it one by one.
pub(crate) fn form_of_few<T: Taxa>(
    alloc: Global,
    taxa: &T,
    mut paths: Vec<Path>,
) -> Result<Nf, OutOfMemory>
    requires suits { SuitsAll (T.variance_of_name taxa.now) (listed paths.items) }
    requires canonical { EachCanonical (Below (T.is_below taxa.now)) (T.variance_of_name taxa.now)
        (listed paths.items) }
    ensures { IfOk result (λ nf. IsNormalForm (Below (T.is_below taxa.now)) (T.variance_of_name taxa.now)
        (type_of_paths (listed paths.items)) (listed nf)) }
{
    if paths.len() <= 1 {
        return Ok(Nf {
            paths: PathList::of(paths),
        });
    }
    sort_up(&mut paths);
    if have_rising_heads(taxa, &paths) {
        return Ok(Nf {
            paths: PathList::of(paths),
        });
    }
    let mut nf = Nf::empty(alloc);
    while let Some(path) = paths.pop() {
        nf = nf.with(taxa, path)?;
    }
    Ok(nf)
}

/// Whether the class of the head of each path is above that of the one before, and that of the first above 0. Then no path is
/// below another.
fn have_rising_heads<T: Taxa>(taxa: &T, paths: &[Path]) -> bool
    requires { SuitsAll (T.variance_of_name taxa.now) (listed paths.now) }
    ensures { IsTrue result
        → IsDistinct (comparable (T.is_below taxa.now) (T.variance_of_name taxa.now)) paths.now }
{
    let mut last = 0;
    for path in paths {
        let class = head_class(taxa, path);
        if class <= last {
            return false;
        }
        last = class;
    }
    true
}
