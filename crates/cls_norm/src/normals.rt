ghost use Rattle.std.specs.Prelude.{IfOk};
ghost use Rattle.cls_base.specs.Ty.{type_of};
ghost use Rattle.cls_base.specs.Taxa.{Below};
ghost use Rattle.cls_base.specs.Subtyping.{Subtype};
ghost use Rattle.cls_path.specs.Paths.{type_of_paths, listed};
ghost use Rattle.cls_path.specs.NormalForms.{IsNormalForm};

use crate::paths::form_of;
use cls_base::{OutOfMemory, Taxa, Ty};
use cls_path::Nf;
use std::alloc::Global;

/// The normal form of the type: the least of its paths, strictly sorted. Each type has one, and equivalent types have equal
/// ones: these are laws of cls_path.
///
/// Time and memory are bounded by the nodes and the spread of the type, of which callers keep the spread at 16,384 or below.
/// Of an arrow whose target has no path nothing is made, as its spread counts nothing of its source. The stack is bounded by
/// the depth of the type as a tree, so by its nodes. The only error is out of memory.
pub fn normal<T: Taxa>(alloc: Global, taxa: &T, ty: &Ty) -> Result<Nf, OutOfMemory>
    ensures form { IfOk result (λ nf.
        IsNormalForm (Below (T.is_below taxa.now)) (T.variance_of_name taxa.now) (type_of ty.now) (listed nf)) }
    ensures below { IfOk result (λ nf.
        Subtype (Below (T.is_below taxa.now)) (T.variance_of_name taxa.now)
        (type_of_paths (listed nf)) (type_of ty.now)) }
    ensures above { IfOk result (λ nf.
        Subtype (Below (T.is_below taxa.now)) (T.variance_of_name taxa.now)
        (type_of ty.now) (type_of_paths (listed nf))) }
{
    let nf = form_of(alloc, taxa, ty)?;
    Ok(nf)
}
