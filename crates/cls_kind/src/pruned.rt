//! Types without what no path goes through.
ghost use Rattle.std.specs.Prelude.{◌≡◌, ◌↔◌, IfOk, IsTrue};
ghost use Rattle.cls_base.specs.Types.{omega};
ghost use Rattle.cls_base.specs.Ty.{type_of};
ghost use Rattle.cls_kind.specs.Pruned.{meet_of, pruned};

use cls_base::{OutOfMemory, Ty};
use std::alloc::Global;

/// The type without what no path goes through. The target of an arrow comes first: where it has no path, the source isn't made.
#[tactic(auto, using(crate::proofs::Pruning::arrow_omega, crate::proofs::Pruning::arrow_other))]
pub(crate) fn pruned(alloc: Global, ty: &Ty) -> Result<Ty, OutOfMemory>
    ensures { IfOk result (λ whole. type_of whole ≡ pruned (type_of ty.now)) }
{
    match ty {
        Ty::Omega => Ok(Ty::Omega),
        Ty::Bare(name) => Ok(Ty::Bare(*name)),
        Ty::Con(name, argument) => {
            let argument = pruned(alloc, argument)?;
            Ty::over(alloc, *name, argument)
        }
        Ty::Prod(sides) => {
            let left = pruned(alloc, &sides.0)?;
            let right = pruned(alloc, &sides.1)?;
            Ok(Ty::Prod(Box::new(alloc, (left, right))?))
        }
        Ty::Arrow(sides) => {
            let target = pruned(alloc, &sides.1)?;
            if is_omega(&target) {
                return Ok(target);
            }
            let source = pruned(alloc, &sides.0)?;
            Ok(Ty::Arrow(Box::new(alloc, (source, target))?))
        }
        Ty::Meet(sides) => {
            let left = pruned(alloc, &sides.0)?;
            let right = pruned(alloc, &sides.1)?;
            meet_of(alloc, left, right)
        }
    }
}

/// The intersection of pruned types. Omega is left out.
#[tactic(auto, using(crate::proofs::Pruning::meet_first, crate::proofs::Pruning::meet_second, crate::proofs::Pruning::meet_other))]
pub(crate) fn meet_of(alloc: Global, left: Ty, right: Ty) -> Result<Ty, OutOfMemory>
    ensures { IfOk result (λ whole. type_of whole ≡ meet_of (type_of left) (type_of right)) }
{
    if is_omega(&left) {
        return Ok(right);
    }
    if is_omega(&right) {
        return Ok(left);
    }
    Ok(Ty::Meet(Box::new(alloc, (left, right))?))
}

/// Whether the type is omega.
pub(crate) fn is_omega(ty: &Ty) -> bool
    ensures { IsTrue result ↔ (type_of ty.now ≡ omega) }
{
    matches!(ty, Ty::Omega)
}
