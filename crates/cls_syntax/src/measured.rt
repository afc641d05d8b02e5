//! Closed types that know their measures.
ghost use Rattle.std.specs.Prelude.{◌≡◌};
ghost use Rattle.cls_base.specs.Types as types;
ghost use Rattle.cls_base.specs.Ty.{type_of};
ghost use Rattle.cls_base.specs.Measures.{capped};

use crate::tree::Tree;
use cls_base::limits::SPREAD_CAP;
use cls_base::{Name, OutOfMemory, Ty};
use std::alloc::Global;

/// No measure is greater.
const CAP: u32 = SPREAD_CAP as u32;

/// A closed type with its measures, which are found while it is built: so it needs no walk over the type to know them.
#[derive(Drop)]
pub struct MeasuredTy {
    ty: Ty,
    paths: u32,
    spread: u32,
    // The number of its paths before any is dropped, capped at 1,000,001.
    ghost counted: { paths ≡ capped (types.path_count (type_of ty)) },
    // Its spread, capped at 1,000,001.
    ghost measured: { spread ≡ capped (types.spread (type_of ty)) },
}

impl MeasuredTy {
    ghost use Rattle.cls_base.specs.Types.{arrow, spread};
    ghost use Rattle.cls_syntax.specs.MeasuredTypes.{measured_type};

    /// The type.
    pub fn ty(&self) -> &Ty
        ensures { type_of result.now ≡ measured_type self.now }
    {
        &self.ty
    }

    /// The type alone.
    pub fn into_ty(self) -> Ty
        ensures { type_of result ≡ measured_type self }
    {
        let MeasuredTy {
            ty,
            paths: _,
            spread: _,
        } = self;
        ty
    }

    /// The smaller of 1,000,001 and the spread, as [`Ty::spread`] finds it.
    pub fn spread(&self) -> u64
        ensures { result ≡ capped (spread (measured_type self.now)) }
    {
        self.spread as u64
    }

    /// The spread of the functions from this type to the target, capped likewise.
    fn spread_to(&self, target: &MeasuredTy) -> u32
        ensures { result ≡ capped (spread (arrow (measured_type self.now) (measured_type target.now))) }
    {
        let source_weight = 1 + self.spread as u64;
        (CAP as u64).min(target.spread as u64 + target.paths as u64 * source_weight) as u32
    }
}

impl Tree for MeasuredTy {
    ghost use Rattle.std.specs.Prelude.{None};
    ghost use Rattle.cls_syntax.specs.ClosedTypes.{opened};
    ghost use Rattle.cls_syntax.specs.MeasuredTypes.{measured_type};

    ghost tree = { λ m. opened (measured_type m) };

    ghost leaf = { λ _. None };

    fn omega() -> MeasuredTy {
        MeasuredTy {
            ty: Ty::Omega,
            paths: 0,
            spread: 0,
        }
    }

    fn variable(_name: Name) -> Option<MeasuredTy> {
        None
    }

    fn bare(name: Name) -> MeasuredTy {
        MeasuredTy {
            ty: Ty::Bare(name),
            paths: 1,
            spread: 1,
        }
    }

    fn constructor(
        alloc: Global,
        name: Name,
        argument: MeasuredTy,
    ) -> Result<MeasuredTy, OutOfMemory> {
        let paths = argument.paths.max(1);
        let spread = CAP.min(argument.spread + paths);
        let ty = Ty::over(alloc, name, argument.into_ty())?;
        Ok(MeasuredTy { ty, paths, spread })
    }

    fn product(
        alloc: Global,
        left: MeasuredTy,
        right: MeasuredTy,
    ) -> Result<MeasuredTy, OutOfMemory> {
        let paths = CAP.min((left.paths + right.paths).max(1));
        let spread = CAP.min(left.spread + right.spread + paths);
        let sides = Box::new(alloc, (left.into_ty(), right.into_ty()))?;
        Ok(MeasuredTy {
            ty: Ty::Prod(sides),
            paths,
            spread,
        })
    }

    fn arrow(
        alloc: Global,
        source: MeasuredTy,
        target: MeasuredTy,
    ) -> Result<MeasuredTy, OutOfMemory> {
        let paths = target.paths;
        let spread = source.spread_to(&target);
        let sides = Box::new(alloc, (source.into_ty(), target.into_ty()))?;
        Ok(MeasuredTy {
            ty: Ty::Arrow(sides),
            paths,
            spread,
        })
    }

    fn meet(alloc: Global, left: MeasuredTy, right: MeasuredTy) -> Result<MeasuredTy, OutOfMemory> {
        let paths = CAP.min(left.paths + right.paths);
        let spread = CAP.min(left.spread + right.spread);
        let sides = Box::new(alloc, (left.into_ty(), right.into_ty()))?;
        Ok(MeasuredTy {
            ty: Ty::Meet(sides),
            paths,
            spread,
        })
    }
}
