ghost use Rattle.std.specs.Prelude.{◌<◌, ◌^◌, ◌∷◌, [], IfOk, IfErr, OnOk};
ghost use Rattle.cls_base.specs.Ty.{type_of};
ghost use Rattle.cls_proof.specs.Seen.{certificate_of};
ghost use Rattle.cls_check.specs.Verdicts.{rows_in};
ghost use Rattle.cls_engine.specs.Faults.{IsFaultOf, AreSilent, compare_faults};
ghost use Rattle.cls_engine.specs.Verdicts.{IsVerdict};

use crate::engine::Engine;
use crate::fault::EngineFault;
use crate::verdict::Verdict;
use cls_base::Ty;
use cls_base::limits::MAX_TYPE_SPREAD;
use cls_check::{CheckFault, check};
use cls_proof::Certificate;
use std::alloc::Global;

impl Engine {
    /// Whether the certificate is accepted for the type, and otherwise which of its rows or members fails which test.
    /// It has less than 2^32 rows or members, and its types have a spread that callers keep at 16,384 or below.
    pub fn verify(
        &self,
        alloc: Global,
        ty: &Ty,
        certificate: &Certificate,
    ) -> Result<Verdict, EngineFault>
        requires few { rows_in (certificate_of certificate.now) < 2 ^ 32 }
        ensures verdict { IfOk result
            (IsVerdict self.now.library (type_of ty.now) (certificate_of certificate.now)) }
        ensures silent { OnOk result (AreSilent (compare_faults (type_of ty.now ∷ []))) }
        ensures fault { IfErr result (IsFaultOf (compare_faults (type_of ty.now ∷ []))) }
    {
        if ty.spread() > MAX_TYPE_SPREAD {
            return Err(EngineFault::Size);
        }
        let goal = self.normal_form(alloc, ty)?;
        match check(alloc, self.library(), &goal, certificate) {
            Ok(()) => Ok(Verdict::Accepted),
            Err(CheckFault::Refused { row, reason }) => Ok(Verdict::Refused { row, reason }),
            Err(CheckFault::OutOfMemory) => Err(EngineFault::OutOfMemory),
        }
    }
}
