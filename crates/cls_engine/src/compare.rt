ghost use Rattle.std.specs.Prelude.{◌↔◌, ◌∷◌, [], IfOk, IfErr, OnOk, IsTrue, length};
ghost use Rattle.cls_base.specs.Ty.{type_of};
ghost use Rattle.cls_base.specs.Subtyping.{Subtype};
ghost use Rattle.cls_base.specs.Terms.{IsTermOver};
ghost use Rattle.cls_syntax.specs.MeasuredTypes.{measured_type};
ghost use Rattle.cls_library.specs.Libraries.{below_in, variances_in};
ghost use Rattle.cls_library.specs.Typing.{HasTypeIn};
ghost use Rattle.cls_engine.specs.Faults.{IsFaultOf, AreSilent, compare_faults};

use crate::engine::Engine;
use crate::fault::EngineFault;
use cls_base::Ty;
use cls_base::limits::MAX_TYPE_SPREAD;
use cls_check::has_type;
use cls_norm::subtype;
use cls_syntax::MeasuredTy;
use cls_term::CodedTerm;
use std::alloc::Global;

impl Engine {
    /// Whether the first type is a subtype of the second: yes if and only if a derivation exists.
    pub fn subtype(
        &self,
        alloc: Global,
        lower: &MeasuredTy,
        upper: &MeasuredTy,
    ) -> Result<bool, EngineFault>
        ensures exact { IfOk result (λ yes. IsTrue yes ↔ Subtype (below_in self.now.library.taxonomy)
            (variances_in self.now.library.taxonomy) (measured_type lower.now) (measured_type upper.now)) }
        ensures silent { OnOk result
            (AreSilent (compare_faults (measured_type lower.now ∷ measured_type upper.now ∷ []))) }
        ensures fault { IfErr result
            (IsFaultOf (compare_faults (measured_type lower.now ∷ measured_type upper.now ∷ []))) }
    {
        if lower.spread() > MAX_TYPE_SPREAD || upper.spread() > MAX_TYPE_SPREAD {
            return Err(EngineFault::Size);
        }
        Ok(subtype(alloc, self.library().taxonomy(), lower.ty(), upper.ty())?)
    }

    /// Whether the term has the type by the typing rules.
    pub fn typed(&self, alloc: Global, term: &CodedTerm, ty: &Ty) -> Result<bool, EngineFault>
        requires declared { IsTermOver (length self.now.library.components) term.now }
        ensures exact { IfOk result (λ yes. IsTrue yes ↔ HasTypeIn self.now.library term.now (type_of ty.now)) }
        ensures silent { OnOk result (AreSilent (compare_faults (type_of ty.now ∷ []))) }
        ensures fault { IfErr result (IsFaultOf (compare_faults (type_of ty.now ∷ []))) }
    {
        if ty.spread() > MAX_TYPE_SPREAD {
            return Err(EngineFault::Size);
        }
        let goal = self.normal_form(alloc, ty)?;
        Ok(has_type(alloc, self.library(), term, &goal)?)
    }
}
