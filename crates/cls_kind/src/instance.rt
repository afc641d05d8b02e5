//! One instance of a schema.
ghost use Rattle.std.specs.Prelude.{◌≡◌, IfOk};
ghost use Rattle.cls_base.specs.Schemas.{schema_of};
ghost use Rattle.cls_base.specs.Ty as closed;
ghost use Rattle.cls_kind.specs.Instances.{instance_by, type_for};
ghost use Rattle.cls_kind.specs.Pruned.{pruned};
ghost use Rattle.cls_kind.specs.Ranges.{choice_in, capped_nodes, type_or_omega};

use crate::pruned::{is_omega, meet_of, pruned};
use cls_base::limits::MAX_INSTANCE_NODES;
use cls_base::{OutOfMemory, Schema, Ty};
use std::alloc::Global;

/// One more than the greatest number of nodes of an instance.
pub(crate) const TOO_MANY: u64 = MAX_INSTANCE_NODES + 1;

/// A variable with the type that is chosen for it.
#[derive(Drop)]
pub(crate) struct Chosen<'a> {
    pub variable: u32,
    pub ty: &'a Ty,
}

/// The schema with the type that is chosen for each variable in its place, without what no path goes through. The target of an
/// arrow comes first: where it has no path, the source isn't made.
#[tactic(auto, using(crate::proofs::Pruning::arrow_omega, crate::proofs::Pruning::arrow_other))]
pub(crate) fn fill(alloc: Global, schema: &Schema, chosen: &[Chosen<'_>]) -> Result<Ty, OutOfMemory>
    ensures { IfOk result (λ ty.
        closed.type_of ty ≡ pruned (instance_by (choice_in chosen.now) (schema_of schema.now))) }
{
    match schema {
        Schema::Omega => Ok(Ty::Omega),
        Schema::Bare(name) => Ok(Ty::Bare(*name)),
        Schema::Con(name, argument) => {
            let argument = fill(alloc, argument, chosen)?;
            Ty::over(alloc, *name, argument)
        }
        Schema::Prod(sides) => {
            let left = fill(alloc, &sides.0, chosen)?;
            let right = fill(alloc, &sides.1, chosen)?;
            Ok(Ty::Prod(Box::new(alloc, (left, right))?))
        }
        Schema::Arrow(sides) => {
            let target = fill(alloc, &sides.1, chosen)?;
            if is_omega(&target) {
                return Ok(target);
            }
            let source = fill(alloc, &sides.0, chosen)?;
            Ok(Ty::Arrow(Box::new(alloc, (source, target))?))
        }
        Schema::Meet(sides) => {
            let left = fill(alloc, &sides.0, chosen)?;
            let right = fill(alloc, &sides.1, chosen)?;
            meet_of(alloc, left, right)
        }
        Schema::Var(variable) => match type_of(chosen, variable.0) {
            Some(ty) => pruned(alloc, ty),
            None => Ok(Ty::Omega),
        },
    }
}

/// The number of nodes of the instance, or 4,097 if there are more.
pub(crate) fn filled_nodes(schema: &Schema, chosen: &[Chosen<'_>]) -> u64
    ensures { result ≡ capped_nodes (instance_by (choice_in chosen.now) (schema_of schema.now)) }
{
    match schema {
        Schema::Omega => 1,
        Schema::Bare(_) => 2,
        Schema::Con(_, argument) => TOO_MANY.min(1 + filled_nodes(argument, chosen)),
        Schema::Prod(sides) | Schema::Arrow(sides) | Schema::Meet(sides) => {
            let (left, right) = &**sides;
            TOO_MANY.min(1 + filled_nodes(left, chosen) + filled_nodes(right, chosen))
        }
        Schema::Var(variable) => match type_of(chosen, variable.0) {
            Some(ty) => type_nodes(ty),
            None => 1,
        },
    }
}

/// The number of nodes of the type, or 4,097 if there are more.
pub(crate) fn type_nodes(ty: &Ty) -> u64
    ensures { result ≡ capped_nodes (closed.type_of ty.now) }
{
    match ty {
        Ty::Omega => 1,
        Ty::Bare(_) => 2,
        Ty::Con(_, argument) => TOO_MANY.min(1 + type_nodes(argument)),
        Ty::Prod(sides) | Ty::Arrow(sides) | Ty::Meet(sides) => {
            let (left, right) = &**sides;
            TOO_MANY.min(1 + type_nodes(left) + type_nodes(right))
        }
    }
}

/// The type that is chosen for the variable.
fn type_of<'a>(chosen: &[Chosen<'a>], variable: u32) -> Option<&'a Ty>
    ensures { type_or_omega result ≡ type_for (choice_in chosen.now) variable }
{
    for one in chosen {
        if one.variable == variable {
            return Some(one.ty);
        }
    }
    None
}
