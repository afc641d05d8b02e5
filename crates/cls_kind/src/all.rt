//! Where the instances of a schema begin.
ghost use Rattle.std.specs.Prelude.{◌≡◌, IfOk, IfErr, OnOk};
ghost use Rattle.cls_base.specs.Schemas.{schema_of};
ghost use Rattle.cls_kind.specs.Faults.{HasNoInstances};
ghost use Rattle.cls_kind.specs.Kinds.{instances_of, HasInstances};

use crate::fault::KindFault;
use crate::instance::{TOO_MANY, filled_nodes};
use crate::kinds::Kinds;
use crate::largest::largest;
use crate::left::Instances;
use crate::ranges::{count, ranges};
use cls_base::Schema;
use std::alloc::Global;

/// The instances of the schema, in the order in which the choice for the first variable varies slowest. Variables stand in
/// the order of their first occurrences.
///
/// `UnknownVariable` names the first variable without a kind. Otherwise `TooManyInstances` says that there are more than
/// 4,096 choices.
pub fn instances<'a>(
    alloc: Global,
    schema: &'a Schema,
    kinds: &'a Kinds,
) -> Result<Instances<'a>, KindFault>
    ensures instances { IfOk result (λ left. left ≡ instances_of kinds.now (schema_of schema.now)) }
    ensures accepted { OnOk result (HasInstances kinds.now (schema_of schema.now)) }
    ensures refused { IfErr result (HasNoInstances kinds.now (schema_of schema.now)) }
{
    let ranges = ranges(alloc, schema, kinds)?;
    let Some(count) = count(&ranges) else {
        return Err(KindFault::TooManyInstances);
    };
    let largest = largest(alloc, &ranges)?;
    let few_nodes = filled_nodes(schema, &largest) < TOO_MANY;
    Ok(Instances::new(alloc, schema, ranges, count, few_nodes))
}
