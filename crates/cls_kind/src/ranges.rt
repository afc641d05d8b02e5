//! The variables of a schema with their kinds.
ghost use Rattle.std.specs.Prelude.{◌≡◌, ◌<◌, IfOk, IfErr, OnOk, MatchOption};
ghost use Rattle.cls_base.specs.Limits.{max_instances};
ghost use Rattle.cls_base.specs.Schemas.{schema_of};
ghost use Rattle.cls_kind.specs.Faults.{LacksKind};
ghost use Rattle.cls_kind.specs.Instances.{count_of, AreFull};
ghost use Rattle.cls_kind.specs.Kinds.{ranges_of, AreKnown};
ghost use Rattle.cls_kind.specs.Ranges.{kinds_in, IsCount};

use crate::fault::KindFault;
use crate::kinds::Kinds;
use crate::variables::variables;
use cls_base::limits::MAX_INSTANCES;
use cls_base::{Name, Schema, Ty};
use std::alloc::Global;

/// A variable with the types of its kind.
#[derive(Drop)]
pub(crate) struct Range<'a> {
    pub variable: u32,
    pub choices: &'a [Ty],
}

/// The variables of the schema with their kinds, if each has one.
pub(crate) fn ranges<'a>(
    alloc: Global,
    schema: &Schema,
    kinds: &'a Kinds,
) -> Result<Vec<Range<'a>>, KindFault>
    ensures ranges { IfOk result (λ ranges. kinds_in ranges.items ≡ ranges_of kinds.now (schema_of schema.now)) }
    ensures known { OnOk result (AreKnown kinds.now (schema_of schema.now)) }
    ensures unknown { IfErr result (LacksKind kinds.now (schema_of schema.now)) }
{
    let mut ranges = Vec::new(alloc);
    for variable in variables(alloc, schema)?.as_slice() {
        let choices = kinds.types_of(*variable);
        if choices.is_empty() {
            return Err(KindFault::UnknownVariable(Name(*variable)));
        }
        ranges.push(Range {
            variable: *variable,
            choices,
        })?;
    }
    Ok(ranges)
}

/// The number of choices, or none if it is over 4,096.
pub(crate) fn count(ranges: &[Range<'_>]) -> Option<usize>
    requires { AreFull (kinds_in ranges.now) }
    ensures { MatchOption result (max_instances < count_of (kinds_in ranges.now)) (IsCount (kinds_in ranges.now)) }
{
    let mut count: usize = 1;
    for range in ranges {
        count = count.checked_mul(range.choices.len())?;
        if count > MAX_INSTANCES {
            return None;
        }
    }
    Some(count)
}
