//! The instances of a schema, one at a time. A number is decoded by division into one choice for each variable.
ghost use Rattle.std.specs.Prelude.{◌≡◌, ◌<◌, ◌≤◌, ◌↔◌, IfOk, IsTrue, true};
ghost use Rattle.cls_base.specs.Limits.{max_instance_nodes};
ghost use Rattle.cls_base.specs.Schemas.{schema_of};
ghost use Rattle.cls_base.specs.Types.{nodes};
ghost use Rattle.cls_kind.specs.Faults.{IsAnswerFor};
ghost use Rattle.cls_kind.specs.Instances.{choice_at, count_of, instance_by, instances_from};
ghost use Rattle.cls_kind.specs.Ranges.{HaveFewNodes, choice_in, kinds_in};

use crate::fault::KindFault;
use crate::instance::{Chosen, TOO_MANY, fill, filled_nodes};
use crate::ranges::Range;
use cls_base::limits::MAX_TYPE_SPREAD;
use cls_base::{OutOfMemory, Schema, Ty};
use std::alloc::Global;
use std::marker::Model;

/// The instances of a schema that haven't come yet, seen as the list of them. Each is made when it comes, without what no path
/// goes through.
#[derive(Drop)]
pub struct Instances<'a> {
    alloc: Global,
    schema: &'a Schema,
    ranges: Vec<Range<'a>>,
    next: usize,
    count: usize,
    // No instance has too many nodes, so they aren't counted.
    few_nodes: bool,
}

impl<'a> Model for Instances<'a> {
    ghost use Rattle.std.specs.Prelude.{◌≡◌, ◌≤◌, List, drop, true};
    ghost use Rattle.std.specs.Coded.{coded_list};
    ghost use Rattle.cls_base.specs.Types.{ClosedType};
    ghost use Rattle.cls_base.specs.Schemas.{schema_of};
    ghost use Rattle.cls_kind.specs.Instances.{instances_from, count_of};
    ghost use Rattle.cls_kind.specs.Ranges.{HaveFewNodes, kinds_in};
    ghost use Rattle.cls_kind.specs.Stored.{coded_type};

    ghost Value = { List ClosedType };

    ghost coded = { coded_list coded_type };

    ghost view = { λ i. drop i.next (instances_from (kinds_in i.ranges.items) (schema_of i.schema.now)) };

    ghost invariant = { λ i. (i.count ≡ count_of (kinds_in i.ranges.items)) × (i.next ≤ i.count)
        × (i.few_nodes ≡ true → HaveFewNodes (kinds_in i.ranges.items) (schema_of i.schema.now)) };
}

impl<'a> Instances<'a> {
    /// All instances of the schema by these variables with their kinds, of which there are so many. If none has too many
    /// nodes, they aren't counted.
    pub(crate) fn new(
        alloc: Global,
        schema: &'a Schema,
        ranges: Vec<Range<'a>>,
        count: usize,
        few_nodes: bool,
    ) -> Instances<'a>
        requires count { count ≡ count_of (kinds_in ranges.items) }
        requires few { few_nodes ≡ true → HaveFewNodes (kinds_in ranges.items) (schema_of schema.now) }
        ensures { result ≡ instances_from (kinds_in ranges.entry.items) (schema_of schema.now) }
    {
        Instances {
            alloc,
            schema,
            ranges,
            next: 0,
            count,
            few_nodes,
        }
    }
}

impl Iterator for Instances<'_> {
    type Item = Result<Ty, KindFault>;

    ghost use Rattle.std.specs.Iterator.{item_count};
    ghost use Rattle.cls_kind.specs.Faults.{TakesFirst};

    ghost next_gives = { TakesFirst };

    ghost remaining = { item_count (λ left. left) };

    /// The next instance, pruned. It is `InstanceTooLarge` if and only if it has more than 4,096 nodes or a spread over 16,384.
    /// After a fault nothing comes.
    fn next(&mut self) -> Option<Result<Ty, KindFault>> {
        if self.next >= self.count {
            return None;
        }
        let made = make(
            self.alloc,
            self.schema,
            &self.ranges,
            self.count,
            self.next,
            self.few_nodes,
        );
        self.next = if made.is_ok() {
            self.next + 1
        } else {
            self.count
        };
        Some(made)
    }
}

/// The instance with this number, pruned. Its spread is that of the whole instance.
#[tactic(auto, using(crate::proofs::Pruning::spread_pruned))]
fn make(
    alloc: Global,
    schema: &Schema,
    ranges: &[Range<'_>],
    count: usize,
    number: usize,
    few_nodes: bool,
) -> Result<Ty, KindFault>
    requires count { count ≡ count_of (kinds_in ranges.now) }
    requires within { number < count }
    requires few { few_nodes ≡ true → HaveFewNodes (kinds_in ranges.now) (schema_of schema.now) }
    ensures { IsAnswerFor (instance_by (choice_at (kinds_in ranges.now) number) (schema_of schema.now)) result }
{
    let chosen = choose(alloc, ranges, count, number)?;
    if has_many_nodes(schema, &chosen, few_nodes) {
        return Err(KindFault::InstanceTooLarge);
    }
    let ty = fill(alloc, schema, &chosen)?;
    if ty.spread() > MAX_TYPE_SPREAD {
        return Err(KindFault::InstanceTooLarge);
    }
    Ok(ty)
}

/// Whether the instance has too many nodes. They aren't counted where it is known to have few.
fn has_many_nodes(schema: &Schema, chosen: &[Chosen<'_>], few_nodes: bool) -> bool
    requires { few_nodes ≡ true
        → nodes (instance_by (choice_in chosen.now) (schema_of schema.now)) ≤ max_instance_nodes }
    ensures { IsTrue result
        ↔ (max_instance_nodes < nodes (instance_by (choice_in chosen.now) (schema_of schema.now))) }
{
    !few_nodes && filled_nodes(schema, chosen) == TOO_MANY
}

/// The choice with this number.
fn choose<'a>(
    alloc: Global,
    ranges: &[Range<'a>],
    count: usize,
    number: usize,
) -> Result<Vec<Chosen<'a>>, OutOfMemory>
    requires count { count ≡ count_of (kinds_in ranges.now) }
    requires within { number < count }
    ensures { IfOk result (λ chosen. choice_in chosen.items ≡ choice_at (kinds_in ranges.now) number) }
{
    let mut chosen = Vec::with_capacity(alloc, ranges.len())?;
    let mut block = count;
    let mut rest = number;
    for range in ranges {
        block /= range.choices.len();
        chosen.push(Chosen {
            variable: range.variable,
            ty: &range.choices[rest / block],
        })?;
        rest %= block;
    }
    Ok(chosen)
}
