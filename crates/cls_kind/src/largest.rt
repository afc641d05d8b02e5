//! The largest types of kinds, by which all instances are known to have few nodes.
ghost use Rattle.std.specs.Prelude.{◌≡◌, ◌≤◌, ◌↔◌, [], All, IfOk, IfSome, IsNone};
ghost use Rattle.cls_base.specs.Ty.{type_of};
ghost use Rattle.cls_kind.specs.Instances.{AreFull};
ghost use Rattle.cls_kind.specs.Ranges.{AreLargest, capped_nodes, choice_in, kinds_in};

use crate::instance::{Chosen, type_nodes};
use crate::ranges::Range;
use cls_base::{OutOfMemory, Ty};
use std::alloc::Global;

/// For each variable the type of its kind that has the most nodes.
pub(crate) fn largest<'a>(
    alloc: Global,
    ranges: &[Range<'a>],
) -> Result<Vec<Chosen<'a>>, OutOfMemory>
    requires { AreFull (kinds_in ranges.now) }
    ensures { IfOk result (λ chosen. AreLargest (kinds_in ranges.now) (choice_in chosen.items)) }
{
    let mut chosen = Vec::with_capacity(alloc, ranges.len())?;
    for range in ranges {
        let Some(ty) = largest_of(range.choices) else {
            unreachable!();
        };
        chosen.push(Chosen {
            variable: range.variable,
            ty,
        })?;
    }
    Ok(chosen)
}

/// The type that has the most nodes, which are counted up to 4,097.
fn largest_of<'a>(types: &'a [Ty]) -> Option<&'a Ty>
    ensures largest { IfSome result (λ ty.
        All (λ t. capped_nodes (type_of t) ≤ capped_nodes (type_of ty.now)) types.now) }
    ensures none { IsNone result ↔ (types.now ≡ []) }
{
    types.iter().max_by_key(|ty| type_nodes(*ty))
}
