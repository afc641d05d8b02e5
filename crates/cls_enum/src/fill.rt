ghost use Rattle.std.specs.Prelude.{◌+◌, ◌<◌, ◌≤◌, ◌^◌, IfOk, IfErr, [], ◌∷◌, length};
ghost use Rattle.cls_base.specs.Limits.{max_term_length};
ghost use Rattle.cls_base.specs.Terms.{length_of};
ghost use Rattle.cls_term.specs.Banks.{at, term_by};
ghost use Rattle.cls_base.specs.Lists.{AreBelow};
ghost use Rattle.cls_enum.specs.PartialTerms.{partial_term, IsAsBefore, IsPartial};
ghost use Rattle.cls_enum.specs.Members.{AreFound};
ghost use Rattle.cls_enum.specs.Plans.{ArePruned};
ghost use Rattle.cls_enum.specs.HeldTerms.{held_terms, filled, applied_filled, Finds, FindsTooMany};

use crate::PageFault;
use crate::held::Held;
use crate::partial_term::PartialTerm;
use crate::plan::{Place, is_barren};
use cls_term::SpineSet;
use std::alloc::Global;

/// Finds what a head, applied to the arguments that it has, makes of terms at the places in turn whose sizes come to
/// `rest`.
#[cycle(fill)]
pub(crate) fn fill(
    alloc: Global,
    held: &Held,
    partial: &mut PartialTerm,
    places: &[Place],
    rest: u32,
    found: &mut SpineSet,
) -> Result<(), PageFault>
    requires partial { IsPartial held.now.bank.now partial.old }
    requires room { partial.old.occurrences < 2 ^ 34 }
    requires small { rest < 2 ^ 31 }
    requires pruned { ArePruned (held_terms held.now) places.now }
    requires found { AreFound held.now.bank.now found.old }
    ensures added { IfOk result (λ _. Finds held.now found.old found.new
        (filled held.now places.now rest (partial_term held.now.bank.now partial.old))) }
    ensures same { IfOk result (λ _. IsAsBefore partial.old partial.new) }
    ensures over { IfErr result (FindsTooMany held.now found.old
        (filled held.now places.now rest (partial_term held.now.bank.now partial.old))) }
{
    if is_barren(places, rest, partial.occurrences) {
        return Ok(());
    }
    let Some((place, others)) = places.split_first() else {
        return add(alloc, held, partial.head, partial.args.as_slice(), found);
    };
    let first = if others.is_empty() { rest } else { 0 };
    for size in first..rest + 1 {
        let numbers = held.cells.get(size, place.node);
        fill_each(alloc, held, partial, numbers, others, rest - size, found)?;
    }
    Ok(())
}

/// The same, with each of the numbers in turn as the next argument.
#[cycle(fill)]
fn fill_each(
    alloc: Global,
    held: &Held,
    partial: &mut PartialTerm,
    numbers: &[u32],
    places: &[Place],
    rest: u32,
    found: &mut SpineSet,
) -> Result<(), PageFault>
    requires numbers { AreBelow (length held.now.bank.now) numbers.now }
    requires partial { IsPartial held.now.bank.now partial.old }
    requires room { partial.old.occurrences < 2 ^ 33 }
    requires small { rest < 2 ^ 31 }
    requires pruned { ArePruned (held_terms held.now) places.now }
    requires found { AreFound held.now.bank.now found.old }
    ensures added { IfOk result (λ _. Finds held.now found.old found.new
        (applied_filled held.now places.now rest (partial_term held.now.bank.now partial.old) numbers.now)) }
    ensures same { IfOk result (λ _. IsAsBefore partial.old partial.new) }
    ensures over { IfErr result (FindsTooMany held.now found.old
        (applied_filled held.now places.now rest (partial_term held.now.bank.now partial.old) numbers.now)) }
{
    if is_barren(places, rest, partial.occurrences + 1) {
        return Ok(());
    }
    for number in numbers {
        let more = u64::from(held.bank.length(*number));
        partial.args.push(*number)?;
        partial.occurrences += more;
        fill(alloc, held, partial, places, rest, found)?;
        partial.args.pop();
        partial.occurrences -= more;
    }
    Ok(())
}

/// Adds a spine, unless it is there, and answers whether there are too many.
fn add(
    alloc: Global,
    held: &Held,
    head: u32,
    args: &[u32],
    found: &mut SpineSet,
) -> Result<(), PageFault>
    requires args { AreBelow (length held.now.bank.now) args.now }
    requires short { length_of (term_by held.now.bank.now (head, args.now)) ≤ max_term_length }
    requires found { AreFound held.now.bank.now found.old }
    ensures added { IfOk result (λ _.
        Finds held.now found.old found.new (term_by held.now.bank.now (head, args.now) ∷ [])) }
    ensures over { IfErr result (FindsTooMany held.now found.old (term_by held.now.bank.now (head, args.now) ∷ [])) }
{
    let _count = held.bank.count();
    found.insert(alloc, head, args)?;
    if found.len() as u64 > held.limit {
        return Err(PageFault::TooManyTerms);
    }
    Ok(())
}
