//! The rules of a rule book, one argument at a time.
ghost use Rattle.std.specs.Prelude.{◌≡◌, ◌+◌, ◌^◌, ◌<◌, ◌++◌, [], IfOk, OnOk, length, map, slice_index_or};
ghost use Rattle.cls_base.specs.Columns.{rule_of};
ghost use Rattle.cls_base.specs.Cuts.{AreEnds, cut};
ghost use Rattle.cls_base.specs.Languages.{rules_at};
ghost use Rattle.cls_filtered.specs.Filtered.{IsRuleBook};
ghost use Rattle.cls_filtered.specs.Stepwise.{last_from, last_of, lasts_in, parts_from, parts_in, parts_of, stepwise};
ghost use Rattle.cls_filtered.specs.StepBooks.{part_node, step_rule};

use crate::step::Step;
use cls_base::{NodeRules, OutOfMemory, RuleBook, RuleRef, start_of};
use std::alloc::Global;
use std::marker::Model;

/// The nodes of a rule book, each with the last step of each of its rules, and behind them the parts of the rules, each with
/// its one step. It is seen as a rule book.
#[derive(Drop)]
pub(crate) struct StepBook {
    // The last step of each rule, and where those of each node end.
    lasts: Vec<Step>,
    ends: Vec<u32>,
    // The step of each part.
    parts: Vec<Step>,
}

impl Model for StepBook {
    ghost use Rattle.std.specs.Prelude.{◌+◌, ◌^◌, ◌<◌, ℕ, List, length};
    ghost use Rattle.cls_base.specs.Cuts.{AreEnds};
    ghost use Rattle.cls_base.specs.declared.rule.Rule.{Rule};
    ghost use Rattle.cls_filtered.specs.StepBooks.{step_book};

    ghost Value = { List (List (Rule ℕ)) };

    ghost view = { λ b. step_book b.lasts.items b.ends.items b.parts.items };

    ghost invariant = { λ b. AreEnds 0 (length b.lasts.items) b.ends.items
        × (length b.ends.items + length b.parts.items < 2 ^ 32) };
}

impl StepBook {
    /// The stepwise book of the rule book. The only error is out of memory, as which more nodes than a `u32` counts count.
    pub(crate) fn of_book<B: RuleBook>(alloc: Global, book: &B) -> Result<StepBook, OutOfMemory>
        ensures steps { IfOk result (λ steps. steps ≡ stepwise (B.book book.now)) }
        ensures book { OnOk result (IsRuleBook (B.book book.now)) }
    {
        let count = book.count();
        let mut lasts = Vec::new(alloc);
        let mut ends = Vec::with_capacity(alloc, count as usize)?;
        let mut parts = Vec::new(alloc);
        for node in 0..count {
            put_rules(book.rules(node), count, &mut lasts, &mut parts)?;
            let end = end_at(lasts.len())?;
            ends.push(end)?;
        }
        Ok(StepBook { lasts, ends, parts })
    }

    /// The number of nodes.
    pub(crate) fn count(&self) -> u32
        ensures { result ≡ length self.now }
    {
        let nodes = self.ends.len();
        let parts = self.parts.len();
        (nodes + parts) as u32
    }

    /// The steps of a node.
    pub(crate) fn steps(&self, node: u32) -> &[Step]
        requires { node < length self.now }
        ensures { map step_rule result.now ≡ rules_at self.now node }
    {
        let lasts = self.lasts.as_slice();
        let ends = self.ends.as_slice();
        let place = node as usize;
        let nodes = ends.len();
        if place < nodes {
            return last_steps(lasts, ends, place);
        }
        let parts = self.parts.as_slice();
        part_steps(parts, place - nodes)
    }
}

// The last steps of the rules of the node at the place.
fn last_steps<'a>(lasts: &'a [Step], ends: &[u32], place: usize) -> &'a [Step]
    requires ends { AreEnds 0 (length lasts.now) ends.now }
    requires place { place < length ends.now }
    ensures { result.now ≡ slice_index_or (cut lasts.now 0 ends.now) place [] }
{
    let start = start_of(ends, place);
    let end = ends[place] as usize;
    &lasts[start..end]
}

// The step of the part at the place.
fn part_steps(parts: &[Step], place: usize) -> &[Step]
    requires { place < length parts.now }
    ensures { map step_rule result.now ≡ rules_at (map part_node parts.now) place }
{
    let end = place + 1;
    &parts[place..end]
}

// A place in a column as a number. A greater one is refused as out of memory.
fn end_at(place: usize) -> Result<u32, OutOfMemory>
    ensures { IfOk result (λ end. end ≡ place) }
{
    let Ok(end) = u32::try_from(place) else {
        return Err(OutOfMemory);
    };
    Ok(end)
}

// The number of the node behind those of the book and so many parts, if there is room for it.
fn next_node(count: u32, parts: usize) -> Result<u32, OutOfMemory>
    requires { count + parts < 2 ^ 32 }
    ensures node { IfOk result (λ node. node ≡ count + parts) }
    ensures few { OnOk result (count + parts + 1 < 2 ^ 32) }
{
    let node = (count as usize + parts) as u32;
    if node == u32::MAX {
        return Err(OutOfMemory);
    }
    Ok(node)
}

// Puts the last steps of the rules and their parts behind the others.
fn put_rules(
    rules: &NodeRules,
    count: u32,
    lasts: &mut Vec<Step>,
    parts: &mut Vec<Step>,
) -> Result<(), OutOfMemory>
    requires { count + length parts.old.items < 2 ^ 32 }
    ensures lasts { OnOk result (map step_rule lasts.new.items
        ≡ map step_rule lasts.old.items ++ lasts_in (count + length parts.old.items) rules.now) }
    ensures parts { OnOk result (map part_node parts.new.items
        ≡ map part_node parts.old.items ++ parts_in (count + length parts.old.items) rules.now) }
    ensures few { OnOk result (count + length parts.new.items < 2 ^ 32) }
{
    for place in 0..rules.len() {
        let last = put_rule(rules.get(place), count, parts)?;
        lasts.push(last)?;
    }
    Ok(())
}

// Puts the parts of the rule behind the others, and gives its last step.
fn put_rule(rule: RuleRef<'_>, count: u32, parts: &mut Vec<Step>) -> Result<Step, OutOfMemory>
    requires { count + length parts.old.items < 2 ^ 32 }
    ensures last { IfOk result (λ last.
        step_rule last ≡ last_of (count + length parts.old.items) (rule_of rule.entry)) }
    ensures parts { OnOk result (map part_node parts.new.items
        ≡ map part_node parts.old.items ++ parts_of (count + length parts.old.items) (rule_of rule.entry)) }
    ensures few { OnOk result (count + length parts.new.items < 2 ^ 32) }
{
    match rule {
        RuleRef::Head { component, args } => {
            put_arguments(Step::Component(component), args, count, parts)
        }
        RuleRef::Any { left, right } => Ok(Step::Application { left, right }),
    }
}

// Puts a part for each argument behind the others. Each has the step before it, and the step after it applies it to the
// argument.
fn put_arguments(
    first: Step,
    args: &[u32],
    count: u32,
    parts: &mut Vec<Step>,
) -> Result<Step, OutOfMemory>
    requires { count + length parts.old.items < 2 ^ 32 }
    ensures last { IfOk result (λ last.
        step_rule last ≡ last_from (step_rule first) (count + length parts.old.items) args.now) }
    ensures parts { OnOk result (map part_node parts.new.items
        ≡ map part_node parts.old.items ++ parts_from (step_rule first) (count + length parts.old.items) args.now) }
    ensures few { OnOk result (count + length parts.new.items < 2 ^ 32) }
{
    let mut step = first;
    for argument in args {
        let left = next_node(count, parts.len())?;
        parts.push(step)?;
        step = Step::Application {
            left,
            right: *argument,
        };
    }
    Ok(step)
}
