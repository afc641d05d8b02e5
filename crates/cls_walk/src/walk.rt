//! The walk: codes are written from the left in their order, by depth-first search over the forms of the node that is
//! awaited next. A form that comes to more than is left is passed over, and so is one before the cursor.
ghost use Rattle.std.specs.Prelude.{◌≡◌, ℕ, ◌+◌, ◌≤◌, [], ◌∷◌, ◌++◌, true, IfOk, OnOk, List, length, reverse};
ghost use Rattle.cls_term.specs.Costs.{cost_of};
ghost use Rattle.cls_walk.specs.Filled.{form_size, needs, EachRise};
ghost use Rattle.cls_walk.specs.Stretches.{Remembers};
ghost use Rattle.cls_walk.specs.Tables.{capped};
ghost use Rattle.cls_walk.specs.Walks.{IsWanted, IsWantedBy, IsBack, Lists};

use crate::cursor::Cursor;
use crate::form::Form;
use crate::least::{left_behind, number_of};
use crate::numbers::number_in;
use crate::plan::Plan;
use crate::replay::replay;
use crate::stretch::{Stretch, Stretches};
use cls_base::{NumberLists, OutOfMemory};
use std::alloc::Global;

/// The nodes of which terms are awaited, from the last to the next, the code so far, the codes that are listed, and
/// where those of one node are known to stand.
#[derive(Drop)]
pub(crate) struct Walk {
    pub(crate) awaited: Vec<u32>,
    pub(crate) code: Vec<u32>,
    pub(crate) codes: NumberLists,
    pub(crate) known: Stretches,
}

impl Walk {
    /// Nothing is awaited, written, listed or known.
    pub(crate) fn new(alloc: Global) -> Walk
        ensures awaited { result.awaited.items ≡ [] }
        ensures code { result.code.items ≡ [] }
        ensures codes { result.codes ≡ [] }
        ensures known { result.known ≡ [] }
    {
        Walk {
            awaited: Vec::new(alloc),
            code: Vec::new(alloc),
            codes: NumberLists::new(alloc),
            known: Stretches::new(alloc),
        }
    }
}

/// Lists the code so far, if nothing is left and it comes after the cursor. No node is awaited.
fn emit(plan: &Plan, walk: &mut Walk, slack: u32, cursor: Cursor) -> Result<bool, OutOfMemory>
    requires none { walk.old.awaited.items ≡ [] }
    requires few { length walk.old.codes ≤ plan.now.take }
    requires known { Remembers plan.now walk.old }
    ensures back { IfOk result (IsBack plan.now walk.old walk.new) }
    ensures listed { IfOk result (Lists (IsWanted plan.now [] slack cursor.entry) walk.old walk.new) }
{
    if slack == 0 && cursor.passed {
        walk.codes.push(walk.code.as_slice())?;
    }
    Ok(walk.codes.len() <= plan.take as usize)
}

/// Puts the nodes behind those that are awaited. Most forms have none, and need no call of the vector's.
fn await_nodes(awaited: &mut Vec<u32>, nodes: &[u32]) -> Result<(), OutOfMemory>
    ensures { OnOk result (awaited.new.items ≡ awaited.old.items ++ nodes.now) }
{
    if nodes.is_empty() {
        return Ok(());
    }
    Ok(awaited.extend_from_slice(nodes)?)
}

/// Lists the codes of terms of the awaited nodes that come to `slack` more than the least sizes of the nodes, and says
/// whether to go on.
#[cycle(descend)]
fn go(plan: &Plan, walk: &mut Walk, slack: u32, cursor: Cursor) -> Result<bool, OutOfMemory>
    requires rising { EachRise plan.now.forms.now }
    requires few { length walk.old.codes ≤ plan.now.take }
    requires known { Remembers plan.now walk.old }
    ensures back { IfOk result (IsBack plan.now walk.old walk.new) }
    ensures listed { let ns = reverse walk.old.awaited.items in
        let size = needs plan.now.least.now ns + slack in
        IfOk result (Lists (IsWanted plan.now ns size cursor.entry) walk.old walk.new) }
{
    let Some(node) = walk.awaited.pop() else {
        return emit(plan, walk, slack, cursor);
    };
    // Terms of the node's least size are as soon walked as copied.
    let going = if slack > 0 && cursor.passed && walk.awaited.is_empty() {
        recall(plan, walk, node, slack, cursor)?
    } else {
        each_form(plan, walk, node, slack, cursor)?
    };
    walk.awaited.push(node)?;
    Ok(going)
}

/// The same, where this node alone is awaited and the cursor is passed: what is listed depends on the node and the slack
/// alone. So the codes are copied from where they stand, if that is known. If they are listed whole for the first time,
/// it is known from then on.
#[cycle(descend)]
pub(crate) fn recall(
    plan: &Plan,
    walk: &mut Walk,
    node: u32,
    slack: u32,
    cursor: Cursor,
) -> Result<bool, OutOfMemory>
    requires rising { EachRise plan.now.forms.now }
    requires few { length walk.old.codes ≤ plan.now.take }
    requires known { Remembers plan.now walk.old }
    requires alone { walk.old.awaited.items ≡ [] }
    requires passed { cursor.passed ≡ true }
    ensures back { IfOk result (IsBack plan.now walk.old walk.new) }
    ensures listed { let size = needs plan.now.least.now (node ∷ []) + slack in
        IfOk result (Lists (IsWanted plan.now (node ∷ []) size cursor.entry) walk.old walk.new) }
{
    if let Some(stretch) = walk.known.find(node, slack) {
        return replay(plan, walk, stretch);
    }
    let start = walk.codes.len();
    let going = each_form(plan, walk, node, slack, cursor)?;
    if going {
        let stretch = Stretch {
            start,
            end: walk.codes.len(),
            from: walk.code.len(),
        };
        walk.known.keep(node, slack, stretch)?;
    }
    Ok(going)
}

/// The same, where this node is awaited before the others, by one of its forms after another.
#[cycle(descend)]
pub(crate) fn each_form(
    plan: &Plan,
    walk: &mut Walk,
    node: u32,
    slack: u32,
    cursor: Cursor,
) -> Result<bool, OutOfMemory>
    requires rising { EachRise plan.now.forms.now }
    requires few { length walk.old.codes ≤ plan.now.take }
    requires known { Remembers plan.now walk.old }
    ensures back { IfOk result (IsBack plan.now walk.old walk.new) }
    ensures listed { let ns = node ∷ reverse walk.old.awaited.items in
        let size = needs plan.now.least.now ns + slack in
        IfOk result (Lists (IsWanted plan.now ns size cursor.entry) walk.old walk.new) }
{
    let least = number_of(plan.least, node);
    let forms = plan.forms.of(node);
    let sizes = plan.sizes.column(node);
    for place in 0..forms.len() {
        let form = &forms[place];
        let size = number_in(sizes, place);
        if !follow(plan, walk, form, size, least, slack, cursor)? {
            return Ok(false);
        }
    }
    Ok(true)
}

/// The same, for those codes alone that begin with this form of the node, which comes to this size, where the node has
/// this least size.
#[cycle(descend)]
fn follow(
    plan: &Plan,
    walk: &mut Walk,
    form: &Form,
    size: u64,
    least: u32,
    slack: u32,
    cursor: Cursor,
) -> Result<bool, OutOfMemory>
    requires rising { EachRise plan.now.forms.now }
    requires few { length walk.old.codes ≤ plan.now.take }
    requires known { Remembers plan.now walk.old }
    requires size { size ≡ capped (form_size (cost_of plan.now.costs.now) plan.now.least.now form.now) }
    requires least { least ≤ form_size (cost_of plan.now.costs.now) plan.now.least.now form.now }
    ensures back { IfOk result (IsBack plan.now walk.old walk.new) }
    ensures listed { let ns = reverse walk.old.awaited.items in
        let total = least + needs plan.now.least.now ns + slack in
        IfOk result (Lists (IsWantedBy plan.now form.now ns total cursor.entry) walk.old walk.new) }
{
    let Some(left) = left_behind(size, least, slack) else {
        return Ok(true);
    };
    let Some(next) = cursor.step(form.component, form.count) else {
        return Ok(true);
    };
    let height = walk.awaited.len();
    let length = walk.code.len();
    await_nodes(&mut walk.awaited, form.nodes.as_slice())?;
    walk.code.push(form.component)?;
    walk.code.push(form.count)?;
    let going = go(plan, walk, left, next)?;
    walk.code.truncate(length);
    walk.awaited.truncate(height);
    Ok(going)
}
