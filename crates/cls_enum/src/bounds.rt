ghost use Rattle.std.specs.Prelude.{◌≡◌, ℕ, ◌+◌, ◌-◌, ◌<◌, ◌≤◌, ◌^◌, IfOk, length, map};
ghost use Rattle.cls_base.specs.Limits.{max_term_length};
ghost use Rattle.cls_base.specs.Terms.{length_of, Applicative};
ghost use Rattle.cls_term.specs.Banks.{at};
ghost use Rattle.cls_base.specs.Lists.{AreBelow};
ghost use Rattle.cls_enum.specs.CellTables.{cell_at, cell_of};
ghost use Rattle.cls_enum.specs.Members.{IsIn};
ghost use Rattle.cls_enum.specs.Plans.{after, nodes_of, rule_of, rules_of, book_of, AreBounds, AreReady, IsReady};
ghost use Rattle.cls_enum.specs.Plans.{AllReady, GoesOn, IsExtended};

use crate::cells::Cells;
use crate::plan::{NodePlans, Place, Plan};
use cls_base::OutOfMemory;
use cls_base::limits::MAX_TERM_LENGTH;
use cls_term::Bank;
use std::alloc::Global;

/// More occurrences than a term of a page may have. As a least number of occurrences it says that there is no term.
const TOO_LONG: u32 = MAX_TERM_LENGTH as u32 + 1;

/// How many occurrences each of the terms has at least, or `TOO_LONG` if there are none.
fn shortest(bank: &Bank, numbers: &[u32]) -> u32
    requires { AreBelow (length bank.now) numbers.now }
    ensures least { (a : Applicative) → IsIn (map (at bank.now) numbers.now) a → result ≤ length_of a }
    ensures small { result ≤ max_term_length + 1 }
{
    let mut least = TOO_LONG;
    for number in numbers {
        least = least.min(bank.length(*number));
    }
    least
}

/// What the places say of this rest of the size.
fn least_after(places: &[Place], rest: u32) -> u32
    ensures after { result ≡ after places.now rest }
    ensures small { result < 256 }
{
    match places.first() {
        None => { if rest == 0 { 0 } else { TOO_LONG } }
        Some(place) => u32::from(place.least.get(rest as usize).copied().unwrap_or(0)),
    }
}

/// How many occurrences each of the terms has together with terms at the places whose sizes come to `rest` at least,
/// or `TOO_LONG`.
fn least_with(bank: &Bank, numbers: &[u32], places: &[Place], rest: u32) -> u32
    requires { AreBelow (length bank.now) numbers.now }
    ensures least { (a : Applicative) → IsIn (map (at bank.now) numbers.now) a
        → result ≤ length_of a + after places.now rest }
    ensures small { result < 256 }
{
    let others = least_after(places, rest);
    if others >= TOO_LONG {
        return TOO_LONG;
    }
    shortest(bank, numbers) + others
}

/// How many occurrences a term of the node and terms at the places have together at least, where their sizes come to
/// `size`.
fn least_of(bank: &Bank, cells: &Cells, node: u32, places: &[Place], size: u32) -> u8
    requires below { (t n : ℕ) → AreBelow (length bank.now) (cell_at cells.now t n) }
    requires small { size < 2 ^ 31 }
    ensures least { (t : ℕ) → t ≤ size → (a : Applicative) → IsIn (cell_of bank.now cells.now t node) a
        → result ≤ length_of a + after places.now (size - t) }
    ensures small { result ≤ max_term_length + 1 }
{
    let mut least = TOO_LONG;
    for smaller in 0..size + 1 {
        let numbers = cells.get(smaller, node);
        least = least.min(least_with(bank, numbers, places, size - smaller));
    }
    least as u8
}

/// What the place says, and what it says of one more size.
fn extended_least(
    alloc: Global,
    bank: &Bank,
    cells: &Cells,
    size: u32,
    place: &Place,
    others: &[Place],
) -> Result<Vec<u8>, OutOfMemory>
    requires below { (t n : ℕ) → AreBelow (length bank.now) (cell_at cells.now t n) }
    requires small { size < 2 ^ 31 }
    ensures { IfOk result (λ new. IsExtended (cell_of bank.now cells.now)
        place.now.node others.now size place.now.least.items new.items) }
{
    let mut least = place.least.as_slice().to_vec(alloc)?;
    if least.len() as u64 == u64::from(size) {
        least.push(least_of(bank, cells, place.node, others, size))?;
    }
    Ok(least)
}

/// The places, with what they say of one more size.
fn extended_places(
    alloc: Global,
    bank: &Bank,
    cells: &Cells,
    size: u32,
    places: &[Place],
) -> Result<Vec<Place>, OutOfMemory>
    requires below { (t n : ℕ) → AreBelow (length bank.now) (cell_at cells.now t n) }
    requires small { size < 2 ^ 31 }
    ensures nodes { IfOk result (λ new. nodes_of new.items ≡ nodes_of places.now) }
    ensures bounds { IfOk result (λ new. GoesOn AreBounds (cell_of bank.now cells.now) size places.now new.items) }
{
    let Some((place, others)) = places.split_first() else {
        return Ok(Vec::new(alloc));
    };
    let least = extended_least(alloc, bank, cells, size, place, others)?;
    let mut new = extended_places(alloc, bank, cells, size, others)?;
    let node = place.node;
    new.insert(0, Place { node, least })?;
    Ok(new)
}

/// The plan, with what its places say of one more size.
fn extended_plan(
    alloc: Global,
    bank: &Bank,
    cells: &Cells,
    size: u32,
    plan: &Plan,
) -> Result<Plan, OutOfMemory>
    requires below { (t n : ℕ) → AreBelow (length bank.now) (cell_at cells.now t n) }
    requires small { size < 2 ^ 31 }
    ensures rule { IfOk result (λ new. rule_of new ≡ rule_of plan.now) }
    ensures ready { IfOk result (λ new. GoesOn IsReady (cell_of bank.now cells.now) size plan.now new) }
{
    match plan {
        Plan::Head(head, cost, places) => {
            let new = extended_places(alloc, bank, cells, size, places.as_slice())?;
            Ok(Plan::Head(*head, *cost, new))
        }
        Plan::Any(left, places) => {
            let new = extended_places(alloc, bank, cells, size, places.as_slice())?;
            Ok(Plan::Any(*left, new))
        }
    }
}

fn extended_node(
    alloc: Global,
    bank: &Bank,
    cells: &Cells,
    size: u32,
    plans: &[Plan],
) -> Result<Vec<Plan>, OutOfMemory>
    requires below { (t n : ℕ) → AreBelow (length bank.now) (cell_at cells.now t n) }
    requires small { size < 2 ^ 31 }
    ensures rules { IfOk result (λ new. rules_of new.items ≡ rules_of plans.now) }
    ensures ready { IfOk result (λ new. GoesOn AreReady (cell_of bank.now cells.now) size plans.now new.items) }
{
    let mut new = Vec::new(alloc);
    for plan in plans {
        new.push(extended_plan(alloc, bank, cells, size, plan)?)?;
    }
    Ok(new)
}

/// All plans, with what their places say of one more size, once the terms of this size are made.
fn extended(
    alloc: Global,
    bank: &Bank,
    cells: &Cells,
    size: u32,
    plans: &[NodePlans],
) -> Result<Vec<NodePlans>, OutOfMemory>
    requires below { (t n : ℕ) → AreBelow (length bank.now) (cell_at cells.now t n) }
    requires small { size < 2 ^ 31 }
    ensures book { IfOk result (λ new. book_of new.items ≡ book_of plans.now) }
    ensures ready { IfOk result (λ new. GoesOn AllReady (cell_of bank.now cells.now) size plans.now new.items) }
{
    let mut new = Vec::new(alloc);
    for node in plans {
        let node_plans = extended_node(alloc, bank, cells, size, node.as_slice())?;
        new.push(NodePlans::new(node_plans))?;
    }
    Ok(new)
}

/// The plans for the next size, once the terms of this size are made. Where no rule is wide they stay as they are.
pub(crate) fn next_plans(
    alloc: Global,
    bank: &Bank,
    cells: &Cells,
    size: u32,
    plans: Vec<NodePlans>,
    wide: bool,
) -> Result<Vec<NodePlans>, OutOfMemory>
    requires below { (t n : ℕ) → AreBelow (length bank.now) (cell_at cells.now t n) }
    requires small { size < 2 ^ 31 }
    ensures book { IfOk result (λ new. book_of new.items ≡ book_of plans.items) }
    ensures ready { IfOk result (λ new. GoesOn AllReady (cell_of bank.now cells.now) size plans.items new.items) }
{
    if wide {
        extended(alloc, bank, cells, size, plans.as_slice())
    } else {
        Ok(plans)
    }
}

/// Whether some rule has more than two arguments: only then can many ways to divide a size come to nothing.
pub(crate) fn is_wide(plans: &[NodePlans]) -> bool {
    plans.iter().any(|node| node.is_wide())
}
