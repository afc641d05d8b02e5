//! What becomes known by rows.
ghost use Rattle.std.specs.Prelude.{◌≡◌, ◌↔◌, ◌+◌, ◌<◌, ◌≤◌, ◌^◌, ◌++◌, Contains, IfOk, IsTrue, OnOk, length, replicate};
ghost use Rattle.indexmap.specs.IndexSet.{insert_all};
ghost use Rattle.cls_core.specs.Closure.{goals_of};
ghost use Rattle.cls_core.specs.Numbers.{numbers_from};
ghost use Rattle.cls_expand.specs.Memos.{max_memo_goals, max_memo_rules};
ghost use Rattle.cls_live.specs.declared.known.Part.{Part as PartSeen};
ghost use Rattle.cls_live.specs.Parts.{same};
ghost use Rattle.cls_live.specs.Slots.{nothing, rules_in};
ghost use Rattle.cls_live.specs.Updates.{AreUpdates, PutsPart, end_at, rules_in_parts, with_parts};

use crate::known::{Known, Part, count_part_rules, count_rules, unknown};
use crate::settling::settle_rules;
use cls_base::OutOfMemory;
use cls_base::limits::{MAX_MEMO_GOALS, MAX_MEMO_RULES};
use cls_core::{NodeAnswer, Rows};
use cls_expand::number_rows;
use cls_path::Nf;
use indexmap::IndexSet;
use std::alloc::Global;

/// What rows add to goals.
#[derive(Drop)]
pub(crate) struct Update {
    // The goals of the rows that aren't among the goals.
    pub(crate) goals: IndexSet<Nf>,
    // What is known of each of them at first, which is nothing.
    pub(crate) blanks: Vec<Known>,
    // What becomes known, by the numbers of goals.
    pub(crate) parts: Vec<Part>,
}

/// Below which slot all is known of the goal with this number.
fn end_of(known: &[Known], number: u32) -> u32
    ensures { result ≡ end_at known.now number }
{
    match known.get(number as usize) {
        Some(one) => one.end,
        None => 0,
    }
}

/// Puts the part of a row last, unless the row is wide or all of it is known: all slots below `end` are.
fn put_part(
    alloc: Global,
    live: &[u32],
    numbers: &[u32],
    next: u32,
    end: u32,
    number: u32,
    answer: &NodeAnswer,
    parts: &mut Vec<Part>,
) -> Result<(), OutOfMemory>
    ensures { OnOk result (PutsPart live.now numbers.now next end number answer.now parts.old.items parts.new.items) }
{
    let Some(rules) = answer.rules() else {
        return Ok(());
    };
    if end == next {
        return Ok(());
    }
    let rules = settle_rules(alloc, live, numbers, rules)?;
    parts.push(Part {
        number,
        known: Known { end: next, rules },
    })?;
    Ok(())
}

/// What becomes known by the rows, whose goals have these numbers.
fn parts_of(
    alloc: Global,
    live: &[u32],
    next: u32,
    known: &[Known],
    rows: &Rows<Nf>,
    numbers: &[u32],
) -> Result<Vec<Part>, OutOfMemory>
    requires { length numbers.now ≡ length rows.now }
    ensures { IfOk result (λ parts.
        AreUpdates live.now next known.now rows.now numbers.now (length rows.now) parts.items) }
{
    let mut parts = Vec::new(alloc);
    for row in 0..rows.count() {
        let number = numbers[row as usize];
        let end = end_of(known, number);
        put_part(
            alloc,
            live,
            numbers,
            next,
            end,
            number,
            rows.answer(row),
            &mut parts,
        )?;
    }
    Ok(parts)
}

/// So many times nothing.
fn unknowns(alloc: Global, count: usize) -> Result<Vec<Known>, OutOfMemory>
    ensures { IfOk result (λ blanks. blanks.items ≡ replicate count nothing) }
{
    let mut blanks = Vec::with_capacity(alloc, count)?;
    for _ in 0..count {
        blanks.push(unknown(alloc))?;
    }
    Ok(blanks)
}

impl Update {
    /// What the rows add to the goals, of which this much is known. `next` is the slot after those of the components.
    pub(crate) fn of(
        alloc: Global,
        live: &[u32],
        next: u32,
        goals: &IndexSet<Nf>,
        known: &[Known],
        rows: &Rows<Nf>,
    ) -> Result<Update, OutOfMemory>
        requires room { length (insert_all same goals.now.keys (goals_of rows.now)) < 2 ^ 32 }
        ensures goals { IfOk result (λ u.
            goals.now.keys ++ u.goals.keys ≡ insert_all same goals.now.keys (goals_of rows.now)) }
        ensures blanks { IfOk result (λ u. u.blanks.items ≡ replicate (length u.goals.keys) nothing) }
        ensures parts { IfOk result (λ u. AreUpdates live.now next known.now rows.now
            (numbers_from same goals.now.keys (goals_of rows.now)) (length rows.now) u.parts.items) }
    {
        let (numbers, added) = number_rows(alloc, goals, rows)?;
        let parts = parts_of(alloc, live, next, known, rows, numbers.as_slice())?;
        let blanks = unknowns(alloc, added.len())?;
        Ok(Update {
            goals: added,
            blanks,
            parts,
        })
    }

    /// Whether there is room for it beside the goals, of which this much is known.
    pub(crate) fn fits(&self, goals: &IndexSet<Nf>, known: &[Known]) -> bool
        requires known { rules_in known.now ≤ max_memo_rules }
        requires parts { rules_in_parts self.now.parts.items ≤ max_memo_rules }
        ensures { IsTrue result ↔ ((length goals.now.keys + length self.now.goals.keys ≤ max_memo_goals)
            × (rules_in known.now + rules_in_parts self.now.parts.items ≤ max_memo_rules)) }
    {
        let goals = goals.len() + self.goals.len();
        let rules = count_rules(known) + count_part_rules(self.parts.as_slice());
        goals <= MAX_MEMO_GOALS && rules <= MAX_MEMO_RULES
    }
}

/// Puts each part at its number. It takes no memory.
pub(crate) fn put_parts(known: &mut Vec<Known>, parts: Vec<Part>)
    requires { (u : PartSeen) → Contains parts.items u → u.number < length known.old.items }
    ensures { known.new.items ≡ with_parts known.old.items parts.items }
{
    for part in parts {
        known[part.number as usize] = part.known;
    }
}
