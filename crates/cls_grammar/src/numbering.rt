//! Rows in a new numbering, breadth first from the first one in the order of rules and arguments.
ghost use Rattle.std.specs.Prelude.{◌≡◌, ◌<◌, ◌^◌, ℕ, [], Some, None, IfOk, IfErr, OnOk, IsTrue, ◌↔◌, length, map, nat_eq, Contains, slice_get};
ghost use Rattle.std.specs.List.{position_or_len};
ghost use Rattle.indexmap.specs.IndexSet.{insert_key, insert_all};
ghost use Rattle.cls_core.specs.Arguments.{arguments_of};
ghost use Rattle.cls_base.specs.Arguments.{arguments_in, map_rule};
ghost use Rattle.cls_core.specs.Renumbering.{order, renumbered};
ghost use Rattle.cls_grammar.specs.Faults.{IfWide};
ghost use Rattle.cls_grammar.specs.Grammars.{MakeGrammar, first_wide};

use crate::fault::GrammarFault;
use crate::grammar::Grammar;
use cls_base::{NodeRules, OutOfMemory};
use cls_core::{NodeAnswer, Rows};
use cls_path::Nf;
use std::alloc::Global;
use std::marker::Model;

/// Numbers below a bound in the order in which they were added, each once, with the place of each.
#[derive(Drop)]
pub(crate) struct Numbering {
    order: Vec<u32>,
    // The place of each number below the bound that was added.
    places: Vec<Option<u32>>,
}

impl Model for Numbering {
    ghost use Rattle.std.specs.Prelude.{length};
    ghost use Rattle.cls_grammar.specs.Numberings.{Numbered, HasPlaces};

    ghost Value = { Numbered };

    ghost view = { λ n. record { order = n.order.items; bound = length n.places.items } };

    ghost invariant = { λ n. HasPlaces n.order.items n.places.items };
}

// Whether the number has no place.
fn is_new(places: &[Option<u32>], number: u32) -> bool
    requires { number < length places.now }
    ensures { IsTrue result ↔ (slice_get places.now number ≡ Some None) }
{
    places[number as usize].is_none()
}

// The place of the number, which has one.
fn known_place(places: &[Option<u32>], number: u32) -> u32
    requires { (place : ℕ) × (slice_get places.now number ≡ Some (Some place)) }
    ensures { slice_get places.now number ≡ Some (Some result) }
{
    places[number as usize].unwrap()
}

impl Numbering {
    // No number below the bound was added.
    fn new(alloc: Global, bound: u32) -> Result<Numbering, OutOfMemory>
        ensures order { IfOk result (λ n. n.order ≡ []) }
        ensures bound { IfOk result (λ n. n.bound ≡ bound) }
    {
        let mut places = Vec::with_capacity(alloc, bound as usize)?;
        for _ in 0..bound {
            places.push(None)?;
        }
        Ok(Numbering {
            order: Vec::new(alloc),
            places,
        })
    }

    // Puts the number behind the others, unless it is among them.
    fn add(&mut self, number: u32) -> Result<(), OutOfMemory>
        requires { number < self.old.bound }
        ensures order { OnOk result (self.new.order ≡ insert_key nat_eq self.old.order number) }
        ensures bound { OnOk result (self.new.bound ≡ self.old.bound) }
    {
        if is_new(self.places.as_slice(), number) {
            let place = self.order.len() as u32;
            self.order.push(number)?;
            self.places[number as usize] = Some(place);
        }
        Ok(())
    }

    // Does so with numbers, one after the other.
    fn add_all(&mut self, numbers: &[u32]) -> Result<(), OutOfMemory>
        requires { (n : ℕ) → Contains numbers.now n → n < self.old.bound }
        ensures order { OnOk result (self.new.order ≡ insert_all nat_eq self.old.order numbers.now) }
        ensures bound { OnOk result (self.new.bound ≡ self.old.bound) }
    {
        for number in numbers {
            self.add(*number)?;
        }
        Ok(())
    }

    // Does so with the arguments of an answer.
    fn add_answer(&mut self, answer: &NodeAnswer) -> Result<(), OutOfMemory>
        requires { (n : ℕ) → Contains (arguments_of answer.now) n → n < self.old.bound }
        ensures order { OnOk result (self.new.order ≡ insert_all nat_eq self.old.order (arguments_of answer.now)) }
        ensures bound { OnOk result (self.new.bound ≡ self.old.bound) }
    {
        match answer.rules() {
            Some(rules) => self.add_all(rules.arguments()),
            None => Ok(()),
        }
    }

    // The number at the place.
    fn get(&self, place: u32) -> Option<u32>
        ensures { result ≡ slice_get self.now.order place }
    {
        self.order.get(place as usize).copied()
    }

    // The numbers in their order.
    fn as_slice(&self) -> &[u32]
        ensures { result.now ≡ self.now.order }
    {
        self.order.as_slice()
    }

    // The place of a number.
    fn place_of(&self, number: u32) -> u32
        requires { Contains self.now.order number }
        ensures { result ≡ position_or_len (nat_eq number) self.now.order }
    {
        known_place(self.places.as_slice(), number)
    }

    // The places of numbers.
    fn places_of(&self, alloc: Global, numbers: &[u32]) -> Result<Vec<u32>, OutOfMemory>
        requires { (n : ℕ) → Contains numbers.now n → Contains self.now.order n }
        ensures { IfOk result (λ places.
            places.items ≡ map (λ n. position_or_len (nat_eq n) self.now.order) numbers.now) }
    {
        let mut places = Vec::with_capacity(alloc, numbers.len())?;
        for number in numbers {
            places.push(self.place_of(*number))?;
        }
        Ok(places)
    }

    // The rules with places in place of numbers.
    fn place_rules(&self, alloc: Global, rules: &NodeRules) -> Result<NodeRules, OutOfMemory>
        requires { (n : ℕ) → Contains (arguments_in rules.now) n → Contains self.now.order n }
        ensures { IfOk result (λ rs. rs ≡ map (map_rule (λ n. position_or_len (nat_eq n) self.now.order)) rules.now) }
    {
        let places = self.places_of(alloc, rules.arguments())?;
        rules.with_arguments(alloc, places)
    }
}

/// The numbers of the rows, breadth first from the first one. The only error is out of memory.
pub(crate) fn breadth_first(alloc: Global, rows: &Rows<Nf>) -> Result<Numbering, OutOfMemory>
    requires { MakeGrammar rows.now }
    ensures { IfOk result (λ found. found.order ≡ order rows.now) }
{
    let mut found = Numbering::new(alloc, rows.count())?;
    found.add(0)?;
    for place in 0..rows.count() {
        if let Some(row) = found.get(place) {
            found.add_answer(rows.answer(row))?;
        }
    }
    Ok(found)
}

/// The grammar of the rows in the order in which they were found.
pub(crate) fn placed_rows(
    alloc: Global,
    rows: &Rows<Nf>,
    found: &Numbering,
) -> Result<Grammar, GrammarFault>
    requires grammar { MakeGrammar rows.now }
    requires order { found.now.order ≡ order rows.now }
    ensures ok { IfOk result (λ g. g ≡ renumbered rows.now) }
    ensures none_wide { OnOk result (first_wide rows.now ≡ None) }
    ensures wide { IfErr result (IfWide (λ goal. first_wide (renumbered rows.now) ≡ Some goal)) }
{
    let count = rows.count() as usize;
    let mut goals = Vec::with_capacity(alloc, count)?;
    let mut rules = Vec::with_capacity(alloc, count)?;
    for row in found.as_slice() {
        let goal = rows.goal(*row).copy(alloc)?;
        let Some(old) = rows.answer(*row).rules() else {
            return Err(GrammarFault::Wide(goal));
        };
        let new = found.place_rules(alloc, old)?;
        rules.push(new)?;
        goals.push(goal)?;
    }
    Ok(Grammar { goals, rules })
}
