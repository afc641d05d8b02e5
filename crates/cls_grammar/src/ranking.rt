//! The ranks of the nodes of a rule book, found from the least on.
//!
//! A rule waits for the first of its arguments that isn't known yet. When a node becomes known, each rule that waits
//! for it goes on to its next such argument, and one that has none gives its own node a rank. So each argument is passed
//! once. A rule of a node whose rank is known is done: it would give the node no lower one. So of each node a rule without
//! arguments goes first, and then no other rule of the node waits.
ghost use Rattle.std.specs.Prelude.{◌≡◌, ◌<◌, ◌≤◌, ◌+◌, ◌^◌, ◌↔◌, ℕ, List, [], ◌∷◌, ◌++◌, Option, Some, None, IsTrue, IfOk, OnOk, IfSome, IfNone, length, slice_get, take, map, is_some, option_copied};
ghost use Rattle.cls_base.specs.Languages.{rules_at};
ghost use Rattle.cls_base.specs.Lists.{AreBelow};
ghost use Rattle.cls_base.specs.Arguments.{arguments_of_rule};
ghost use Rattle.cls_base.specs.Columns.{rule_of};
ghost use Rattle.cls_grammar.specs.Ranks.{AreRanks, AreProductive};
ghost use Rattle.cls_grammar.specs.Climbs.{IsKnown, AllKnown};

use crate::columns::Flags;
use crate::waiting::{Queue, Waiting, WaitingLists};
use cls_base::{NodeRules, OutOfMemory, RuleBook, RuleRef};
use std::alloc::Global;
use std::marker::Model;

/// How far the ranks are known.
#[derive(Drop)]
pub(crate) struct Climb {
    // The rank of each node, if it is known.
    ranks: Vec<Option<u32>>,
    // The nodes whose rank is known, in the order in which it became known.
    known: Vec<u32>,
    // The rules that wait for each node.
    waiting: WaitingLists,
}

impl Model for Climb {
    ghost use Rattle.cls_grammar.specs.Climbs.{State};

    ghost Value = { State };

    ghost view = { λ c. record { ranks = c.ranks.items; known = c.known.items; waiting = c.waiting } };
}

// Whether the rank of the node is known and no more than the height.
fn is_known(ranks: &[Option<u32>], node: u32, height: u32) -> bool
    requires { node < length ranks.now }
    ensures { IsTrue result ↔ IsKnown ranks.now height node }
{
    match ranks[node as usize] {
        Some(rank) => rank <= height,
        None => false,
    }
}

// The first of the arguments that isn't known, and its place. Those before the given place are known.
fn first_unknown(
    ranks: &[Option<u32>],
    nodes: &[u32],
    from: usize,
    height: u32,
) -> Option<(usize, u32)>
    requires nodes { AreBelow (length ranks.now) nodes.now }
    requires within { from ≤ length nodes.now }
    requires front { AllKnown ranks.now height (take from nodes.now) }
    ensures none { IfNone result (AllKnown ranks.now height nodes.now) }
    ensures place { IfSome result (λ m. slice_get nodes.now m.0 ≡ Some m.1) }
    ensures before { IfSome result (λ m. AllKnown ranks.now height (take m.0 nodes.now)) }
    ensures unknown { IfSome result (λ m. IsKnown ranks.now height m.1 → ⊥) }
{
    for place in from..nodes.len() {
        let node = nodes[place];
        if !is_known(ranks, node, height) {
            return Some((place, node));
        }
    }
    None
}

// Whether the rule has no argument.
fn is_leaf(rule: RuleRef<'_>) -> bool {
    match rule {
        RuleRef::Head { component: _, args } => args.is_empty(),
        RuleRef::Any { left: _, right: _ } => false,
    }
}

// A rule without arguments among the first ones.
fn leaf_among(rules: &NodeRules, count: u32) -> Option<u32>
    requires { count ≤ length rules.now }
    ensures { IfSome result (λ rule. rule < count) }
{
    for rule in 0..count {
        if is_leaf(rules.get(rule as usize)) {
            return Some(rule);
        }
    }
    None
}

impl Climb {
    ghost use Rattle.cls_grammar.specs.declared.waiting.Waiting.{Waiting};
    ghost use Rattle.cls_grammar.specs.Climbs.{State, IsKept, begun, with_rank, with_waiting, without_waiting, waits_at, node_waits, all_waits};

    // Nothing is known.
    fn begin(alloc: Global, count: u32) -> Result<Climb, OutOfMemory>
        ensures { IfOk result (λ climb. climb ≡ begun count) }
    {
        let mut ranks = Vec::with_capacity(alloc, count as usize)?;
        for _ in 0..count {
            ranks.push(None)?;
        }
        Ok(Climb {
            ranks,
            known: Vec::new(alloc),
            waiting: WaitingLists::new(alloc, count)?,
        })
    }

    // The first argument of the rule that isn't known, and its place. Those before the given place are known.
    fn next_unknown(&self, rule: RuleRef<'_>, from: usize, height: u32) -> Option<(usize, u32)>
        requires nodes { AreBelow (length self.now.ranks) (arguments_of_rule (rule_of rule)) }
        requires within { from ≤ length (arguments_of_rule (rule_of rule)) }
        requires front { AllKnown self.now.ranks height (take from (arguments_of_rule (rule_of rule))) }
        ensures none { IfNone result (AllKnown self.now.ranks height (arguments_of_rule (rule_of rule.entry))) }
        ensures place { IfSome result (λ m. slice_get (arguments_of_rule (rule_of rule.entry)) m.0 ≡ Some m.1) }
        ensures before { IfSome result (λ m.
            AllKnown self.now.ranks height (take m.0 (arguments_of_rule (rule_of rule.entry)))) }
        ensures unknown { IfSome result (λ m. IsKnown self.now.ranks height m.1 → ⊥) }
    {
        let ranks = self.ranks.as_slice();
        match rule {
            RuleRef::Head { component: _, args } => first_unknown(ranks, args, from, height),
            RuleRef::Any { left, right } => first_unknown(ranks, &[left, right], from, height),
        }
    }

    // The rank of the node, which is known.
    fn rank(&self, node: u32) -> u32
        requires { (rank : ℕ) × (slice_get self.now.ranks node ≡ Some (Some rank)) }
        ensures { slice_get self.now.ranks node ≡ Some (Some result) }
    {
        self.ranks[node as usize].unwrap()
    }

    // Whether the rank of the node is known.
    fn has_rank(&self, node: u32) -> bool
        requires { node < length self.now.ranks }
        ensures { IsTrue result ↔ ((rank : ℕ) × (slice_get self.now.ranks node ≡ Some (Some rank))) }
    {
        self.ranks[node as usize].is_some()
    }

    // The rule waits for the node.
    fn wait(&mut self, node: u32, waiting: Waiting) -> Result<(), OutOfMemory>
        requires { node < length self.old.waiting }
        ensures { OnOk result (self.new ≡ with_waiting self.old node waiting) }
    {
        self.waiting.push(node, waiting)
    }

    // The rules that wait for the node, which no longer do, in place of those in the queue.
    fn take_waiting(&mut self, node: u32, queue: &mut Queue) -> Result<(), OutOfMemory>
        requires { node < length self.old.waiting }
        ensures queue { OnOk result (queue.new ≡ waits_at self.old node) }
        ensures after { OnOk result (self.new ≡ without_waiting self.old node) }
    {
        self.waiting.take(node, queue)
    }

    // The node has a derivation tree that is one higher than the height. Where its rank isn't known, it is this.
    fn reach(&mut self, node: u32, height: u32) -> Result<(), OutOfMemory>
        requires within { node < length self.old.ranks }
        requires small { slice_get self.old.ranks node ≡ Some None → height + 1 < 2 ^ 32 }
        ensures known { (r : ℕ) → slice_get self.old.ranks node ≡ Some (Some r) → OnOk result (self.new ≡ self.old) }
        ensures new { slice_get self.old.ranks node ≡ Some None
            → OnOk result (self.new ≡ with_rank self.old node (height + 1)) }
    {
        if self.ranks[node as usize].is_none() {
            self.known.push(node)?;
            self.ranks[node as usize] = Some(height + 1);
        }
        Ok(())
    }

    // The rule goes on from the argument for which it waited.
    fn advance<B: RuleBook>(
        &mut self,
        book: &B,
        waiting: Waiting,
        height: u32,
    ) -> Result<(), OutOfMemory>
        requires { (done : ℕ) × (todo : List Waiting) × IsKept (B.book book.now) done height (waiting ∷ todo) self.old }
        ensures { OnOk result ((done : ℕ) (todo : List Waiting)
            → IsKept (B.book book.now) done height (waiting ∷ todo) self.old
            → IsKept (B.book book.now) done height todo self.new) }
    {
        if self.has_rank(waiting.node) {
            return Ok(());
        }
        let rule = book.rules(waiting.node).get(waiting.rule as usize);
        let from = waiting.argument as usize;
        let Some((argument, node)) = self.next_unknown(rule, from, height) else {
            self.reach(waiting.node, height)?;
            return Ok(());
        };
        // More arguments than a number counts take more memory than there is.
        let Ok(argument) = u32::try_from(argument) else {
            return Err(OutOfMemory);
        };
        let next = Waiting {
            node: waiting.node,
            rule: waiting.rule,
            argument,
        };
        self.wait(node, next)?;
        Ok(())
    }

    // Rules go on, one after the other.
    fn advance_all<B: RuleBook>(
        &mut self,
        book: &B,
        queue: &[Waiting],
        height: u32,
    ) -> Result<(), OutOfMemory>
        requires { (done : ℕ) × IsKept (B.book book.now) done height queue.now self.old }
        ensures { OnOk result ((done : ℕ)
            → IsKept (B.book book.now) done height queue.now self.old
            → IsKept (B.book book.now) done height [] self.new) }
    {
        for waiting in queue {
            self.advance(book, *waiting, height)?;
        }
        Ok(())
    }

    // A rule without arguments begins, if the node has one, which has so many rules.
    fn start_leaf<B: RuleBook>(
        &mut self,
        book: &B,
        node: u32,
        count: u32,
    ) -> Result<(), OutOfMemory>
        requires within { node < length (B.book book.now) }
        requires count { count ≡ length (rules_at (B.book book.now) node) }
        requires kept { (todo : List Waiting)
            × IsKept (B.book book.now) 0 0 (node_waits node 0 (rules_at (B.book book.now) node) ++ todo) self.old }
        ensures { OnOk result ((todo : List Waiting)
            → IsKept (B.book book.now) 0 0 (node_waits node 0 (rules_at (B.book book.now) node) ++ todo) self.old
            → IsKept (B.book book.now) 0 0 (node_waits node 0 (rules_at (B.book book.now) node) ++ todo) self.new) }
    {
        let Some(rule) = leaf_among(book.rules(node), count) else {
            return Ok(());
        };
        let waiting = Waiting {
            node,
            rule,
            argument: 0,
        };
        self.advance(book, waiting, 0)?;
        Ok(())
    }

    // Each rule of the node begins, one without arguments first.
    fn start_node<B: RuleBook>(&mut self, book: &B, node: u32) -> Result<(), OutOfMemory>
        requires within { node < length (B.book book.now) }
        requires kept { (todo : List Waiting)
            × IsKept (B.book book.now) 0 0 (node_waits node 0 (rules_at (B.book book.now) node) ++ todo) self.old }
        ensures { OnOk result ((todo : List Waiting)
            → IsKept (B.book book.now) 0 0 (node_waits node 0 (rules_at (B.book book.now) node) ++ todo) self.old
            → IsKept (B.book book.now) 0 0 todo self.new) }
    {
        // More rules than a number counts take more memory than there is.
        let Ok(count) = u32::try_from(book.rules(node).len()) else {
            return Err(OutOfMemory);
        };
        self.start_leaf(book, node, count)?;
        for rule in 0..count {
            let waiting = Waiting {
                node,
                rule,
                argument: 0,
            };
            self.advance(book, waiting, 0)?;
        }
        Ok(())
    }

    // Each rule begins.
    fn start<B: RuleBook>(&mut self, book: &B) -> Result<(), OutOfMemory>
        requires { IsKept (B.book book.now) 0 0 (all_waits 0 (B.book book.now)) self.old }
        ensures { OnOk result (IsKept (B.book book.now) 0 0 [] self.new) }
    {
        for node in 0..book.count() {
            self.start_node(book, node)?;
        }
        Ok(())
    }

    // The node that became known at the place.
    fn known_at(&self, place: usize) -> Option<u32>
        ensures { result ≡ slice_get self.now.known place }
    {
        self.known.get(place).copied()
    }

    // The rules that wait for the node, which became known at the place, go on.
    fn rise<B: RuleBook>(
        &mut self,
        book: &B,
        place: usize,
        node: u32,
        queue: &mut Queue,
    ) -> Result<(), OutOfMemory>
        requires node { slice_get self.old.known place ≡ Some node }
        requires kept { (height : ℕ) × IsKept (B.book book.now) place height [] self.old }
        ensures { OnOk result ((height : ℕ) × IsKept (B.book book.now) (place + 1) height [] self.new) }
    {
        let height = self.rank(node);
        self.take_waiting(node, queue)?;
        self.advance_all(book, queue.as_slice(), height)?;
        Ok(())
    }

    fn into_ranks(self) -> Vec<Option<u32>>
        ensures { result.items ≡ self.ranks }
    {
        let Climb {
            ranks,
            known: _,
            waiting: _,
        } = self;
        ranks
    }
}

/// The rank of each node, None for one that isn't productive. The only error is out of memory.
pub(crate) fn ranks_of<B: RuleBook>(
    alloc: Global,
    book: &B,
) -> Result<Vec<Option<u32>>, OutOfMemory>
    ensures { IfOk result (λ ranks. AreRanks (B.book book.now) ranks.items) }
{
    let mut climb = Climb::begin(alloc, book.count())?;
    climb.start(book)?;
    let mut queue = Queue::new(alloc);
    let mut place = 0;
    while let Some(node) = climb.known_at(place) {
        climb.rise(book, place, node, &mut queue)?;
        place += 1;
    }
    Ok(climb.into_ranks())
}

// Whether each rank is there.
fn flags_of(alloc: Global, ranks: &[Option<u32>]) -> Result<Vec<bool>, OutOfMemory>
    ensures { IfOk result (λ flags. flags.items ≡ map is_some ranks.now) }
{
    let flags = ranks.iter().map(|rank| rank.is_some()).collect(alloc)?;
    Ok(flags)
}

/// Whether each node of the rule book is productive: whether it has a derivation tree. The only error is out of memory.
pub fn productive<B: RuleBook>(alloc: Global, book: &B) -> Result<Flags, OutOfMemory>
    ensures { IfOk result (AreProductive (B.book book.now)) }
{
    let ranks = ranks_of(alloc, book)?;
    Ok(Flags::new(flags_of(alloc, ranks.as_slice())?))
}
