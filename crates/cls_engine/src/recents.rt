//! The grammars of the goals that were asked for last.
ghost use Rattle.std.specs.Prelude.{◌≡◌, ◌⊎◌, [], Contains, IfSome, IsTrue};
ghost use Rattle.cls_engine.specs.Recents.{HasFirstGoal, IsOneOf};
ghost use Rattle.cls_engine.specs.declared.recents.Kept.{Kept as KeptSeen};

use cls_base::NodeRules;
use cls_base::limits::{MAX_KEPT_BYTES, MAX_KEPT_GRAMMARS};
use cls_grammar::Grammar;
use cls_path::Nf;
use std::alloc::Global;

/// About how many bytes a goal takes, beside its paths and its rules.
const GOAL_BYTES: u64 = 256;

/// About how many bytes each path of a goal takes.
const PATH_BYTES: u64 = 16;

/// How many bytes a rule takes, beside its arguments.
const RULE_BYTES: u64 = 12;

/// How many bytes an argument of a rule takes.
const ARGUMENT_BYTES: u64 = 4;

/// A grammar that is kept.
#[derive(Drop)]
pub(crate) struct Kept {
    pub(crate) grammar: Grammar,
    // About how many bytes it takes.
    bytes: u64,
}

/// The grammars of the goals that were asked for last, the latest at the end. There are at most 64 of them. Several
/// take at most about 64 MiB together.
#[derive(Drop)]
pub(crate) struct Recents {
    pub(crate) kept: Vec<Kept>,
}

/// About how many bytes the goal takes with its rules.
fn bytes_of_goal(goal: &Nf, rules: &NodeRules) -> u64 {
    let paths = (goal.paths().len() as u64).saturating_mul(PATH_BYTES);
    let heads = (rules.len() as u64).saturating_mul(RULE_BYTES);
    let arguments = (rules.arguments().len() as u64).saturating_mul(ARGUMENT_BYTES);
    GOAL_BYTES
        .saturating_add(paths)
        .saturating_add(heads)
        .saturating_add(arguments)
}

/// About how many bytes the grammar takes.
fn bytes_of(grammar: &Grammar) -> u64 {
    let mut bytes: u64 = 0;
    for goal in 0..grammar.count() {
        bytes = bytes.saturating_add(bytes_of_goal(grammar.goal(goal), grammar.rules(goal)));
    }
    bytes
}

impl Kept {
    /// Whether it is the grammar of the goal.
    fn is_of(&self, goal: &Nf) -> bool
        ensures { IsTrue result → HasFirstGoal self.now.grammar goal.now }
    {
        // For the prover: there is a first goal.
        let _count = self.grammar.count();
        self.grammar.goal(0) == goal
    }
}

impl Recents {
    /// None at all. It takes no memory.
    pub(crate) fn new(alloc: Global) -> Recents
        ensures { result.kept.items ≡ [] }
    {
        Recents {
            kept: Vec::new(alloc),
        }
    }

    /// Lets all go. It takes no memory.
    pub(crate) fn forget(&mut self)
        ensures { self.new.kept.items ≡ [] }
    {
        self.kept.clear();
    }

    /// The place of the goal's grammar, if it is kept.
    fn place_of(&self, goal: &Nf) -> Option<usize>
        ensures { IfSome result (λ place. IsOneOf self.now.kept.items place goal.now) }
    {
        for place in 0..self.kept.len() {
            if self.kept[place].is_of(goal) {
                return Some(place);
            }
        }
        None
    }

    /// Takes the goal's grammar out, if it is kept.
    pub(crate) fn take(&mut self, goal: &Nf) -> Option<Grammar>
        ensures of_goal { IfSome result (λ g. HasFirstGoal g goal.now) }
        ensures kept { IfSome result (λ g. (k : KeptSeen) × Contains self.old.kept.items k × (k.grammar ≡ g)) }
        ensures others { (k : KeptSeen) → Contains self.new.kept.items k → Contains self.old.kept.items k }
    {
        let place = self.place_of(goal)?;
        let Kept { grammar, .. } = self.kept.remove(place);
        Some(grammar)
    }

    /// Whether a grammar that takes so many bytes may be kept beside the others.
    fn has_room(&self, bytes: u64) -> bool {
        let mut together = bytes;
        for kept in self.kept.as_slice() {
            together = together.saturating_add(kept.bytes);
        }
        self.kept.len() < MAX_KEPT_GRAMMARS && together <= MAX_KEPT_BYTES
    }

    /// Drops the oldest grammars until there is room for one that takes so many bytes, or none is left.
    fn make_room(&mut self, bytes: u64)
        ensures { (k : KeptSeen) → Contains self.new.kept.items k → Contains self.old.kept.items k }
    {
        while !self.kept.is_empty() && !self.has_room(bytes) {
            drop(self.kept.remove(0));
        }
    }

    /// Keeps the grammar, and drops the oldest ones that there is no room for beside it. If memory runs out it isn't
    /// kept.
    pub(crate) fn put(&mut self, grammar: Grammar)
        ensures { (k : KeptSeen) → Contains self.new.kept.items k
            → Contains self.old.kept.items k ⊎ (k.grammar ≡ grammar) }
    {
        let bytes = bytes_of(&grammar);
        self.make_room(bytes);
        let kept = Kept { grammar, bytes };
        drop(self.kept.push(kept));
    }
}
