//! Rules of a goal in flat columns.
ghost use Rattle.std.specs.Prelude.{◌≡◌, ◌<◌, ◌≤◌, ◌↔◌, ℕ, [], ◌∷◌, ◌++◌, Some, Contains, IfOk, IsTrue, OnErr, OnOk, drop, length, map, slice_get, slice_index_or};
ghost use Rattle.cls_base.specs.Cuts.{AreEnds, cut};
ghost use Rattle.cls_base.specs.declared.rule.Rule.TheVariants.{Any, Head};
ghost use Rattle.cls_base.specs.Arguments.{arguments_in, map_rule};

use cls_base::{Goals, Key, NodeRules, OutOfMemory, start_of};
use std::alloc::Global;
use std::marker::Model;

/// Rules whose arguments are goals, in flat columns. They are seen as the list of the rules.
#[derive(Drop)]
pub struct GoalRules<G> {
    // The component at the head of each rule, or none where any term may stand there.
    heads: Vec<Option<u32>>,
    // The arguments of all rules, one after another.
    goals: Vec<G>,
    // Where the arguments of each rule end.
    ends: Vec<u32>,
}

impl<G> Model for GoalRules<G> {
    ghost use Rattle.std.specs.Prelude.{List, length};
    ghost use Rattle.cls_base.specs.declared.rule.Rule.{Rule};
    ghost use Rattle.cls_base.specs.Cuts.{AreEnds, cut};
    ghost use Rattle.cls_base.specs.Columns.{AreColumns, rules_with};

    ghost Value = { List (Rule G) };

    ghost view = { λ r. rules_with r.heads.items (cut r.goals.items 0 r.ends.items) };

    ghost invariant = { λ r. AreEnds 0 (length r.goals.items) r.ends.items
        × AreColumns r.heads.items (cut r.goals.items 0 r.ends.items) };
}

impl<G> GoalRules<G> {
    /// No rules. They take no memory.
    pub fn new(alloc: Global) -> GoalRules<G>
        ensures { result ≡ [] }
    {
        GoalRules {
            heads: Vec::new(alloc),
            goals: Vec::new(alloc),
            ends: Vec::new(alloc),
        }
    }

    /// The number of rules.
    #[tactic(auto, using(cls_base::proofs::Columns::columns))]
    pub fn len(&self) -> usize
        ensures { result ≡ length self.now }
    {
        self.heads.len()
    }

    /// The arguments of all rules, one after another.
    #[tactic(auto, using(crate::proofs::GoalColumns::fillings))]
    pub fn goals(&self) -> &[G]
        ensures { result.now ≡ arguments_in self.now }
    {
        self.goals.as_slice()
    }

    /// The rules with these numbers in place of their arguments, one after another, and the arguments. It takes no
    /// memory.
    #[tactic(auto, using(crate::proofs::GoalColumns::fillings))]
    pub(crate) fn numbered(self, numbers: Vec<u32>) -> (NodeRules, Goals<G>)
        requires { length numbers.items ≡ length (arguments_in self) }
        ensures rules { (f : G → ℕ) → numbers.items ≡ map f (arguments_in self)
            → result.0 ≡ map (map_rule f) self }
        ensures goals { result.1 ≡ arguments_in self }
    {
        let GoalRules { heads, goals, ends } = self;
        (
            NodeRules::of_columns(heads, numbers, ends),
            Goals::new(goals),
        )
    }
}

impl<G: Drop> GoalRules<G> {
    /// No rules, and room for so many, which have so many arguments together. The only error is out of memory.
    pub fn with_room(alloc: Global, rules: usize, goals: usize) -> Result<GoalRules<G>, OutOfMemory>
        ensures { IfOk result (λ r. r ≡ []) }
    {
        Ok(GoalRules {
            heads: Vec::with_capacity(alloc, rules)?,
            goals: Vec::with_capacity(alloc, goals)?,
            ends: Vec::with_capacity(alloc, rules)?,
        })
    }

    /// Adds the rule of the component at the end, with the goals of the list for arguments, which leaves the list empty.
    /// The only error is out of memory, and then the rules and the list are as before. Where the rules would have more
    /// arguments together than a `u32` counts, that is out of memory too.
    #[tactic(auto, using(crate::proofs::GoalColumns::pushes))]
    pub fn push_head(&mut self, component: u32, args: &mut Vec<G>) -> Result<(), OutOfMemory>
        ensures ok { OnOk result (self.new ≡ self.old ++ Head component args.old.items ∷ []) }
        ensures taken { OnOk result (args.new.items ≡ []) }
        ensures err { OnErr result ((self.new ≡ self.old) × (args.new.items ≡ args.old.items)) }
    {
        let Ok(end) = u32::try_from(self.goals.len() + args.len()) else {
            return Err(OutOfMemory);
        };
        self.heads.reserve(1)?;
        self.ends.reserve(1)?;
        self.goals.append(args)?;
        self.heads.push(Some(component))?;
        self.ends.push(end)?;
        Ok(())
    }

    /// Adds the rule for any term at the end. The only error is out of memory, and then the rules are as before. Where
    /// they would have more arguments together than a `u32` counts, that is out of memory too.
    #[tactic(auto, using(crate::proofs::GoalColumns::pairs))]
    pub fn push_any(&mut self, left: G, right: G) -> Result<(), OutOfMemory>
        ensures ok { OnOk result (self.new ≡ self.old ++ Any left right ∷ []) }
        ensures err { OnErr result (self.new ≡ self.old) }
    {
        let Ok(end) = u32::try_from(self.goals.len() + 2) else {
            return Err(OutOfMemory);
        };
        self.heads.reserve(1)?;
        self.ends.reserve(1)?;
        self.goals.reserve(2)?;
        self.goals.push(left)?;
        self.goals.push(right)?;
        self.heads.push(None)?;
        self.ends.push(end)?;
        Ok(())
    }
}

impl<G: Key> GoalRules<G> {
    /// Whether one of the rules from a place on is that of the component with these arguments.
    pub fn has_head(&self, begin: usize, component: u32, args: &[G]) -> bool
        requires { begin ≤ length self.now }
        ensures { IsTrue result ↔ Contains (drop begin self.now) (Head component args.now) }
    {
        for place in begin..self.len() {
            if self.is_head(place, component, args) {
                return true;
            }
        }
        false
    }

    // Whether the rule at a place is that of the component with these arguments.
    #[tactic(auto, using(cls_base::proofs::Columns::columns, cls_base::proofs::Cutting::cuts))]
    fn is_head(&self, place: usize, component: u32, args: &[G]) -> bool
        requires { place < length self.now }
        ensures { IsTrue result ↔ (slice_get self.now place ≡ Some (Head component args.now)) }
    {
        self.heads[place] == Some(component)
            && part(self.goals.as_slice(), self.ends.as_slice(), place) == args
    }
}

// The list at a place, of those that are cut from the goals at these ends.
#[tactic(auto, using(cls_base::proofs::Cutting::cuts))]
fn part<'a, G>(goals: &'a [G], ends: &[u32], place: usize) -> &'a [G]
    requires ends { AreEnds 0 (length goals.now) ends.now }
    requires within { place < length ends.now }
    ensures { result.now ≡ slice_index_or (cut goals.now 0 ends.now) place [] }
{
    let start = start_of(ends, place);
    &goals[start..ends[place] as usize]
}
