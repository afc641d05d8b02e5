//! What is known of each goal of a grammar, by its number.
ghost use Rattle.std.specs.Prelude.{◌≡◌};
ghost use Rattle.std.specs.List.{list_all};
ghost use Rattle.cls_base.specs.Columns.{rule_of};
ghost use Rattle.cls_grammar.specs.Trimming.{is_flagged as flag_at};

use cls_base::RuleRef;
use std::marker::Model;

/// A yes or no for each goal, seen as that list. It is made from a `Vec` and gives it back, neither of which takes
/// memory.
#[derive(Drop)]
pub struct Flags {
    items: Vec<bool>,
}

impl Model for Flags {
    ghost use Rattle.std.specs.Prelude.{List, Bool};

    ghost Value = { List Bool };

    ghost view = { λ f. f.items.items };
}

impl Flags {
    ghost use Rattle.cls_grammar.specs.Trimming.{is_useful};

    /// The list of these flags.
    pub fn new(items: Vec<bool>) -> Flags
        ensures { result ≡ items.items }
    {
        Flags { items }
    }

    /// The flags as a slice.
    pub fn as_slice(&self) -> &[bool]
        ensures { result.now ≡ self.now }
    {
        self.items.as_slice()
    }

    /// Whether each argument of the rule has its flag. If the flags are those of productive goals, the rule then makes
    /// terms.
    pub fn is_useful(&self, rule: RuleRef<'_>) -> bool
        ensures { result ≡ is_useful self.now (rule_of rule.entry) }
    {
        match rule {
            RuleRef::Head { component: _, args } => self.are_up(args),
            RuleRef::Any { left, right } => self.are_up(&[left, right]),
        }
    }

    // Whether each of the goals has its flag.
    fn are_up(&self, goals: &[u32]) -> bool
        ensures { result ≡ list_all (flag_at self.now) goals.now }
    {
        are_flagged(self.items.as_slice(), goals)
    }

    /// The vector of the flags.
    pub fn into_vec(self) -> Vec<bool>
        ensures { result.items ≡ self }
    {
        self.items
    }
}

/// A rank for each goal that has one, seen as that list. It is made from a `Vec` and gives it back, neither of which
/// takes memory.
#[derive(Drop)]
pub struct Ranks {
    items: Vec<Option<u32>>,
}

impl Model for Ranks {
    ghost use Rattle.std.specs.Prelude.{List, Option, ℕ};

    ghost Value = { List (Option ℕ) };

    ghost view = { λ r. r.items.items };
}

impl Ranks {
    /// The list of these ranks.
    pub fn new(items: Vec<Option<u32>>) -> Ranks
        ensures { result ≡ items.items }
    {
        Ranks { items }
    }

    /// The ranks as a slice.
    pub fn as_slice(&self) -> &[Option<u32>]
        ensures { result.now ≡ self.now }
    {
        self.items.as_slice()
    }

    /// The vector of the ranks.
    pub fn into_vec(self) -> Vec<Option<u32>>
        ensures { result.items ≡ self }
    {
        self.items
    }
}

// Whether the goal has its flag.
fn is_flagged(flags: &[bool], goal: u32) -> bool
    ensures { result ≡ flag_at flags.now goal }
{
    flags.get(goal as usize).copied().unwrap_or(false)
}

// Whether each of the goals has its flag.
fn are_flagged(flags: &[bool], goals: &[u32]) -> bool
    ensures { result ≡ list_all (flag_at flags.now) goals.now }
{
    goals.iter().all(|goal| is_flagged(flags, *goal))
}
