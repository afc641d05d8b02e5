//! The first rule whose arguments have lower ranks, and the first cover that gives it.
ghost use Rattle.std.specs.Prelude.{◌≡◌, ℕ, ◌<◌, ◌≤◌, ◌^◌, ◌↔◌, List, Contains, IfOk, IsTrue, MatchOption, length, map, slice_get, Some};
ghost use Rattle.cls_base.specs.Lists.{AreBelow};
ghost use Rattle.cls_base.specs.declared.rule.Rule.{Rule};
ghost use Rattle.cls_base.specs.Books.{HaveNodesBelow, HasNodesBelow};
ghost use Rattle.cls_base.specs.Columns.{rule_of};
ghost use Rattle.cls_path.specs.Paths.{listed};
ghost use Rattle.cls_library.specs.Arrows.{arity_of};
ghost use Rattle.cls_library.specs.Libraries.{paths_at, arrows_at};
ghost use Rattle.cls_library.specs.Rules.{IsWide};
ghost use Rattle.cls_expand.specs.Answers.{IsReady};
ghost use Rattle.cls_expand.specs.Making.{choice_at};
ghost use Rattle.cls_cert.specs.Conditions.{forms_of};
ghost use Rattle.cls_cert.specs.Making.{IsFirst, IsFirstChoice};
ghost use Rattle.cls_cert.specs.Building.{HaveLess, HasLess, GivesRule, IsFirstAt, IsGiven, goals_over, rule_over};

use crate::fronts::few_covers;
use cls_base::{NodeRules, NumberLists, OutOfMemory, RuleRef};
use cls_expand::{arguments_of, families_of};
use cls_grammar::Grammar;
use cls_library::Library;
use cls_path::Nf;
use cls_proof::Positions;
use std::alloc::Global;

/// Whether the goal has a rank that is less than this one.
fn is_less(ranks: &[Option<u32>], goal: u32, rank: u32) -> bool
    requires { goal < length ranks.now }
    ensures { IsTrue result ↔ ((k : ℕ) × (slice_get ranks.now goal ≡ Some (Some k)) × (k < rank)) }
{
    match ranks[goal as usize] {
        Some(other) => other < rank,
        None => false,
    }
}

/// Whether each of the goals has a rank that is less than this one.
fn are_less(ranks: &[Option<u32>], goals: &[u32], rank: u32) -> bool
    requires { AreBelow (length ranks.now) goals.now }
    ensures { IsTrue result ↔ HaveLess ranks.now rank goals.now }
{
    for goal in goals {
        if !is_less(ranks, *goal, rank) {
            return false;
        }
    }
    true
}

/// Whether each argument of the rule has a rank that is less than this one.
fn has_less(ranks: &[Option<u32>], rule: RuleRef<'_>, rank: u32) -> bool
    requires { HasNodesBelow (length ranks.now) (rule_of rule) }
    ensures { IsTrue result ↔ HasLess ranks.now rank (rule_of rule.entry) }
{
    match rule {
        RuleRef::Head { component: _, args } => are_less(ranks, args, rank),
        RuleRef::Any { left, right } => are_less(ranks, &[left, right], rank),
    }
}

/// The first of the rules whose arguments all have ranks less than this one.
pub(crate) fn first_rule<'a>(
    ranks: &[Option<u32>],
    rules: &'a NodeRules,
    rank: u32,
) -> Option<RuleRef<'a>>
    requires { HaveNodesBelow (length ranks.now) rules.now }
    ensures { MatchOption result
        ((j : ℕ) (r : Rule ℕ) → slice_get rules.now j ≡ Some r → HasLess ranks.now rank r → ⊥)
        (λ rule. IsFirst (HasLess ranks.now rank) rules.now (rule_of rule)) }
{
    for place in 0..rules.len() {
        let rule = rules.get(place);
        if has_less(ranks, rule, rank) {
            return Some(rule);
        }
    }
    None
}

/// Whether the goals are those with these numbers.
fn are_goals(grammar: &Grammar, numbers: &[u32], goals: &[Nf]) -> bool
    requires { AreBelow (length grammar.now) numbers.now }
    ensures { IsTrue result ↔ (map listed goals.now ≡ goals_over (forms_of grammar.now) numbers.now) }
{
    if numbers.len() != goals.len() {
        return false;
    }
    for (i, number) in numbers.iter().enumerate() {
        if goals[i] != *grammar.goal(*number) {
            return false;
        }
    }
    true
}

/// Whether the cover gives the rule of the component with these arguments.
fn gives(
    alloc: Global,
    lib: &Library,
    grammar: &Grammar,
    x: u32,
    args: &[u32],
    cover: &[u32],
) -> Result<bool, OutOfMemory>
    requires declared { x < length lib.now.components }
    requires few { length args.now ≤ arity_of (paths_at lib.now x) }
    requires short { length args.now < 2 ^ 32 }
    requires args { AreBelow (length grammar.now) args.now }
    requires below { (i : ℕ) → Contains cover.now i → i < length (arrows_at lib.now x (length args.now)) }
    ensures { IfOk result (λ answer. IsTrue answer ↔ GivesRule lib.now (forms_of grammar.now) x args.now cover.now) }
{
    let mut made = Vec::with_capacity(alloc, args.len())?;
    arguments_of(alloc, lib, x, args.len() as u32, cover, &mut made)?;
    Ok(are_goals(grammar, args, made.as_slice()))
}

/// The place of the first of the covers that gives the rule.
fn first_giving(
    alloc: Global,
    lib: &Library,
    grammar: &Grammar,
    x: u32,
    args: &[u32],
    covers: &NumberLists,
) -> Result<Option<usize>, OutOfMemory>
    requires declared { x < length lib.now.components }
    requires few { length args.now ≤ arity_of (paths_at lib.now x) }
    requires short { length args.now < 2 ^ 32 }
    requires args { AreBelow (length grammar.now) args.now }
    requires below { (s : List ℕ) → Contains covers.now s
        → (i : ℕ) → Contains s i → i < length (arrows_at lib.now x (length args.now)) }
    ensures { IfOk result (λ found. MatchOption found
        ((s : List ℕ) → Contains covers.now s → GivesRule lib.now (forms_of grammar.now) x args.now s → ⊥)
        (λ place. IsFirstAt (GivesRule lib.now (forms_of grammar.now) x args.now) covers.now place)) }
{
    for i in 0..covers.len() {
        if gives(alloc, lib, grammar, x, args, covers.get(i))? {
            return Ok(Some(i));
        }
    }
    Ok(None)
}

/// The first cover of the goal that gives the rule of the component with these arguments, which is one of the goal.
pub(crate) fn first_cover(
    alloc: Global,
    lib: &Library,
    grammar: &Grammar,
    goal: &Nf,
    x: u32,
    args: &[u32],
) -> Result<Positions, OutOfMemory>
    requires ready { IsReady lib.now goal.now }
    requires narrow { IsWide lib.now (listed goal.now) → ⊥ }
    requires args { AreBelow (length grammar.now) args.now }
    requires short { length args.now < 2 ^ 32 }
    requires given { IsGiven lib.now (forms_of grammar.now) (listed goal.now) x args.now }
    ensures { IfOk result (λ cover. IsFirstChoice lib.now (listed goal.now)
        (rule_over (forms_of grammar.now) x args.now) (choice_at x (length args.now) cover)) }
{
    let families = families_of(alloc, lib, goal, x, args.len() as u32)?;
    let covers = few_covers(alloc, families.as_slice())?;
    match first_giving(alloc, lib, grammar, x, args, &covers)? {
        Some(place) => Ok(Positions::from_slice(alloc, covers.get(place))?),
        None => unreachable!(),
    }
}
