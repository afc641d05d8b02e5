//! The rules that a component makes by covers of one number of arguments. They differ from those of other components and
//! of other numbers, so equal ones are looked for among themselves alone. A list of arguments that is passed is room for those of
//! one rule, whatever it holds.
ghost use Rattle.std.specs.Prelude.{◌≡◌, ℕ, ◌<◌, ◌≤◌, ◌++◌, ◌∷◌, Contains, IfOk, OnOk, MatchBool, List, [], length, map, drop};
ghost use Rattle.cls_base.specs.declared.rule.Rule.TheVariants.{Head};
ghost use Rattle.cls_path.specs.Paths.{TypePath, Paths, more};
ghost use Rattle.cls_library.specs.Arrows.{arity_of};
ghost use Rattle.cls_library.specs.Libraries.{IsLibrary, paths_at, arrows_at};
ghost use Rattle.cls_library.specs.Rules.{IsWideBy, IsChoice};
ghost use Rattle.cls_expand.specs.Answers.{rule_of};
ghost use Rattle.cls_expand.specs.Making.{AreBegun, PutsNew, rule_of_spine, choice_at};

use crate::arguments::{all_fit, arguments};
use crate::spine::Spine;
use cls_base::{NumberLists, OutOfMemory};
use cls_core::GoalRules;
use cls_library::Library;
use cls_path::Nf;
use indexmap::IndexSet;
use std::alloc::Global;

/// The rules of so many covers are compared one by one.
const FEW: usize = 8;

/// Adds the rule of a cover that is the only one, and answers whether it is fit.
pub(crate) fn add_lone(
    alloc: Global,
    lib: &Library,
    x: u32,
    n: u32,
    cover: &[u32],
    args: &mut Vec<Nf>,
    rules: &mut GoalRules<Nf>,
) -> Result<bool, OutOfMemory>
    requires declared { x < length lib.now.components }
    requires within { n ≤ arity_of (paths_at lib.now x) }
    requires below { (i : ℕ) → Contains cover.now i → i < length (arrows_at lib.now x n) }
    requires library { IsLibrary lib.now }
    ensures { IfOk result (λ narrow. (q : TypePath) (rest : Paths) (from : ℕ) → from ≤ x
        → IsChoice lib.now (more q rest) (choice_at x n cover.now)
        → AreBegun lib.now (more q rest) from x n [] (map rule_of rules.old)
        → MatchBool narrow (AreBegun lib.now (more q rest) from x n (cover.now ∷ []) (map rule_of rules.new))
        (IsWideBy lib.now x (more q rest))) }
{
    arguments(alloc, lib, x, n, cover, args)?;
    if !all_fit(alloc, args.as_slice())? {
        return Ok(false);
    }
    rules.push_head(x, args)?;
    Ok(true)
}

/// Adds the rule of each cover, and answers whether all are fit.
pub(crate) fn add_covers(
    alloc: Global,
    lib: &Library,
    x: u32,
    n: u32,
    covers: &NumberLists,
    args: &mut Vec<Nf>,
    rules: &mut GoalRules<Nf>,
) -> Result<bool, OutOfMemory>
    requires declared { x < length lib.now.components }
    requires within { n ≤ arity_of (paths_at lib.now x) }
    requires below { (s : List ℕ) → Contains covers.now s
        → (i : ℕ) → Contains s i → i < length (arrows_at lib.now x n) }
    requires library { IsLibrary lib.now }
    ensures { IfOk result (λ narrow. (q : TypePath) (rest : Paths) (from : ℕ) → from ≤ x
        → ((s : List ℕ) → Contains covers.now s → IsChoice lib.now (more q rest) (choice_at x n s))
        → AreBegun lib.now (more q rest) from x n [] (map rule_of rules.old)
        → MatchBool narrow (AreBegun lib.now (more q rest) from x n covers.now (map rule_of rules.new))
        (IsWideBy lib.now x (more q rest))) }
{
    if covers.len() <= FEW {
        return add_few(alloc, lib, x, n, covers, args, rules);
    }
    add_many(alloc, lib, x, n, covers, rules)
}

/// The same for few covers.
fn add_few(
    alloc: Global,
    lib: &Library,
    x: u32,
    n: u32,
    covers: &NumberLists,
    args: &mut Vec<Nf>,
    rules: &mut GoalRules<Nf>,
) -> Result<bool, OutOfMemory>
    requires declared { x < length lib.now.components }
    requires within { n ≤ arity_of (paths_at lib.now x) }
    requires below { (s : List ℕ) → Contains covers.now s
        → (i : ℕ) → Contains s i → i < length (arrows_at lib.now x n) }
    requires library { IsLibrary lib.now }
    ensures { IfOk result (λ narrow. (q : TypePath) (rest : Paths) (from : ℕ) → from ≤ x
        → ((s : List ℕ) → Contains covers.now s → IsChoice lib.now (more q rest) (choice_at x n s))
        → AreBegun lib.now (more q rest) from x n [] (map rule_of rules.old)
        → MatchBool narrow (AreBegun lib.now (more q rest) from x n covers.now (map rule_of rules.new))
        (IsWideBy lib.now x (more q rest))) }
{
    let begin = rules.len();
    for place in 0..covers.len() {
        arguments(alloc, lib, x, n, covers.get(place), args)?;
        if !all_fit(alloc, args.as_slice())? {
            return Ok(false);
        }
        add_new(rules, begin, x, args)?;
    }
    Ok(true)
}

/// Adds the rule, unless it is among the rules from `begin` on.
fn add_new(
    rules: &mut GoalRules<Nf>,
    begin: usize,
    x: u32,
    args: &mut Vec<Nf>,
) -> Result<(), OutOfMemory>
    requires { begin ≤ length rules.old }
    ensures { OnOk result (PutsNew (drop begin rules.old) (Head x args.old.items) rules.old rules.new) }
{
    if rules.has_head(begin, x, args.as_slice()) {
        return Ok(());
    }
    rules.push_head(x, args)
}

/// The same for many covers.
fn add_many(
    alloc: Global,
    lib: &Library,
    x: u32,
    n: u32,
    covers: &NumberLists,
    rules: &mut GoalRules<Nf>,
) -> Result<bool, OutOfMemory>
    requires declared { x < length lib.now.components }
    requires within { n ≤ arity_of (paths_at lib.now x) }
    requires below { (s : List ℕ) → Contains covers.now s
        → (i : ℕ) → Contains s i → i < length (arrows_at lib.now x n) }
    requires library { IsLibrary lib.now }
    ensures { IfOk result (λ narrow. (q : TypePath) (rest : Paths) (from : ℕ) → from ≤ x
        → ((s : List ℕ) → Contains covers.now s → IsChoice lib.now (more q rest) (choice_at x n s))
        → AreBegun lib.now (more q rest) from x n [] (map rule_of rules.old)
        → MatchBool narrow (AreBegun lib.now (more q rest) from x n covers.now (map rule_of rules.new))
        (IsWideBy lib.now x (more q rest))) }
{
    let mut spines = IndexSet::with_capacity(alloc, covers.len())?;
    for place in 0..covers.len() {
        let mut args = Vec::with_capacity(alloc, n as usize)?;
        arguments(alloc, lib, x, n, covers.get(place), &mut args)?;
        if !all_fit(alloc, args.as_slice())? {
            return Ok(false);
        }
        spines.insert(Spine { component: x, args })?;
    }
    add_spines(spines, rules)?;
    Ok(true)
}

/// Puts the rules of the spines last.
fn add_spines(spines: IndexSet<Spine>, rules: &mut GoalRules<Nf>) -> Result<(), OutOfMemory>
    ensures { OnOk result (map rule_of rules.new ≡ map rule_of rules.old ++ map rule_of_spine spines.keys) }
{
    for spine in spines {
        let Spine {
            component,
            mut args,
        } = spine;
        rules.push_head(component, &mut args)?;
    }
    Ok(())
}
