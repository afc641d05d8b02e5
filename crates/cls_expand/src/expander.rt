//! The rules of a goal: for each component and each number of arguments the minimal covers of the goal by its arrows,
//! and for each cover one rule.
ghost use Rattle.std.specs.Prelude.{◌≡◌, ◌<◌, ◌≤◌, ◌∷◌, IfOk, [], length, map};
ghost use Rattle.cls_base.specs.declared.rule.Rule.TheVariants.{Head};
ghost use Rattle.cls_path.specs.Paths.{listed};
ghost use Rattle.cls_library.specs.Arrows.{arity_of};
ghost use Rattle.cls_library.specs.Families.{AreFamilies, IsPlace};
ghost use Rattle.cls_library.specs.Libraries.{paths_at, arrows_at};
ghost use Rattle.cls_library.specs.Rules.{omega_rules};
ghost use Rattle.cls_expand.specs.Answers.{IsAnswer, IsAnswerBy, AreRulesBefore, IsReady, rule_of};
ghost use Rattle.cls_expand.specs.Making.{AddsPlace, AreRulesBetween, IsNextBefore, PutsBetween};

use crate::cover_rules::{add_covers, add_lone};
use cls_base::limits::MAX_COVERS;
use cls_base::{Numbers, OutOfMemory};
use cls_core::{Answer, Expand, GoalRules, TypedExpand};
use cls_cover::{CoverFault, covers, lone_cover};
use cls_library::{Families, Finder, Library, Place};
use cls_path::Nf;
use std::alloc::Global;
use std::marker::Model;

/// The greatest number of rules that room is made for before they are found. What a goal doesn't need stays with its answer.
const MAX_ROOM: usize = 64;

/// Room for what is worked out at one place. No answer rests on what it holds.
#[derive(Drop)]
struct Room {
    // The positions of families of one position each, and the cover that they make.
    positions: Vec<u32>,
    cover: Vec<u32>,
    // The arguments of a rule.
    args: Vec<Nf>,
}

impl Room {
    fn new(alloc: Global) -> Room {
        Room {
            positions: Vec::new(alloc),
            cover: Vec::new(alloc),
            args: Vec::new(alloc),
        }
    }
}

/// Gives the rules of goals by a library, and is seen as that.
#[derive(Drop)]
pub struct Expander<'a> {
    lib: &'a Library,
}

impl<'a> Model for Expander<'a> {
    ghost use Rattle.cls_library.specs.Libraries as libraries;
    ghost use Rattle.cls_library.specs.Stored.{coded_library};

    ghost Value = { libraries.Library };

    ghost coded = { coded_library };

    ghost view = { λ e. e.lib.now };
}

impl<'a> Expander<'a> {
    /// The expander of the library. It takes no memory.
    pub fn new(lib: &'a Library) -> Expander<'a>
        ensures { result ≡ lib.entry.now }
    {
        Expander { lib }
    }

    /// The rules of the goal, or that it is wide. The only error is out of memory.
    pub fn rules_of(&self, alloc: Global, goal: &Nf) -> Result<Answer<Nf>, OutOfMemory>
        requires { IsReady self.now goal.now }
        ensures { IfOk result (IsAnswer self.now goal.now) }
    {
        all_rules(alloc, self.lib, goal)
    }

    /// The rules that one component makes for the goal, even if another one makes it wide, or that this one does. The
    /// only error is out of memory.
    pub fn rules_by(&self, alloc: Global, goal: &Nf, x: u32) -> Result<Answer<Nf>, OutOfMemory>
        requires ready { IsReady self.now goal.now }
        requires declared { x < length self.now.components }
        ensures { IfOk result (IsAnswerBy self.now x goal.now) }
    {
        component_rules(alloc, self.lib, goal, x)
    }

    /// The rules of the goal, or that it is wide, where the rules by the components before x are known. The goal has a path.
    /// The only error is out of memory.
    pub fn rules_from(
        &self,
        alloc: Global,
        goal: &Nf,
        x: u32,
        known: GoalRules<Nf>,
    ) -> Result<Answer<Nf>, OutOfMemory>
        requires ready { IsReady self.now goal.now }
        requires path { 0 < length goal.now }
        requires within { x ≤ length self.now.components }
        requires before { AreRulesBefore self.now x goal.now known }
        ensures { IfOk result (IsAnswer self.now goal.now) }
    {
        more_rules(alloc, self.lib, goal, x, known)
    }
}

impl Expand for Expander<'_> {
    ghost use Rattle.cls_expand.specs.Answers.{IsAnswer, IsReady};
    ghost use Rattle.cls_expand.specs.Determined.{one_answer};
    ghost use Rattle.cls_expand.specs.Readiness.{arguments_are_ready};

    type Goal = Nf;

    type Tag = Library;

    ghost tag = { λ e. e };

    ghost answers = { IsAnswer };

    ghost ready = { IsReady };

    fn expand(&self, alloc: Global, goal: &Nf) -> Result<Answer<Nf>, OutOfMemory> {
        self.rules_of(alloc, goal)
    }

    ghost one_answer = { one_answer };

    ghost arguments_ready = { arguments_are_ready };
}

impl TypedExpand for Expander<'_> {
    ghost use Rattle.cls_expand.specs.Answers.{HasGoal};
    ghost use Rattle.cls_expand.specs.Typings.{answers_are_typings};

    ghost has = { HasGoal };

    ghost rules = { answers_are_typings };
}

/// The rules of the goal by all components.
fn all_rules(alloc: Global, lib: &Library, goal: &Nf) -> Result<Answer<Nf>, OutOfMemory>
    requires { IsReady lib.now goal.now }
    ensures { IfOk result (IsAnswer lib.now goal.now) }
{
    if goal.paths().is_empty() {
        return Ok(Answer::Rules(omega(alloc, lib.count())?));
    }
    rules_between(alloc, lib, goal, 0, lib.count())
}

/// The rules of the goal by one component.
fn component_rules(
    alloc: Global,
    lib: &Library,
    goal: &Nf,
    x: u32,
) -> Result<Answer<Nf>, OutOfMemory>
    requires ready { IsReady lib.now goal.now }
    requires declared { x < length lib.now.components }
    ensures { IfOk result (IsAnswerBy lib.now x goal.now) }
{
    if goal.paths().is_empty() {
        return Ok(Answer::Rules(head_alone(alloc, x)?));
    }
    rules_between(alloc, lib, goal, x, x + 1)
}

/// The rules of the goal by all components, where those by the components before x are known. The goal has a path.
fn more_rules(
    alloc: Global,
    lib: &Library,
    goal: &Nf,
    x: u32,
    known: GoalRules<Nf>,
) -> Result<Answer<Nf>, OutOfMemory>
    requires ready { IsReady lib.now goal.now }
    requires path { 0 < length goal.now }
    requires within { x ≤ length lib.now.components }
    requires before { AreRulesBefore lib.now x goal.now known }
    ensures { IfOk result (IsAnswer lib.now goal.now) }
{
    let count = lib.count();
    if x >= count {
        return Ok(Answer::Rules(known));
    }
    let Some(finder) = Finder::new(alloc, lib, goal)? else {
        return Ok(Answer::Rules(known));
    };
    put_between(alloc, lib, finder, x, count, known)
}

/// The rules of the goal by the components from one on that come before another one. The goal has a path.
fn rules_between(
    alloc: Global,
    lib: &Library,
    goal: &Nf,
    begin: u32,
    end: u32,
) -> Result<Answer<Nf>, OutOfMemory>
    requires ready { IsReady lib.now goal.now }
    requires path { 0 < length goal.now }
    requires order { begin ≤ end }
    requires within { end ≤ length lib.now.components }
    ensures { IfOk result (AreRulesBetween lib.now goal.now begin end) }
{
    let Some(finder) = Finder::new(alloc, lib, goal)? else {
        return Ok(Answer::Rules(GoalRules::new(alloc)));
    };
    let places = finder.room().min(MAX_ROOM);
    let rules = GoalRules::with_room(alloc, places, places)?;
    put_between(alloc, lib, finder, begin, end, rules)
}

/// Puts the rules of the goal by the components from one on that come before another one behind those by earlier components.
fn put_between(
    alloc: Global,
    lib: &Library,
    mut finder: Finder<'_>,
    begin: u32,
    end: u32,
    mut rules: GoalRules<Nf>,
) -> Result<Answer<Nf>, OutOfMemory>
    requires library { finder.library ≡ lib.now }
    requires ready { IsReady lib.now finder.goal }
    requires path { 0 < length finder.goal }
    requires order { begin ≤ end }
    requires within { end ≤ length lib.now.components }
    ensures { IfOk result (PutsBetween lib.now finder.entry.goal begin end rules) }
{
    let mut room = Room::new(alloc);
    let mut from = Place {
        component: begin,
        count: 0,
    };
    while let Some(place) = next_before(&mut finder, from, end) {
        if !add_place(alloc, lib, &mut finder, place, &mut room, &mut rules)? {
            return Ok(Answer::Wide);
        }
        from = Place {
            component: place.component,
            count: place.count + 1,
        };
    }
    Ok(Answer::Rules(rules))
}

/// The next place from this one on, before a component, where an arrow may lead to the goal's first path.
fn next_before(finder: &mut Finder<'_>, from: Place, end: u32) -> Option<Place>
    requires { 0 < length finder.old.goal }
    ensures next { IsNextBefore finder.old.library (listed finder.old.goal) from end result }
    ensures same { finder.new ≡ finder.old }
{
    match finder.next(from) {
        Some(place) if place.component < end => Some(place),
        _ => None,
    }
}

/// Adds the rules of one place, and answers whether the goal isn't wide by them.
fn add_place(
    alloc: Global,
    lib: &Library,
    finder: &mut Finder<'_>,
    place: Place,
    room: &mut Room,
    rules: &mut GoalRules<Nf>,
) -> Result<bool, OutOfMemory>
    requires library { finder.old.library ≡ lib.now }
    requires ready { IsReady lib.now finder.old.goal }
    requires path { 0 < length finder.old.goal }
    requires place { IsPlace lib.now place }
    ensures same { finder.new ≡ finder.old }
    ensures rules { IfOk result (AddsPlace lib.now finder.old.goal place rules.old rules.new) }
{
    let Place { component, count } = place;
    let Room {
        positions,
        cover,
        args,
    } = room;
    match finder.families(alloc, place, positions)? {
        Families::Single(positions) => {
            lone_cover(positions, cover)?;
            add_lone(alloc, lib, component, count, cover, args, rules)
        }
        Families::Several(families) => match covers(alloc, families.as_slice(), MAX_COVERS) {
            Ok(list) => add_covers(alloc, lib, component, count, &list, args, rules),
            Err(CoverFault::TooManyCovers(_)) => Ok(false),
            Err(CoverFault::OutOfMemory) => Err(OutOfMemory),
        },
    }
}

/// The rule of the component alone.
fn head_alone(alloc: Global, x: u32) -> Result<GoalRules<Nf>, OutOfMemory>
    ensures { IfOk result (λ rules. map rule_of rules ≡ Head x [] ∷ []) }
{
    let mut rules = GoalRules::new(alloc);
    rules.push_head(x, &mut Vec::new(alloc))?;
    Ok(rules)
}

/// The rules of omega: each component alone, and any term applied to any.
fn omega(alloc: Global, count: u32) -> Result<GoalRules<Nf>, OutOfMemory>
    ensures { IfOk result (λ rules. map rule_of rules ≡ omega_rules count) }
{
    let mut rules = GoalRules::with_room(alloc, count as usize + 1, 2)?;
    for component in 0..count {
        rules.push_head(component, &mut Vec::new(alloc))?;
    }
    rules.push_any(Nf::empty(alloc), Nf::empty(alloc))?;
    Ok(rules)
}

/// For each path of the goal the positions of the arrows that lead to it. The only error is out of memory.
pub fn families_of(
    alloc: Global,
    lib: &Library,
    goal: &Nf,
    x: u32,
    n: u32,
) -> Result<Vec<Numbers>, OutOfMemory>
    requires declared { x < length lib.now.components }
    requires within { n ≤ arity_of (paths_at lib.now x) }
    requires ready { IsReady lib.now goal.now }
    ensures { IfOk result (λ families. AreFamilies lib.now (arrows_at lib.now x n) goal.now families.items) }
{
    let mut families = Vec::with_capacity(alloc, goal.paths().len())?;
    for path in goal.paths() {
        families.push(lib.family(alloc, x, n, path)?)?;
    }
    Ok(families)
}
