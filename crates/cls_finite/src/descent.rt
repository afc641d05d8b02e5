//! The greatest size of a term, by a depth-first search of the nodes from node 0 on.
//!
//! The search goes down from a node to the first argument of the first rule whose size isn't known yet. Only rules are
//! used that have productive arguments alone. A node all arguments of which are known is done: its greatest size is
//! that of its rules. If a step leads to a node that a step was taken from, the steps are a walk that comes round.
ghost use Rattle.std.specs.Prelude.{◌≡◌, ◌<◌, ◌≤◌, ◌↔◌, ℕ, List, [], ◌∷◌, ◌++◌, Some, IfOk, OnOk, IfSome, IfNone, IsTrue, length, slice_get, slice_set};
ghost use Rattle.std.specs.Bool.{OnTrue, OnFalse};
ghost use Rattle.cls_finite.specs.Descents.{first_step};
ghost use Rattle.cls_term.specs.Costs.{cost_of};
ghost use Rattle.cls_grammar.specs.Ranks.{AreProductive};
ghost use Rattle.cls_finite.specs.declared.answer.FiniteAnswer.TheVariants.{Over};
ghost use Rattle.cls_finite.specs.Answers.{IfFinite, IfInfinite, IsInfinite};
ghost use Rattle.cls_finite.specs.Finiteness.{HasPositiveCosts, IsUnbounded, IsGreatest, IsGreatestOver, IsDetermined};

use crate::answer::FiniteAnswer;
use crate::sizes::{SIZE_CAP, greatest_by};
use crate::steps::next_step;
use crate::walk::{Step, Walk};
use cls_base::limits::MAX_FINITE_SIZE;
use cls_base::{NodeRules, Numbers, OutOfMemory, RuleBook};
use cls_grammar::{Flags, productive};
use std::alloc::Global;
use std::marker::Model;

/// What is known of a node.
#[derive(Clone, Copy, Drop)]
pub(crate) enum Mark {
    /// No step led to it yet.
    Unseen,
    /// A step leads on from it.
    Open,
    /// The greatest size of its terms, up to the cap.
    Done(u64),
}

/// How far the search is.
#[derive(Drop)]
pub(crate) struct Descent {
    // What is known of each node.
    marks: Vec<Mark>,
    // The steps that lead from node 0 to the node of the top.
    path: Vec<Step>,
    // Where the next step begins.
    top: Step,
}

impl Model for Descent {
    ghost use Rattle.cls_finite.specs.Descents.{State};

    ghost Value = { State };

    ghost view = { λ d. record { marks = d.marks.items; path = d.path.items; top = d.top } };
}

/// What a round of the search led to.
#[derive(Drop)]
pub(crate) enum Outcome {
    /// It goes on.
    Goes,
    /// The last step came to a node that a step was taken from.
    ComesRound,
    /// Node 0 is done, with this size.
    Ends(u64),
}

// The step from a node by its first rule to its first argument.
fn first_step(node: u32) -> Step
    ensures { result ≡ first_step node }
{
    Step {
        goal: node,
        rule: 0,
        argument: 0,
    }
}

impl Descent {
    ghost use Rattle.cls_finite.specs.declared.descent.Mark.TheVariants.{Open, Done};
    ghost use Rattle.cls_finite.specs.Outcomes.{IsOutcome};
    ghost use Rattle.cls_finite.specs.Descents.{IsKept, IsNext, IsPassed, begun, opened, AllAreDone, greatest_by};

    // The search begins at node 0.
    fn begin(alloc: Global, count: u32) -> Result<Descent, OutOfMemory>
        requires { 1 ≤ count }
        ensures { IfOk result (λ d. d ≡ begun count) }
    {
        let mut marks = Vec::with_capacity(alloc, count as usize)?;
        for _ in 0..count {
            marks.push(Mark::Unseen)?;
        }
        marks[0] = Mark::Open;
        Ok(Descent {
            marks,
            path: Vec::new(alloc),
            top: first_step(0),
        })
    }

    // The node that is looked at.
    fn node(&self) -> u32
        ensures { result ≡ self.now.top.goal }
    {
        self.top.goal
    }

    // The next step, and the node that it leads to.
    fn next(&self, flags: &Flags, rules: &NodeRules) -> Option<(Step, u32)>
        requires { IsPassed self.now.marks flags.now rules.now self.now.top.rule self.now.top.argument }
        ensures none { IfNone result (AllAreDone self.now.marks flags.now rules.now) }
        ensures goal { IfSome result (λ m. m.0.goal ≡ self.now.top.goal) }
        ensures next { IfSome result (λ m. IsNext self.now.marks flags.now rules.now m.0 m.1) }
    {
        next_step(self.marks.as_slice(), flags, rules, self.top)
    }

    // Whether a step was taken from the node.
    fn is_open(&self, node: u32) -> bool
        ensures { IsTrue result ↔ (slice_get self.now.marks node ≡ Some Open) }
    {
        matches!(self.marks.get(node as usize), Some(Mark::Open))
    }

    // The step is taken.
    fn take(&mut self, step: Step) -> Result<(), OutOfMemory>
        ensures { OnOk result (self.new ≡ record self.old { path = self.old.path ++ step ∷ [] }) }
    {
        self.path.push(step)?;
        Ok(())
    }

    // The step is taken to a node that no step led to.
    fn open(&mut self, step: Step, node: u32) -> Result<(), OutOfMemory>
        requires { node < length self.old.marks }
        ensures { OnOk result (self.new ≡ opened self.old step node) }
    {
        self.path.push(step)?;
        self.marks[node as usize] = Mark::Open;
        self.top = first_step(node);
        Ok(())
    }

    // The node of the top is done, with this size. Whether a step led to it, which then is the top.
    fn close(&mut self, size: u64) -> bool
        requires { self.old.top.goal < length self.old.marks }
        ensures marks { self.new.marks ≡ slice_set self.old.marks self.old.top.goal (Done size) }
        ensures more { OnTrue result (self.old.path ≡ self.new.path ++ self.new.top ∷ []) }
        ensures last { OnFalse result (self.old.path ≡ []) }
    {
        self.marks[self.top.goal as usize] = Mark::Done(size);
        match self.path.pop() {
            Some(below) => {
                self.top = below;
                true
            }
            None => false,
        }
    }

    // The greatest size of a term that these rules of the node of the top make.
    fn greatest(&self, flags: &Flags, costs: &[u32], rules: &NodeRules) -> u64
        ensures { result ≡ greatest_by SIZE_CAP (cost_of costs.now) self.now.marks flags.now rules.now }
    {
        greatest_by(self.marks.as_slice(), flags, costs, rules)
    }

    // One node is opened or done, or the search ends.
    fn advance<B: RuleBook>(
        &mut self,
        book: &B,
        flags: &Flags,
        costs: &[u32],
    ) -> Result<Outcome, OutOfMemory>
        requires kept { IsKept SIZE_CAP (cost_of costs.now) (B.book book.now) flags.now self.old }
        requires productive { AreProductive (B.book book.now) flags.now }
        requires costs { HasPositiveCosts (B.book book.now) (cost_of costs.now) }
        ensures { IfOk result (IsOutcome SIZE_CAP (cost_of costs.now) (B.book book.now) flags.now self.old self.new) }
    {
        let rules = book.rules(self.node());
        let Some((step, node)) = self.next(flags, rules) else {
            let size = self.greatest(flags, costs, rules);
            if self.close(size) {
                return Ok(Outcome::Goes);
            }
            return Ok(Outcome::Ends(size));
        };
        if self.is_open(node) {
            self.take(step)?;
            return Ok(Outcome::ComesRound);
        }
        self.open(step, node)?;
        Ok(Outcome::Goes)
    }

    // The steps that were taken.
    fn into_walk(self) -> Walk
        ensures { result ≡ self.path }
    {
        let Descent {
            marks: _,
            path,
            top: _,
        } = self;
        Walk::new(path)
    }
}

// What is told of a greatest size that is counted up to the cap.
fn answer_of(size: u64) -> FiniteAnswer
    ensures told { IfFinite result (λ n. (n ≡ size) × (n ≤ MAX_FINITE_SIZE)) }
    ensures over { (result ≡ Over) ↔ (MAX_FINITE_SIZE < size) }
    ensures bounded { IsInfinite result → ⊥ }
{
    if size > MAX_FINITE_SIZE {
        FiniteAnswer::Over
    } else {
        FiniteAnswer::Finite(size)
    }
}

/// How large the terms of node 0 are. A component that has no cost in the list costs 1. The only error is out of
/// memory.
///
/// `Finite` tells the greatest size. `Over` comes if and only if it is over [`MAX_FINITE_SIZE`], and `Infinite` if and
/// only if there is none. Its walk goes at each node by the first rule that has only productive arguments and one whose
/// terms have no bound, to the first such argument, until it comes to the node of a step.
pub fn finite<B: RuleBook>(
    alloc: Global,
    book: &B,
    costs: &Numbers,
) -> Result<FiniteAnswer, OutOfMemory>
    requires { HasPositiveCosts (B.book book.now) (cost_of costs.now) }
    ensures greatest { IfOk result (λ answer. IfFinite answer (IsGreatest (B.book book.now) (cost_of costs.now))) }
    ensures over { IfOk result (λ answer.
        (answer ≡ Over) ↔ IsGreatestOver (B.book book.now) (cost_of costs.now) MAX_FINITE_SIZE) }
    ensures infinite { IfOk result (λ answer. IsInfinite answer ↔ IsUnbounded (B.book book.now) (cost_of costs.now) 0) }
    ensures walk { IfOk result (λ answer. IfInfinite answer (IsDetermined (B.book book.now) (cost_of costs.now) [] 0)) }
{
    let flags = productive(alloc, book)?;
    let mut descent = Descent::begin(alloc, book.count())?;
    loop {
        match descent.advance(book, &flags, costs.as_slice())? {
            Outcome::Goes => {}
            Outcome::ComesRound => return Ok(FiniteAnswer::Infinite(descent.into_walk())),
            Outcome::Ends(size) => return Ok(answer_of(size)),
        }
    }
}
