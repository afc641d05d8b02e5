ghost use Rattle.std.specs.Prelude.{◌≡◌, ◌<◌, ◌≤◌, ◌+◌, ◌^◌, [], ◌∷◌, ◌++◌, Some, IfOk, IfErr, IfSome, IfNone, OnOk, OnErr, IsTrue, true, false, ◌↔◌, ℕ, ◌≢◌, length, map, slice_get, vec_len, replicate};
ghost use Rattle.std.specs.Vec.{vec_capacity};
ghost use Rattle.indexmap.specs.IndexSet.{spare, insert_all};
ghost use Rattle.cls_core.specs.Machine.{rules_in, IsFiled, SomeUnfiled};
ghost use Rattle.cls_core.specs.Arguments.{arguments_of, map_answer, rule_count};
ghost use Rattle.cls_core.specs.Filings.{IfKept};
ghost use Rattle.cls_core.specs.declared.state.RowState.{RowState};
ghost use Rattle.cls_core.specs.declared.state.RowState.TheVariants.{Free, Held};

use crate::answer::Answer;
use crate::copying::{copy_goals, copy_states};
use crate::entry::{Entry, History};
use crate::filing::Filing;
use crate::finished::{Finished, Rows};
use crate::node_answer::NodeAnswer;
use crate::numbering::number_whole;
use crate::state::RowState;
use cls_base::{Goals, Key, OutOfMemory};
use indexmap::IndexSet;
use std::alloc::Global;
use std::marker::Model;

/// The rows of the core machine, each with its goal and its state, and the events so far.
///
/// No two rows have one goal. A goal's row is found by the goal.
#[derive(Drop)]
pub struct Core<G: Key + Drop> {
    // The goal of each row.
    goals: IndexSet<G>,
    // The state of each row.
    states: Vec<RowState>,
    // There is room for the entries of the filings to come.
    history: Vec<Entry>,
    // The rows below this one aren't free.
    first: usize,
    // The number of rows that are held.
    held: usize,
    // The number of rules of the filed rows together.
    rules: u64,
}

impl<G: Key + Drop> Model for Core<G> {
    ghost use Rattle.cls_core.specs.Rows.{Recorded, machine};
    ghost use Rattle.cls_core.specs.Consistency.{IsConsistent};
    ghost use Rattle.std.specs.Vec.{vec_capacity};

    ghost Value = { Recorded G };

    ghost view = { λ c. record { rows = machine c.goals.keys c.states.items; history = c.history.items } };

    ghost invariant = { λ c. let rows = machine c.goals.keys c.states.items in
        IsConsistent rows c.first c.held c.rules c.history.items (vec_capacity c.history) };
}

// Puts as many free rows behind the others as the count says. There is room for them.
fn add_free(states: &mut Vec<RowState>, count: usize)
    requires { vec_len states.old + count ≤ vec_capacity states.old }
    ensures { states.new.items ≡ states.old.items ++ replicate count Free }
{
    for _row in 0..count {
        states.push_reserved(RowState::Free);
    }
}

// The answer with these numbers in place of its arguments, one after another, and the arguments.
fn number_answer<G>(alloc: Global, answer: Answer<G>, numbers: Vec<u32>) -> (NodeAnswer, Goals<G>)
    requires { length numbers.items ≡ length (arguments_of answer) }
    ensures answer { (f : G → ℕ) → numbers.items ≡ map f (arguments_of answer)
        → result.0 ≡ map_answer f answer }
    ensures goals { result.1 ≡ arguments_of answer }
{
    match answer {
        Answer::Rules(rules) => {
            let (numbered, goals) = rules.numbered(numbers);
            (NodeAnswer::new(numbered), goals)
        }
        Answer::Wide => (NodeAnswer::wide(), Goals::new(Vec::new(alloc))),
    }
}

// Whether all rows are filed.
fn all_filed(states: &[RowState]) -> bool
    ensures filed { result ≡ true → (row : ℕ) (s : RowState) → slice_get states.now row ≡ Some s → IsFiled s }
    ensures unfiled { result ≡ false → SomeUnfiled states.now }
{
    for state in states {
        match state {
            RowState::Filed(_) => {}
            _ => return false,
        }
    }
    true
}

impl<G: Key + Drop> Core<G> {
    ghost use Rattle.cls_core.specs.declared.entry.Entry.TheVariants.{Claim, File};
    ghost use Rattle.cls_core.specs.Machine.{begun, claimed, filed, grown};
    ghost use Rattle.cls_core.specs.Machine.{AllFiled, NoneFree, NoneFreeBelow, SomeHeld};
    ghost use Rattle.cls_core.specs.Finishing.{IsFinished};

    /// One free row, the start goal, and an empty history. The only error is out of memory.
    pub fn enter(alloc: Global, start: G) -> Result<Core<G>, OutOfMemory>
        ensures rows { IfOk result (λ c. c.rows ≡ begun start) }
        ensures history { IfOk result (λ c. c.history ≡ []) }
    {
        let mut goals = IndexSet::new(alloc);
        let mut states = Vec::new(alloc);
        states.push(RowState::Free)?;
        goals.insert(start)?;
        Ok(Core {
            goals,
            states,
            history: Vec::new(alloc),
            first: 0,
            held: 0,
            rules: 0,
        })
    }

    /// The number of rows.
    pub fn count(&self) -> u32
        ensures { result ≡ length self.now.rows.goals }
    {
        self.states.len() as u32
    }

    /// The number of rules of the filed rows together.
    pub fn rules(&self) -> u64
        ensures { result ≡ rules_in self.now.rows.states }
    {
        self.rules
    }

    /// The row's goal.
    pub fn goal(&self, row: u32) -> &G
        requires { row < length self.now.rows.goals }
        ensures { slice_get self.now.rows.goals row ≡ Some result.now }
    {
        self.goals.get_index(row as usize).unwrap()
    }

    /// The row's state.
    pub fn state(&self, row: u32) -> &RowState
        requires { row < length self.now.rows.goals }
        ensures { slice_get self.now.rows.states row ≡ Some result.now }
    {
        &self.states[row as usize]
    }

    /// The free row with the least number. It is None if and only if no row is free.
    pub fn any_free(&self) -> Option<u32>
        ensures free { IfSome result (λ row. slice_get self.now.rows.states row ≡ Some Free) }
        ensures least { IfSome result (λ row. NoneFreeBelow self.now.rows.states row) }
        ensures within { IfSome result (λ row. row < length self.now.rows.goals) }
        ensures none_free { IfNone result (NoneFree self.now.rows) }
    {
        for row in self.first..self.states.len() {
            if matches!(self.states[row], RowState::Free) {
                return Some(row as u32);
            }
        }
        None
    }

    /// Whether some row is held.
    pub fn any_held(&self) -> bool
        ensures { IsTrue result ↔ SomeHeld self.now.rows }
    {
        self.held > 0
    }

    /// Whether there is this row and the worker holds it.
    pub fn is_held(&self, worker: u32, row: u32) -> bool
        ensures { IsTrue result ↔ (slice_get self.now.rows.states row ≡ Some (Held worker)) }
    {
        match self.states.get(row as usize) {
            Some(RowState::Held(by)) => *by == worker,
            _ => false,
        }
    }

    /// The event Claim: the worker takes the row, which is free. Memory for the entry of its filing is taken, too. The
    /// only error is out of memory, which leaves the core as it was.
    pub fn claim(&mut self, worker: u32, row: u32) -> Result<(), OutOfMemory>
        requires { slice_get self.old.rows.states row ≡ Some Free }
        ensures rows { OnOk result (self.new.rows ≡ claimed self.old.rows worker row) }
        ensures history { OnOk result (self.new.history ≡ self.old.history ++ Claim worker row ∷ []) }
        ensures history_fits { OnOk result (length self.new.history < 2 ^ 63) }
        ensures unchanged { OnErr result (self.new ≡ self.old) }
    {
        self.history.reserve(self.held + 2)?;
        self.history.push_reserved(Entry::Claim { worker, row });
        self.states[row as usize] = RowState::Held(worker);
        self.held += 1;
        if row as usize == self.first {
            self.first += 1;
        }
        Ok(())
    }

    /// The event File: the row, which the worker holds, is filed with the answer. Each argument goal that has no row
    /// yet gets a free one. The arguments are handed back. If there would be more than `most` rows, nothing changes,
    /// which `OverLimits` says. All memory is taken before a row changes. The Err means out of memory, which leaves the
    /// core as it was, and hands the answer back.
    pub fn file(
        &mut self,
        alloc: Global,
        worker: u32,
        row: u32,
        answer: Answer<G>,
        most: u32,
    ) -> Result<Filing<G>, Answer<G>>
        requires held { slice_get self.old.rows.states row ≡ Some (Held worker) }
        requires few { length self.old.rows.goals ≤ most }
        requires rules { rules_in self.old.rows.states + rule_count answer < 2 ^ 64 }
        ensures room { IfOk result (λ f.
            (f ≡ Filing.OverLimits) ↔ (most < length (grown G.eq self.old.rows.goals answer))) }
        ensures goals { IfOk result (IfKept (λ goals. goals ≡ arguments_of answer)) }
        ensures rows { IfOk result (IfKept (λ _. self.new.rows ≡ filed G.eq self.old.rows row answer)) }
        ensures history { IfOk result (IfKept (λ _.
            self.new.history ≡ self.old.history ++ File worker row ∷ [])) }
        ensures over { IfOk result (λ f. f ≡ Filing.OverLimits → self.new ≡ self.old) }
        ensures err { IfErr result (λ a. (a ≡ answer) × (self.new ≡ self.old)) }
    {
        let Ok(numbers) = number_whole(alloc, &mut self.goals, most, answer.goals()) else {
            return Err(answer);
        };
        let Some(numbers) = numbers else {
            return Ok(Filing::OverLimits);
        };
        let rows = self.states.len();
        let count = self.goals.len() - rows;
        let Ok(()) = self.states.reserve(count) else {
            self.goals.truncate(rows);
            return Err(answer);
        };
        add_free(&mut self.states, count);
        self.rules += answer.rule_count() as u64;
        let (numbered, goals) = number_answer(alloc, answer, numbers);
        self.states[row as usize] = RowState::Filed(numbered);
        self.held -= 1;
        self.history.push_reserved(Entry::File { worker, row });
        Ok(Filing::Kept(goals))
    }

    /// The rows and the history, copied. It is None if and only if some row isn't filed. The only error is out of
    /// memory.
    pub fn read(&self, alloc: Global) -> Result<Option<Finished<G>>, OutOfMemory>
        ensures finished { IfOk result (λ r. IfSome r (λ f. IsFinished self.now f)) }
        ensures unfinished { IfOk result (λ r. IfNone r (AllFiled self.now.rows → ⊥)) }
    {
        if !all_filed(self.states.as_slice()) {
            return Ok(None);
        }
        let goals = copy_goals(alloc, &self.goals)?;
        let states = copy_states(alloc, self.states.as_slice())?;
        let history = Vec::from_slice(alloc, self.history.as_slice())?;
        Ok(Some(Finished {
            rows: Rows::of(goals, states),
            history: History::new(history),
        }))
    }

    /// The rows and the history. It is an Err if and only if some row isn't filed, and the Err hands the core back.
    pub fn finish(self) -> Result<Finished<G>, Core<G>>
        ensures finished { IfOk result (λ f. IsFinished self f) }
        ensures unfinished { IfErr result (λ c. (c ≡ self) × (AllFiled self.rows → ⊥)) }
    {
        if !all_filed(self.states.as_slice()) {
            return Err(self);
        }
        let Core {
            goals,
            states,
            history,
            first: _,
            held: _,
            rules: _,
        } = self;
        Ok(Finished {
            rows: Rows::of(goals, states),
            history: History::new(history),
        })
    }
}
