ghost use Rattle.std.specs.Prelude.{◌≡◌, ◌↔◌, ◌+◌, ◌<◌, ◌≤◌, ◌^◌, ◌++◌, [], IfOk, IfSome, IfNone, IsTrue, OnOk, OnErr, length};
ghost use Rattle.cls_expand.specs.Memos.{rules_together, HasGoalsOf};

use crate::additions::Additions;
use crate::memo::Memo;
use crate::naming::name_answer;
use cls_base::OutOfMemory;
use cls_base::limits::{MAX_MEMO_GOALS, MAX_MEMO_RULES};
use cls_core::{Answer, Expand, NodeAnswer, Rows};
use indexmap::IndexSet;
use std::alloc::Global;
use std::marker::Model;
use std::snapshot::Snapshot;

/// A memo that holds each goal once. An answer has numbers of goals in place of copies.
#[derive(Drop)]
pub struct Store<E: Expand> {
    by: Snapshot<E>,
    goals: IndexSet<E::Goal>,
    // The answer of each goal.
    answers: Vec<NodeAnswer>,
}

impl<E: Expand> Model for Store<E> {
    ghost use Rattle.cls_expand.specs.Memos.{StoreSeen, IsStore};

    ghost Value = { StoreSeen E.Tag E.Goal };

    ghost view = { λ s. record { tag = E.tag s.by.value; goals = s.goals.keys; answers = s.answers.items } };

    ghost invariant = { λ s. IsStore E.Goal.eq E.answers
        (record { tag = E.tag s.by.value; goals = s.goals.keys; answers = s.answers.items }) };
}

/// The number of rules of the answers together.
fn count_rules(answers: &[NodeAnswer]) -> u64
    requires { rules_together answers.now < 2 ^ 64 }
    ensures { result ≡ rules_together answers.now }
{
    let mut count = 0;
    for answer in answers {
        count += answer.rule_count() as u64;
    }
    count
}

impl<E: Expand> Store<E> {
    ghost use Rattle.cls_expand.specs.Memos.{StoreSeen, IsStore, AreComplete, FitMemo, HasRoom, IsKept, together, alone};

    /// A store that holds no goal, for expanders that mean what this one does. It takes no memory.
    pub fn new(alloc: Global, by: &E) -> Store<E>
        ensures tag { result.tag ≡ E.tag by.now }
        ensures goals { result.goals ≡ [] }
    {
        Store {
            by: Snapshot::of(by),
            goals: IndexSet::new(alloc),
            answers: Vec::new(alloc),
        }
    }

    /// The number of goals that are held. It takes no memory.
    pub fn count(&self) -> u32
        ensures { result ≡ length self.now.goals }
    {
        self.goals.len() as u32
    }

    /// Does nothing, and says what holds of each store: every goal has an answer beside it that the tag means.
    pub fn facts(&self)
        ensures { IsStore E.Goal.eq E.answers self.now }
    {
        // For the prover: opens the store's model.
        let _ = &self.answers;
    }
}

impl<E: Expand> Store<E> {
    ghost use Rattle.cls_expand.specs.Memos.{IsStore, AreComplete, FitMemo, HasRoom, IsKept, together, alone};

    /// Whether there is room for what it lacks of the rows.
    fn has_room(&self, more: &Additions<E::Goal>) -> bool
        requires { rules_together more.now.answers.items < 2 ^ 63 }
        ensures { IsTrue result ↔ HasRoom (record {
          tag = self.now.tag;
          goals = self.now.goals ++ more.now.goals.keys;
          answers = self.now.answers ++ more.now.answers.items;
        }) }
    {
        let goals = self.goals.len() + more.goals.len();
        let rules = count_rules(self.answers.as_slice()) + count_rules(more.answers.as_slice());
        goals <= MAX_MEMO_GOALS && rules <= MAX_MEMO_RULES
    }

    /// Puts what it lacks of the rows behind what it has.
    fn add(&mut self, rows: &Rows<E::Goal>, more: Additions<E::Goal>) -> Result<(), OutOfMemory>
        requires complete { AreComplete E.Goal.eq (E.answers self.old.tag) rows.now }
        requires room { HasRoom (together E.Goal.eq self.old rows.now) }
        requires goals { self.old.goals ++ more.goals.keys ≡ (together E.Goal.eq self.old rows.now).goals }
        requires answers { self.old.answers ++ more.answers.items ≡ (together E.Goal.eq self.old rows.now).answers }
        ensures ok { OnOk result (self.new ≡ together E.Goal.eq self.old rows.now) }
        ensures held { OnOk result (HasGoalsOf rows.now self.new.goals) }
        ensures err { OnErr result (self.new ≡ self.old) }
    {
        let Additions {
            mut goals,
            mut answers,
        } = more;
        let count = self.answers.len();
        self.answers.append(&mut answers)?;
        let Ok(()) = self.goals.append(&mut goals) else {
            self.answers.truncate(count);
            return Err(OutOfMemory);
        };
        Ok(())
    }

    /// Has the rows alone from then on.
    fn replace(&mut self, alloc: Global, rows: Rows<E::Goal>) -> Result<(), OutOfMemory>
        requires complete { AreComplete E.Goal.eq (E.answers self.old.tag) rows }
        requires fit { FitMemo rows }
        ensures ok { OnOk result (self.new ≡ alone self.old rows) }
        ensures held { OnOk result (HasGoalsOf rows self.new.goals) }
        ensures err { OnErr result (self.new ≡ self.old) }
    {
        let (goals, answers) = rows.into_parts(alloc)?;
        self.goals = goals;
        self.answers = answers;
        Ok(())
    }

    /// Holds the goal of each row from then on. What it held stays, unless there is no room for both: then it goes first. The
    /// only error is out of memory, which leaves the store as it was.
    pub fn keep(&mut self, alloc: Global, rows: Rows<E::Goal>) -> Result<(), OutOfMemory>
        requires complete { AreComplete E.Goal.eq (E.answers self.old.tag) rows }
        requires fit { FitMemo rows }
        ensures tag { self.new.tag ≡ self.old.tag }
        ensures held { OnOk result (HasGoalsOf rows self.new.goals) }
        ensures kept { OnOk result (IsKept E.Goal.eq self.old rows self.new) }
        ensures err { OnErr result (self.new ≡ self.old) }
    {
        if self.goals.is_empty() {
            return self.replace(alloc, rows);
        }
        let more = Additions::of(alloc, &self.goals, &rows)?;
        if self.has_room(&more) {
            self.add(&rows, more)
        } else {
            self.replace(alloc, rows)
        }
    }
}

impl<E: Expand> Memo<E> for Store<E> {
    ghost use Rattle.std.specs.Prelude.{Contains};

    ghost tag = { λ s. s.tag };

    ghost holds = { λ s goal. Contains s.goals goal };

    fn answer(
        &self,
        alloc: Global,
        _by: &E,
        goal: &E::Goal,
    ) -> Result<Option<Answer<E::Goal>>, OutOfMemory> {
        let Some(place) = self.goals.get_index_of(goal) else {
            return Ok(None);
        };
        let answer = name_answer(alloc, self.goals.as_slice(), goal, &self.answers[place])?;
        Ok(Some(answer))
    }
}
