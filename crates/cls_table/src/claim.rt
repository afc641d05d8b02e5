ghost use Rattle.std.specs.Prelude.{◌≡◌, IfOk, IfErr};

use crate::origin::Origin;
use cls_base::Goals;
use cls_core::{Answer, Expand};
use std::alloc::Global;
use std::marker::Model;
use std::snapshot::Snapshot;

/// A goal that a worker has claimed. It has to be spent: it is filed, or the table is stopped. The goal is one that an
/// expander with the meaning of its tag can work on (`facts`).
pub struct Claim<E: Expand> {
    pub(crate) origin: Snapshot<Origin<E>>,
    pub(crate) worker: u32,
    pub(crate) row: u32,
    pub(crate) number: u64,
    pub(crate) goal: E::Goal,
}

impl<E: Expand> Model for Claim<E> {
    ghost use Rattle.cls_table.specs.Seen.{ClaimSeen};

    ghost Value = { ClaimSeen E.Tag E.Goal };

    ghost view = { λ c. record {
      tag = c.origin.value;
      worker = c.worker;
      row = c.row;
      number = c.number;
      goal = c.goal;
    } };

    ghost invariant = { λ c. E.ready c.origin.value.by c.goal };
}

/// A claim with the answer that its tag gives for its goal (`facts`). It has to be spent too.
pub struct Filed<E: Expand> {
    pub(crate) claim: Claim<E>,
    pub(crate) answer: Answer<E::Goal>,
}

impl<E: Expand> Model for Filed<E> {
    ghost use Rattle.std.specs.Prelude.{◌≡◌};
    ghost use Rattle.cls_table.specs.Seen.{FiledSeen};

    ghost Value = { FiledSeen E.Tag E.Goal };

    ghost view = { λ f. record { claim = f.claim; answer = f.answer } };

    ghost invariant = { λ f. E.answers f.claim.tag.by f.claim.goal f.answer };
}

/// What a worker that asks for a goal is told.
pub enum ClaimAnswer<E: Expand> {
    /// A goal to work on.
    Job(Claim<E>),
    /// All goals are taken, but some aren't filed: ask again.
    Again,
    /// All goals are filed.
    Finished,
    /// The closure is too large.
    TooLarge,
}

/// What became of a filing.
pub enum FileAnswer<E: Expand> {
    /// The goal is filed. The arguments of its answer are handed back.
    Kept(Goals<E::Goal>),
    /// The closure is too large, which the table is marked with.
    TooLarge,
    /// The claim's row isn't held by its worker or has another goal. The filing is handed back.
    NotHeld(Filed<E>),
}

impl<E: Expand> Claim<E> {
    /// The number of the worker that made the claim.
    pub fn worker(&self) -> u32
        ensures { result ≡ self.now.worker }
    {
        self.worker
    }

    /// The number of claims that were made before this one.
    pub fn number(&self) -> u64
        ensures { result ≡ self.now.number }
    {
        self.number
    }

    pub(crate) fn spend(self) {
        let Claim {
            origin: _,
            worker: _,
            row: _,
            number: _,
            goal: _,
        } = self;
    }

    /// Does nothing, and says what holds of each claim: its goal can be worked on.
    pub fn facts(&self)
        ensures { E.ready self.now.tag.by self.now.goal }
    {
        // For the prover: opens the claim's model.
        let _ = &self.goal;
    }

    /// Works on the claim's goal, by an expander that means what the claim's tag says. The Err means out of memory
    /// alone, and hands the claim back.
    pub fn expand(self, alloc: Global, by: &E) -> Result<Filed<E>, Claim<E>>
        requires { E.tag by.now ≡ self.tag.by }
        ensures claim { IfOk result (λ f. f.claim ≡ self) }
        ensures answer { IfOk result (λ f. E.answers self.tag.by self.goal f.answer) }
        ensures err { IfErr result (λ c. c ≡ self) }
    {
        match by.expand(alloc, &self.goal) {
            Ok(answer) => Ok(Filed {
                claim: self,
                answer,
            }),
            Err(_) => Err(self),
        }
    }
}

impl<E: Expand> Filed<E> {
    /// Does nothing, and says what holds of each filing: its answer is the one that the tag gives for the claim's goal.
    pub fn facts(&self)
        ensures { E.answers self.now.claim.tag.by self.now.claim.goal self.now.answer }
    {
        // For the prover: opens the filing's model.
        let _ = &self.answer;
    }

    pub(crate) fn spend(self) {
        let Filed { claim, answer: _ } = self;
        claim.spend();
    }
}
