ghost use Rattle.std.specs.Prelude.{◌≡◌, ◌<◌, ◌≤◌, ◌+◌, ◌-◌, [], true, false, length};
ghost use Rattle.std.specs.Prelude.{IfOk, IfErr, IfSome, IfNone, OnOk, OnErr, IsErr, IsErrOf};

use crate::claim::{Claim, ClaimAnswer, FileAnswer, Filed};
use crate::fault::ExpandFault;
use crate::limits::Limits;
use crate::progress::Progress;
use crate::tag::Tag;
use cls_base::OutOfMemory;
use cls_core::{Expand, Filing, Finished};
use cls_turn::Known;
use std::alloc::Global;
use std::marker::Model;
use std::sync::ledger::{Book, Ledger, Share};

/// The rows, the history, the count of claims made and the marks, under a tag.
///
/// Of each table holds what `facts` says: its history is legal and has the rows as its replay, the first row is the
/// tag's start goal, each filed row holds the answer that the tag gives for its goal, all is within the tag's limits,
/// no entry names a worker above the greatest, the claims of the history are as many as the count, and it is marked as
/// too large only if the closure is.
#[derive(Drop)]
pub struct Table<E: Expand, L: Ledger> {
    progress: Progress<E>,
    claims: Book<L>,
    made: u64,
    large: bool,
    stopped: bool,
}

impl<E: Expand, L: Ledger> Model for Table<E, L> {
    ghost use Rattle.std.specs.Prelude.{◌≡◌, true};
    ghost use Rattle.cls_table.specs.Seen.{TableSeen, table_of};
    ghost use Rattle.cls_table.specs.Lawful.{IsLarge, claims_in};

    ghost Value = { TableSeen E.Tag E.Goal };

    ghost view = { λ t. table_of t.progress t.claims.total t.large t.stopped };

    ghost invariant = { λ t. (claims_in t.progress.history ≡ t.claims.total) × (t.made ≡ t.claims.total)
        × (t.large ≡ true → IsLarge E.answers t.progress.tag) };
}

impl<E: Expand, L: Ledger> Known<Tag<E::Tag, E::Goal>> for Table<E, L> {
    ghost use Rattle.cls_table.specs.Tags.{tag_of, IsSameTag, same_tag_reflexive, same_tag_transitive};

    ghost known = { tag_of };

    ghost goes_on = { IsSameTag };

    ghost goes_on_reflexive = { same_tag_reflexive };

    ghost goes_on_transitive = { same_tag_transitive };
}

impl<E: Expand, L: Ledger> Table<E, L> {
    ghost use Rattle.cls_core.specs.Machine.{begun, AllFiled};
    ghost use Rattle.cls_table.specs.Tags.{tag_for};
    ghost use Rattle.cls_table.specs.Completing.{IsComplete, IsCompletion};
    ghost use Rattle.cls_table.specs.Seen.{progress_of, core_of};
    ghost use Rattle.cls_core.specs.Finishing.{IsFinished};
    ghost use Rattle.cls_table.specs.Lawful.{IsLawfulTable, IsLarge, claims_in};
    ghost use Rattle.cls_table.specs.Holdings.{ClaimOutcome, FileOutcome, claims_made_by, stopped_table};

    /// Does nothing, and says what holds of each table.
    pub fn facts(&self)
        ensures { IsLawfulTable E.Goal.eq E.answers self.now }
    {
        self.progress.facts();
    }

    pub(crate) fn start(
        alloc: Global,
        by: &E,
        goal: E::Goal,
        limits: Limits,
        workers: u32,
        claims: Book<L>,
    ) -> Result<Table<E, L>, OutOfMemory>
        requires ready { E.ready (E.tag by.now) goal }
        requires one_goal { 0 < limits.goals }
        requires no_claims { claims.total ≡ 0 }
        ensures tag { IfOk result (λ t. t.tag ≡ tag_for (E.tag by.now) goal limits workers) }
        ensures rows { IfOk result (λ t. t.rows ≡ begun goal) }
        ensures marks { IfOk result (λ t. (t.large ≡ false) × (t.stopped ≡ false) × (t.history ≡ [])) }
    {
        let progress = Progress::start(alloc, by, goal, limits, workers)?;
        Ok(Table {
            progress,
            claims,
            made: 0,
            large: false,
            stopped: false,
        })
    }

    /// Gives a goal to the worker, or says why it doesn't.
    ///
    /// If the table is stopped the answer is `OutOfMemory`, which also comes at out of memory. Otherwise it is
    /// `TooLarge` if and only if the table is marked so, `Job` if some row is free, `Again` if and only if no row is
    /// free and some row is held, and `Finished` if and only if all rows are filed. `Job` makes the row held by the
    /// worker, adds the entry of the claim and raises the share by one. With any other answer the table and the share
    /// are as before.
    pub fn claim(
        &mut self,
        alloc: Global,
        share: &mut Share<L>,
        worker: u32,
    ) -> Result<ClaimAnswer<E>, OutOfMemory>
        requires worker { worker ≤ self.old.tag.workers }
        requires part { 0 < share.old.parts }
        ensures stopped { self.old.stopped ≡ true → IsErr result }
        ensures outcome { IfOk result (λ a. ClaimOutcome self.old worker a self.new) }
        ensures large { self.old.large ≡ true → IsLarge E.answers self.old.tag }
        ensures tag { self.new.tag ≡ self.old.tag }
        ensures amount { IfOk result (λ a. share.new.amount ≡ share.old.amount + claims_made_by a) }
        ensures parts { share.new.parts ≡ share.old.parts }
        ensures err { OnErr result ((self.new ≡ self.old) × (share.new.amount ≡ share.old.amount)) }
    {
        if self.stopped {
            return Err(OutOfMemory);
        }
        if self.large {
            return Ok(ClaimAnswer::TooLarge);
        }
        let Some(row) = self.progress.any_free() else {
            if self.progress.any_held() {
                return Ok(ClaimAnswer::Again);
            }
            return Ok(ClaimAnswer::Finished);
        };
        let claim = self.progress.claim(alloc, worker, row, self.made)?;
        self.claims.add(share, 1);
        self.made += 1;
        Ok(ClaimAnswer::Job(claim))
    }

    /// Files a claim's goal.
    ///
    /// It hands the filing back if and only if the claim's row isn't held by its worker or has another goal, and the
    /// table is then as before. Otherwise it files the row if that stays within the limits, and marks the table as too
    /// large if it doesn't. The Err means out of memory alone, and hands the filing back. The table is then as before.
    pub fn file(&mut self, alloc: Global, filed: Filed<E>) -> Result<FileAnswer<E>, Filed<E>>
        requires tag { filed.claim.tag ≡ self.old.tag }
        ensures outcome { IfOk result (λ r. FileOutcome E.Goal.eq self.old filed r self.new) }
        ensures err { IfErr result (λ f. (f ≡ filed) × (self.new ≡ self.old)) }
        ensures tag { self.new.tag ≡ self.old.tag }
    {
        if !self.progress.has_held(&filed.claim) {
            return Ok(FileAnswer::NotHeld(filed));
        }
        let Filed { claim, answer } = filed;
        match self.progress.file(alloc, claim.worker, claim.row, answer) {
            Ok(Filing::Kept(goals)) => {
                claim.spend();
                Ok(FileAnswer::Kept(goals))
            }
            Ok(Filing::OverLimits) => {
                claim.spend();
                self.large = true;
                Ok(FileAnswer::TooLarge)
            }
            Err(answer) => Err(Filed { claim, answer }),
        }
    }

    /// How many rows nobody has claimed yet.
    pub fn unclaimed(&self) -> u64
        ensures { result ≡ length self.now.rows.goals - self.now.claims }
    {
        u64::from(self.progress.count()).saturating_sub(self.made)
    }

    /// Tells how the share stands to the claims made.
    pub(crate) fn audit(&mut self, share: &mut Share<L>)
        ensures same { self.new ≡ self.old }
        ensures whole { share.old.parts ≡ L.parts → share.old.amount ≡ self.old.claims }
    {
        self.claims.audit(share);
    }

    /// Whether the table is marked as too large.
    pub fn large(&self) -> bool
        ensures mark { result ≡ self.now.large }
        ensures cause { result ≡ true → IsLarge E.answers self.now.tag }
    {
        self.large
    }

    /// Whether the table is stopped.
    pub fn stopped(&self) -> bool
        ensures { result ≡ self.now.stopped }
    {
        self.stopped
    }

    /// Stops the table since there is no memory. Rows and history stay.
    pub fn stop(&mut self)
        ensures { self.new ≡ stopped_table self.old }
    {
        self.stopped = true;
    }

    /// Copies the rows and the history if all rows are filed: the whole work of one holding of `SharedTable::read`.
    /// None comes if and only if some row isn't filed. The only error is out of memory.
    pub fn read(&self, alloc: Global) -> Result<Option<Finished<E::Goal>>, OutOfMemory>
        ensures finished { IfOk result (λ r. IfSome r (IsFinished (core_of (progress_of self.now)))) }
        ensures claims { IfOk result (λ r. IfSome r (λ f. claims_in f.history ≡ self.now.claims)) }
        ensures complete { IfOk result (λ r. IfSome r (λ f. IsComplete E.Goal.eq E.answers self.now.tag f)) }
        ensures unfiled { IfOk result (λ r. IfNone r (AllFiled self.now.rows → ⊥)) }
    {
        self.progress.read(alloc)
    }

    /// Files each row that isn't filed: a held one under its holder's number, a free one after a claim as the worker 0.
    /// Nothing waits. If the table is stopped the answer is `OutOfMemory`, which also comes at out of memory. Otherwise
    /// `TooLarge` comes if and only if the closure of the tag's start goal passes the tag's limits.
    pub fn complete(self, alloc: Global, by: &E) -> Result<Finished<E::Goal>, ExpandFault>
        requires tag { E.tag by.now ≡ self.tag.by }
        ensures completion { IfOk result (IsCompletion E.Goal.eq E.answers (progress_of self)) }
        ensures within { OnOk result (IsLarge E.answers self.tag → ⊥) }
        ensures large { IfErr result (λ e. e ≡ ExpandFault.TooLarge → IsLarge E.answers self.tag) }
        ensures stopped { self.stopped ≡ true → IsErrOf result ExpandFault.OutOfMemory }
    {
        if self.stopped {
            return Err(ExpandFault::OutOfMemory);
        }
        if self.large {
            return Err(ExpandFault::TooLarge);
        }
        self.progress.complete(alloc, by)
    }

    /// The rows and the history. The Err comes if and only if some row isn't filed, and hands the table back.
    pub(crate) fn finish(self) -> Result<Finished<E::Goal>, Table<E, L>>
        ensures complete { IfOk result (λ f. IsComplete E.Goal.eq E.answers self.tag f) }
        ensures claims { IfOk result (λ f. claims_in f.history ≡ self.claims) }
        ensures err { IfErr result (λ t. (t ≡ self) × (AllFiled self.rows → ⊥)) }
    {
        let Table {
            progress,
            claims,
            made,
            large,
            stopped,
        } = self;
        match progress.finish() {
            Ok(finished) => Ok(finished),
            Err(progress) => Err(Table {
                progress,
                claims,
                made,
                large,
                stopped,
            }),
        }
    }
}
