//! A machine with its history, under a tag: what a table has beside its count and its marks.
ghost use Rattle.std.specs.Prelude.{◌≡◌, ◌<◌, ◌≤◌, ◌+◌, ◌^◌, [], ◌∷◌, ◌++◌, Some, true, false, ℕ, ◌≢◌, ◌↔◌, IsTrue};
ghost use Rattle.std.specs.Prelude.{IfOk, IfErr, IfSome, IfNone, OnOk, OnErr, length, slice_get};
ghost use Rattle.std.specs.Option.{ForSome};
ghost use Rattle.cls_core.specs.declared.state.RowState.TheVariants.{Free, Held};
ghost use Rattle.cls_core.specs.declared.entry.Entry.TheVariants.{Claim as ClaimEntry, File};
ghost use Rattle.cls_core.specs.Machine.{begun, claimed, AllFiled, NoneFree, SomeHeld};
ghost use Rattle.cls_table.specs.Tags.{tag_for};
ghost use Rattle.cls_table.specs.Holdings.{IsHeldClaim, IsClaimOf};
ghost use Rattle.cls_table.specs.Lawful.{IsLawful, IsLarge, claims_in};
ghost use Rattle.cls_table.specs.Completing.{Continues, IsFiledAt, IsComplete, IsCompletion};
ghost use Rattle.cls_table.specs.Seen.{core_of};
ghost use Rattle.cls_core.specs.Finishing.{IsFinished};

use crate::claim::Claim;
use crate::fault::ExpandFault;
use crate::limits::Limits;
use crate::origin::Origin;
use cls_base::{Key, OutOfMemory};
use cls_core::{Answer, Core, Expand, Filing, Finished, RowState};
use std::alloc::Global;
use std::marker::Model;
use std::snapshot::Snapshot;

/// The number of the worker by which `Progress::complete` claims.
const CALLER: u32 = 0;

/// The rows and the history, of which the tag is the meaning.
#[derive(Drop)]
pub struct Progress<E: Expand> {
    core: Core<E::Goal>,
    origin: Origin<E>,
}

impl<E: Expand> Model for Progress<E> {
    ghost use Rattle.cls_table.specs.Seen.{ProgressSeen};
    ghost use Rattle.cls_table.specs.Lawful.{IsLawful};

    ghost Value = { ProgressSeen E.Tag E.Goal };

    ghost view = { λ p. record { tag = p.origin; rows = p.core.rows; history = p.core.history } };

    ghost invariant = { λ p. IsLawful E.Goal.eq E.answers E.ready
        (record { tag = p.origin; rows = p.core.rows; history = p.core.history }) };
}

impl<E: Expand> Progress<E> {
    ghost use Rattle.cls_table.specs.Filings.{FilingOutcome};

    /// One free row, the start goal.
    pub(crate) fn start(
        alloc: Global,
        by: &E,
        goal: E::Goal,
        limits: Limits,
        workers: u32,
    ) -> Result<Progress<E>, OutOfMemory>
        requires ready { E.ready (E.tag by.now) goal }
        requires one_goal { 0 < limits.goals }
        ensures tag { IfOk result (λ p. p.tag ≡ tag_for (E.tag by.now) goal limits workers) }
        ensures rows { IfOk result (λ p. p.rows ≡ begun goal) }
        ensures history { IfOk result (λ p. p.history ≡ []) }
    {
        let origin = Origin::new(by, &goal, limits, workers);
        let core = Core::enter(alloc, goal)?;
        Ok(Progress { core, origin })
    }

    /// Does nothing, and says what holds of the rows and the history under the tag.
    pub(crate) fn facts(&self)
        ensures { IsLawful E.Goal.eq E.answers E.ready self.now }
    {
        // For the prover: opens the model.
        let _ = &self.core;
    }

    /// A free row.
    pub(crate) fn any_free(&self) -> Option<u32>
        ensures some { IfSome result (λ row. slice_get self.now.rows.states row ≡ Some Free) }
        ensures none { IfNone result (NoneFree self.now.rows) }
    {
        self.core.any_free()
    }

    /// Whether some row is held.
    pub(crate) fn any_held(&self) -> bool
        ensures { IsTrue result ↔ SomeHeld self.now.rows }
    {
        self.core.any_held()
    }

    /// The number of rows.
    pub(crate) fn count(&self) -> u32
        ensures goals { result ≡ length self.now.rows.goals }
        ensures states { result ≡ length self.now.rows.states }
        ensures within { length self.now.rows.goals ≤ self.now.tag.goals }
    {
        self.core.count()
    }

    // The event of a claim: the worker takes the row, which is free.
    fn claim_row(&mut self, worker: u32, row: u32) -> Result<(), OutOfMemory>
        requires worker { worker ≤ self.old.tag.workers }
        requires free { slice_get self.old.rows.states row ≡ Some Free }
        ensures tag { self.new.tag ≡ self.old.tag }
        ensures rows { OnOk result (self.new.rows ≡ claimed self.old.rows worker row) }
        ensures history { OnOk result (self.new.history ≡ self.old.history ++ ClaimEntry worker row ∷ []) }
        ensures small { OnOk result (length self.new.history < 2 ^ 63) }
        ensures err { OnErr result (self.new ≡ self.old) }
    {
        self.core.claim(worker, row)?;
        Ok(())
    }

    /// The worker claims the row, which is free, and has its goal then.
    pub(crate) fn claim(
        &mut self,
        alloc: Global,
        worker: u32,
        row: u32,
        number: u64,
    ) -> Result<Claim<E>, OutOfMemory>
        requires worker { worker ≤ self.old.tag.workers }
        requires free { slice_get self.old.rows.states row ≡ Some Free }
        ensures claim { IfOk result (λ c. IsClaimOf self.old.tag self.old.rows worker row number c) }
        ensures tag { self.new.tag ≡ self.old.tag }
        ensures rows { OnOk result (self.new.rows ≡ claimed self.old.rows worker row) }
        ensures history { OnOk result (self.new.history ≡ self.old.history ++ ClaimEntry worker row ∷ []) }
        ensures small { OnOk result (length self.new.history < 2 ^ 63) }
        ensures err { OnErr result (self.new ≡ self.old) }
    {
        let goal = self.core.goal(row).copy(alloc)?;
        self.claim_row(worker, row)?;
        Ok(Claim {
            origin: Snapshot::of(&self.origin),
            worker,
            row,
            number,
            goal,
        })
    }

    /// Whether the claim's row is held by its worker and has its goal.
    pub(crate) fn has_held(&self, claim: &Claim<E>) -> bool
        ensures yes { result ≡ true → IsHeldClaim self.now.rows claim.now }
        ensures no { result ≡ false → IsHeldClaim self.now.rows claim.now → ⊥ }
    {
        self.core.is_held(claim.worker, claim.row) && *self.core.goal(claim.row) == claim.goal
    }

    /// Files the row, which the worker holds, with the answer that the tag gives for its goal, if that stays within the
    /// limits, and hands the answer's arguments back. The Err means out of memory, and hands the answer back.
    #[tactic(auto, using(crate::proofs::Counting::claims_in_file))]
    pub(crate) fn file(
        &mut self,
        alloc: Global,
        worker: u32,
        row: u32,
        answer: Answer<E::Goal>,
    ) -> Result<Filing<E::Goal>, Answer<E::Goal>>
        requires held { slice_get self.old.rows.states row ≡ Some (Held worker) }
        requires answer { ForSome (slice_get self.old.rows.goals row) (λ g. E.answers self.old.tag.by g answer) }
        ensures outcome { IfOk result (λ f. FilingOutcome E.Goal.eq worker row answer f self.old self.new) }
        ensures large { IfOk result (λ f. f ≡ Filing.OverLimits → IsLarge E.answers self.old.tag) }
        ensures claims { OnOk result (claims_in self.new.history ≡ claims_in self.old.history) }
        ensures tag { self.new.tag ≡ self.old.tag }
        ensures err { IfErr result (λ a. (a ≡ answer) × (self.new ≡ self.old)) }
    {
        let rules = u64::from(self.origin.rules()) - self.core.rules();
        if answer.rule_count() as u64 > rules {
            return Ok(Filing::OverLimits);
        }
        let most = self.origin.goals();
        self.core.file(alloc, worker, row, answer, most)
    }

    /// The rows and the history. The Err comes if and only if some row isn't filed.
    pub(crate) fn finish(self) -> Result<Finished<E::Goal>, Progress<E>>
        ensures finished { IfOk result (IsFinished (core_of self)) }
        ensures lawful { OnOk result (IsLawful E.Goal.eq E.answers E.ready self) }
        ensures err { IfErr result (λ p. (p ≡ self) × (AllFiled self.rows → ⊥)) }
    {
        let Progress { core, origin } = self;
        match core.finish() {
            Ok(finished) => Ok(finished),
            Err(core) => Err(Progress { core, origin }),
        }
    }

    /// The rows and the history, copied. None comes if and only if some row isn't filed. The only error is out of
    /// memory.
    pub(crate) fn read(&self, alloc: Global) -> Result<Option<Finished<E::Goal>>, OutOfMemory>
        ensures finished { IfOk result (λ r. IfSome r (IsFinished (core_of self.now))) }
        ensures complete { IfOk result (λ r. IfSome r (λ f. IsComplete E.Goal.eq E.answers self.now.tag f)) }
        ensures unfiled { IfOk result (λ r. IfNone r (AllFiled self.now.rows → ⊥)) }
    {
        self.core.read(alloc)
    }

    // Files the row, which the worker holds, with the answer of its goal.
    fn file_held(&mut self, alloc: Global, by: &E, worker: u32, row: u32) -> Result<(), ExpandFault>
        requires tag { E.tag by.now ≡ self.old.tag.by }
        requires held { slice_get self.old.rows.states row ≡ Some (Held worker) }
        ensures continues { OnOk result (Continues self.old self.new) }
        ensures filed { OnOk result (IsFiledAt self.new.rows row) }
        ensures large { IfErr result (λ e. e ≡ ExpandFault.TooLarge → IsLarge E.answers self.old.tag) }
    {
        let answer = by.expand(alloc, self.core.goal(row))?;
        match self.file(alloc, worker, row, answer) {
            Ok(Filing::Kept(_)) => Ok(()),
            Ok(Filing::OverLimits) => Err(ExpandFault::TooLarge),
            Err(_) => Err(ExpandFault::OutOfMemory),
        }
    }

    // Files the row if it isn't filed: by its holder, or by the caller if it is free.
    fn complete_row(&mut self, alloc: Global, by: &E, row: u32) -> Result<(), ExpandFault>
        requires tag { E.tag by.now ≡ self.old.tag.by }
        requires within { row < length self.old.rows.goals }
        ensures continues { OnOk result (Continues self.old self.new) }
        ensures filed { OnOk result (IsFiledAt self.new.rows row) }
        ensures large { IfErr result (λ e. e ≡ ExpandFault.TooLarge → IsLarge E.answers self.old.tag) }
    {
        let worker = match self.core.state(row) {
            RowState::Filed(_) => return Ok(()),
            RowState::Held(worker) => *worker,
            RowState::Free => {
                return self.complete_free(alloc, by, row);
            }
        };
        self.file_held(alloc, by, worker, row)
    }

    // Claims the row, which is free, as the caller, and files it.
    fn complete_free(&mut self, alloc: Global, by: &E, row: u32) -> Result<(), ExpandFault>
        requires tag { E.tag by.now ≡ self.old.tag.by }
        requires free { slice_get self.old.rows.states row ≡ Some Free }
        ensures continues { OnOk result (Continues self.old self.new) }
        ensures filed { OnOk result (IsFiledAt self.new.rows row) }
        ensures large { IfErr result (λ e. e ≡ ExpandFault.TooLarge → IsLarge E.answers self.old.tag) }
    {
        self.claim_row(CALLER, row)?;
        self.file_held(alloc, by, CALLER, row)
    }

    /// Files each row, the held ones by their holders and the free ones as the caller, until all are filed.
    pub(crate) fn complete(self, alloc: Global, by: &E) -> Result<Finished<E::Goal>, ExpandFault>
        requires tag { E.tag by.now ≡ self.tag.by }
        ensures completion { IfOk result (IsCompletion E.Goal.eq E.answers self) }
        ensures within { OnOk result (IsLarge E.answers self.tag → ⊥) }
        ensures large { IfErr result (λ e. e ≡ ExpandFault.TooLarge → IsLarge E.answers self.tag) }
    {
        let mut progress = self;
        let mut row = 0;
        while row < progress.count() {
            progress.complete_row(alloc, by, row)?;
            row += 1;
        }
        match progress.finish() {
            Ok(finished) => Ok(finished),
            Err(_) => unreachable!(),
        }
    }
}
