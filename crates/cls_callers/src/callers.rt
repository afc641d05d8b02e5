ghost use Rattle.std.specs.Prelude.{◌≡◌, ◌<◌, ◌≤◌, ◌+◌, ◌-◌, Some, IfOk, IfErr, OnOk, length};
ghost use Rattle.std.specs.Option.{ForSome};

use crate::asked::Asked;
use crate::closures::AskedClosures;
use crate::goal::AskGoal;
use crate::rounds::finish;
use cls_base::{Gate, OutOfMemory};
use cls_core::{Expand, Finished, Rows};
use cls_table::{ExpandFault, Limits, SharedTable, TableSeat, Unfinished};
use std::alloc::Global;
use std::sync::Wait;
use std::sync::ledger::{Blank, Ledger};

/// A table whose start goal is the root of the asked goals, which callers share.
///
/// Each call that takes a seat wants one of this table: the first, or one that was split from such a seat.
#[derive(Drop)]
pub struct Callers<'e, E: Expand, L: Ledger> {
    table: SharedTable<Asked<'e, E>, L>,
}

impl<'e, E: Expand, L: Ledger> Callers<'e, E, L> {
    ghost use Rattle.cls_turn.specs.Seats.{id_of};
    ghost use Rattle.cls_core.specs.Machine.{AllFiled};
    ghost use Rattle.cls_table.specs.Completing.{IsCompleteFor};
    ghost use Rattle.cls_table.specs.Lawful.{IsLarge, IsLawfulTable};
    ghost use Rattle.cls_table.specs.Tags.{tag_for};
    ghost use Rattle.cls_callers.specs.declared.goal.AskGoal.TheVariants.{Root};
    ghost use Rattle.cls_callers.specs.AskGoals.{ask_eq};
    ghost use Rattle.cls_callers.specs.Asking.{CountsAllClaims, IsAfterAsking, IsAskAnswer, IsAskedClosure, IsCaller};

    /// A table with one free row, the root of the asked goals, and a seat with every part of the ledger. Callers are
    /// numbered from 1 to their number, and the first seat is that of the number 0. The limits count the root and its
    /// rules, too. The only error is out of memory.
    pub fn start(
        alloc: Global,
        by: &Asked<'e, E>,
        limits: Limits,
        callers: u32,
        blank: Blank,
    ) -> Result<(Callers<'e, E, L>, TableSeat<Asked<'e, E>, L>), OutOfMemory>
        requires limits { (0 < limits.goals) × (0 < limits.rules) }
        requires name { blank.name ≡ L.name }
        requires parts { blank.parts ≡ L.parts }
        requires part_each { L.parts ≡ callers + 1 }
        ensures seat_of_this { IfOk result (λ r. r.1.turn ≡ id_of r.0.table.turn) }
        ensures tag { IfOk result (λ r. r.1.tag ≡ Some (tag_for by.now Root limits callers)) }
        ensures caller { IfOk result (λ r. IsCaller by.now r.1) }
        ensures seat { IfOk result (λ r. (r.1.worker ≡ 0) × (r.1.parts ≡ L.parts) × (r.1.amount ≡ 0)) }
    {
        // For the prover: what holds of the asked goals.
        by.facts();
        let (table, seat) = SharedTable::start(alloc, by, AskGoal::Root, limits, callers, blank)?;
        Ok((Callers { table }, seat))
    }

    /// A seat for the caller, with one part of the ledger taken from the given seat.
    pub fn split(
        &self,
        seat: &mut TableSeat<Asked<'e, E>, L>,
        caller: u32,
    ) -> TableSeat<Asked<'e, E>, L>
        requires seat_of_this { seat.old.turn ≡ id_of self.now.table.turn }
        requires parts { 1 < seat.old.parts }
        requires caller { ForSome seat.old.tag (λ t. caller ≤ t.workers) }
        ensures new { result ≡ record seat.old { worker = caller; parts = 1; amount = 0 } }
        ensures left { seat.new ≡ record seat.old { parts = seat.old.parts - 1 } }
    {
        self.table.split(seat, caller)
    }

    /// Ends the other seat, and adds its parts and its amount to the given one.
    pub fn join(&self, seat: &mut TableSeat<Asked<'e, E>, L>, other: TableSeat<Asked<'e, E>, L>)
        requires seat_of_this { seat.old.turn ≡ id_of self.now.table.turn }
        requires other_of_this { other.turn ≡ id_of self.now.table.turn }
        ensures { seat.new ≡ record seat.old {
          parts = seat.old.parts + other.entry.parts;
          amount = seat.old.amount + other.entry.amount;
        } }
    {
        self.table.join(seat, other)
    }

    /// The closure of the asked goal with this number, the first being 1, in its canonical numbering, each goal with
    /// its answer.
    ///
    /// The caller claims goals, works on them and files them, until all rows of the table are filed. It tells the gate
    /// of each claim. `TooLarge` comes if and only if the root's closure has more goals or more rules than the limits.
    /// The only other error is out of memory. A caller that runs out of it while it works stops the table, and each
    /// caller of a stopped table is told that there is no memory.
    pub fn ask<T: Gate, R: Wait>(
        &self,
        rt: &R,
        alloc: Global,
        seat: &mut TableSeat<Asked<'e, E>, L>,
        by: &Asked<'e, E>,
        k: u32,
        gate: &T,
    ) -> Result<Rows<E::Goal>, ExpandFault>
        requires seat_of_this { seat.old.turn ≡ id_of self.now.table.turn }
        requires caller { IsCaller by.now seat.old }
        requires asked { (1 ≤ k) × (k ≤ length by.now.goals) }
        ensures rows { IfOk result (IsAskedClosure E.Goal.eq E.answers by.now k) }
        ensures within { OnOk result (ForSome seat.old.tag (λ t. IsLarge (IsAskAnswer E.answers) t → ⊥)) }
        ensures large { IfErr result (λ e. e ≡ ExpandFault.TooLarge
            → ForSome seat.old.tag (IsLarge (IsAskAnswer E.answers))) }
        ensures seat { IsAfterAsking seat.old seat.new }
    {
        let finished = finish(rt, alloc, &self.table, by, gate, seat)?;
        let closures = AskedClosures::new(alloc, by, finished.rows)?;
        Ok(closures.get(alloc, k)?)
    }

    /// Takes the table out for good: the rows and the history if all rows are filed, and the table if and only if some
    /// row isn't. If the seat has every part of the ledger, the history of either has as many claims as the seat's
    /// share counts, which are those of all seats that were joined to it.
    pub fn close<R: Wait>(
        self,
        rt: &R,
        seat: TableSeat<Asked<'e, E>, L>,
    ) -> Result<Finished<AskGoal<E::Goal>>, Unfinished<Asked<'e, E>, L>>
        requires seat_of_this { seat.turn ≡ id_of self.table.turn }
        ensures complete { IfOk result (IsCompleteFor (ask_eq E.Goal.eq) (IsAskAnswer E.answers) seat.entry) }
        ensures claims { IfOk result (λ f. CountsAllClaims L.parts seat.entry f.history) }
        ensures tag { IfErr result (λ u. seat.entry.tag ≡ Some u.table.tag) }
        ensures unfinished { IfErr result (λ u. AllFiled u.table.rows → ⊥) }
        ensures unfinished_claims { IfErr result (λ u. CountsAllClaims L.parts seat.entry u.table.history) }
        ensures lawful { IfErr result (λ u. IsLawfulTable (ask_eq E.Goal.eq) (IsAskAnswer E.answers) u.table) }
    {
        let Callers { table } = self;
        table.close(rt, seat)
    }
}
