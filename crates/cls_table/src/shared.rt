ghost use Rattle.std.specs.Prelude.{◌≡◌, ◌<◌, ◌≤◌, ◌+◌, ◌-◌, [], Some, IfOk, IfErr, IfSome, length};
ghost use Rattle.std.specs.Option.{ForSome};

use crate::batch::{Batch, Told, Wanted};
use crate::limits::Limits;
use crate::seat::TableSeat;
use crate::table::Table;
use crate::tag::Tag;
use cls_base::OutOfMemory;
use cls_core::{Expand, Finished};
use cls_turn::Turn;
use std::alloc::Global;
use std::sync::Wait;
use std::sync::ledger::{Blank, Ledger, Share};

/// A table under a spin lock.
///
/// Each call that takes a seat wants one of this table: the first, or one that was split from such a seat.
#[derive(Drop)]
pub struct SharedTable<E: Expand, L: Ledger> {
    turn: Turn<Table<E, L>, Tag<E::Tag, E::Goal>>,
}

/// A table that was closed while some row wasn't filed.
#[derive(Drop)]
pub struct Unfinished<E: Expand, L: Ledger> {
    /// The table that was taken out.
    pub table: Table<E, L>,
}

impl<E: Expand, L: Ledger> SharedTable<E, L> {
    ghost use Rattle.cls_turn.specs.Seats.{id_of};
    ghost use Rattle.cls_core.specs.Machine.{AllFiled};
    ghost use Rattle.cls_table.specs.Lawful.{IsLarge, IsLawfulTable, claims_in};
    ghost use Rattle.cls_table.specs.Tags.{tag_for};
    ghost use Rattle.cls_table.specs.Batches.{HasFiled, HasNothing, IsBatchFor};
    ghost use Rattle.cls_table.specs.Completing.{IsCompleteFor};

    /// A table with one free row, the goal, and the seat of the worker 0 with every part of the ledger. The only error
    /// is out of memory.
    pub fn start(
        alloc: Global,
        by: &E,
        goal: E::Goal,
        limits: Limits,
        workers: u32,
        blank: Blank,
    ) -> Result<(SharedTable<E, L>, TableSeat<E, L>), OutOfMemory>
        requires ready { E.ready (E.tag by.now) goal }
        requires one_goal { 0 < limits.goals }
        requires name { blank.name ≡ L.name }
        requires parts { blank.parts ≡ L.parts }
        requires part_each { L.parts ≡ workers + 1 }
        ensures seat_of_this { IfOk result (λ r. r.1.turn ≡ id_of r.0.turn) }
        ensures tag { IfOk result (λ r. r.1.tag ≡ Some (tag_for (E.tag by.now) goal limits workers)) }
        ensures seat { IfOk result (λ r. (r.1.worker ≡ 0) × (r.1.parts ≡ L.parts) × (r.1.amount ≡ 0)) }
    {
        let (book, share) = blank.open::<L>();
        let table = Table::start(alloc, by, goal, limits, workers, book)?;
        let (turn, seat) = Turn::new(alloc, table)?;
        Ok((
            SharedTable { turn },
            TableSeat {
                seat,
                share,
                worker: 0,
            },
        ))
    }

    /// A seat for the worker, with one part of the ledger taken from the given seat.
    pub fn split(&self, seat: &mut TableSeat<E, L>, worker: u32) -> TableSeat<E, L>
        requires seat_of_this { seat.old.turn ≡ id_of self.now.turn }
        requires parts { 1 < seat.old.parts }
        requires worker { ForSome seat.old.tag (λ t. worker ≤ t.workers) }
        ensures new { result ≡ record seat.old { worker = worker; parts = 1; amount = 0 } }
        ensures left { seat.new ≡ record seat.old { parts = seat.old.parts - 1 } }
    {
        let share = seat.share.split_off(1, 0);
        TableSeat {
            seat: self.turn.split(&mut seat.seat),
            share,
            worker,
        }
    }

    /// Ends the other seat, and adds its parts and its amount to the given one.
    pub fn join(&self, seat: &mut TableSeat<E, L>, other: TableSeat<E, L>)
        requires seat_of_this { seat.old.turn ≡ id_of self.now.turn }
        requires other_of_this { other.turn ≡ id_of self.now.turn }
        ensures { seat.new ≡ record seat.old {
          parts = seat.old.parts + other.parts;
          amount = seat.old.amount + other.amount;
        } }
    {
        let TableSeat {
            seat: ended,
            share,
            worker: _,
        } = other;
        self.turn.join(&mut seat.seat, ended);
        seat.share.merge(share);
    }

    /// Takes the turn once: files what the batch has worked on, the last one first, and then claims what is wanted for it,
    /// and fewer goals where few rows are free. A filing whose claim isn't held stays at hand. Where memory runs out, the
    /// table is stopped. A filing for which it ran out is spent, and `NoMemory` comes.
    pub fn exchange<R: Wait>(
        &self,
        rt: &R,
        alloc: Global,
        seat: &mut TableSeat<E, L>,
        batch: &mut Batch<E>,
        wanted: Wanted,
    ) -> Told
        requires seat_of_this { seat.old.turn ≡ id_of self.now.turn }
        requires batch { ForSome seat.old.tag (λ t. IsBatchFor t seat.old.worker batch.old) }
        requires no_claims { batch.old.claims ≡ [] }
        ensures batch { ForSome seat.old.tag (λ t. IsBatchFor t seat.old.worker batch.new) }
        ensures filed { (result ≡ Told.NoMemory → ⊥)
            → ForSome seat.old.tag (λ t. HasFiled E.Goal.eq E.answers t batch.old.filings batch.new.filings) }
        ensures large { result ≡ Told.TooLarge → ForSome seat.old.tag (IsLarge E.answers) }
        ensures seat { seat.new ≡ record seat.old { amount = seat.old.amount + length batch.new.claims } }
        ensures many { result ≡ Told.Many → batch.new.claims ≡ [] }
        ensures most { length batch.new.claims ≤ wanted.most }
    {
        let TableSeat {
            seat,
            share,
            worker,
        } = seat;
        let mut table = self.turn.take(rt, seat);
        // For the prover: what holds of the table.
        table.facts();
        batch.file(alloc, &mut table);
        let told = batch.claim(alloc, &mut table, share, *worker, wanted);
        self.turn.put(seat, table);
        told
    }

    /// Takes the turn, and stops the table, which spends all that the batch has at hand.
    pub fn stop<R: Wait>(&self, rt: &R, seat: &mut TableSeat<E, L>, batch: &mut Batch<E>)
        requires seat_of_this { seat.old.turn ≡ id_of self.now.turn }
        ensures seat { seat.new ≡ seat.old }
        ensures nothing { HasNothing batch.new }
    {
        let TableSeat { seat, .. } = seat;
        let mut table = self.turn.take(rt, seat);
        table.stop();
        batch.spend();
        self.turn.put(seat, table);
    }

    // One holding of `read`.
    fn read_once<R: Wait>(
        &self,
        rt: &R,
        alloc: Global,
        seat: &mut TableSeat<E, L>,
    ) -> Result<Option<Finished<E::Goal>>, OutOfMemory>
        requires seat_of_this { seat.old.turn ≡ id_of self.now.turn }
        ensures seat { seat.new ≡ seat.old }
        ensures complete { IfOk result (λ r. IfSome r (IsCompleteFor E.Goal.eq E.answers seat.old)) }
    {
        let TableSeat { seat, .. } = seat;
        let table = self.turn.take(rt, seat);
        let answer = table.read(alloc);
        self.turn.put(seat, table);
        answer
    }

    /// Waits for a holding at which all rows are filed, and copies the rows and the history: what `Table::read` gives
    /// there. At any other holding it puts the table back and takes the turn again. The table stays as it is. The only
    /// error is out of memory.
    pub fn read<R: Wait>(
        &self,
        rt: &R,
        alloc: Global,
        seat: &mut TableSeat<E, L>,
    ) -> Result<Finished<E::Goal>, OutOfMemory>
        requires seat_of_this { seat.old.turn ≡ id_of self.now.turn }
        ensures seat { seat.new ≡ seat.old }
        ensures complete { IfOk result (IsCompleteFor E.Goal.eq E.answers seat.old) }
    {
        for _ in rt.forever() {
            if let Some(finished) = self.read_once(rt, alloc, seat)? {
                return Ok(finished);
            }
        }
        unreachable!()
    }

    /// Takes the table out for good: the rows and the history if all rows are filed, and the table if and only if some
    /// row isn't. If the seat has every part of the ledger, the history of either has as many claims as the seat's
    /// share counts.
    pub fn close<R: Wait>(
        self,
        rt: &R,
        seat: TableSeat<E, L>,
    ) -> Result<Finished<E::Goal>, Unfinished<E, L>>
        requires seat_of_this { seat.turn ≡ id_of self.turn }
        ensures complete { IfOk result (IsCompleteFor E.Goal.eq E.answers seat) }
        ensures claims { IfOk result (λ f. seat.parts ≡ L.parts → claims_in f.history ≡ seat.amount) }
        ensures tag { IfErr result (λ u. seat.tag ≡ Some u.table.tag) }
        ensures unfinished { IfErr result (λ u. AllFiled u.table.rows → ⊥) }
        ensures unfinished_claims { IfErr result (λ u. seat.parts ≡ L.parts → claims_in u.table.history ≡ seat.amount) }
        ensures unfinished_count { IfErr result (λ u. seat.parts ≡ L.parts → u.table.claims ≡ seat.amount) }
        ensures lawful { IfErr result (λ u. IsLawfulTable E.Goal.eq E.answers u.table) }
    {
        let TableSeat {
            seat,
            share,
            worker: _,
        } = seat;
        let SharedTable { turn } = self;
        let mut table = turn.close(rt, seat);
        let mut share = share;
        table.audit(&mut share);
        match table.finish() {
            Ok(finished) => Ok(finished),
            Err(table) => {
                // For the prover: what holds of the table.
                table.facts();
                Err(Unfinished { table })
            }
        }
    }
}
