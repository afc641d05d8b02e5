//! What a caller does at the table. It takes the lock once for several goals, as workers do.
ghost use Rattle.std.specs.Prelude.{◌≡◌, [], IfOk, IfErr};
ghost use Rattle.std.specs.Option.{ForSome};
ghost use Rattle.cls_turn.specs.Seats.{id_of};
ghost use Rattle.cls_table.specs.Batches.{IsBatchFor};
ghost use Rattle.cls_table.specs.Completing.{IsCompleteFor};
ghost use Rattle.cls_table.specs.Lawful.{IsLarge};
ghost use Rattle.cls_callers.specs.Asking.{HasMeaning, IsAfterAsking};

use cls_base::Gate;
use cls_core::{Expand, Finished};
use cls_table::{Batch, ExpandFault, SharedTable, TableSeat, Told, Wanted};
use std::alloc::Global;
use std::sync::Wait;
use std::sync::ledger::Ledger;
use std::thread::yield_now;

/// How many goals a caller claims at one holding at most.
const MOST_CLAIMS: u32 = 8;

/// One holding of the table, and the work on the goals that were claimed at it. A caller that runs out of memory stops
/// the table. It says what the caller was told.
fn round<E: Expand, L: Ledger, T: Gate, R: Wait>(
    rt: &R,
    alloc: Global,
    table: &SharedTable<E, L>,
    by: &E,
    gate: &T,
    seat: &mut TableSeat<E, L>,
    batch: &mut Batch<E>,
) -> Told
    requires seat_of_table { seat.old.turn ≡ id_of table.now.turn }
    requires meaning { HasMeaning seat.old (E.tag by.now) }
    requires batch { ForSome seat.old.tag (λ t. IsBatchFor t seat.old.worker batch.old) }
    requires no_claims { batch.old.claims ≡ [] }
    ensures after { IsAfterAsking seat.old seat.new }
    ensures batch { ForSome seat.new.tag (λ t. IsBatchFor t seat.new.worker batch.new) }
    ensures no_claims { batch.new.claims ≡ [] }
    ensures large { result ≡ Told.TooLarge → ForSome seat.new.tag (IsLarge E.answers) }
{
    let wanted = Wanted {
        most: MOST_CLAIMS,
        below: u64::MAX,
    };
    let told = table.exchange(rt, alloc, seat, batch, wanted);
    match batch.expand(alloc, by, gate) {
        Ok(()) => told,
        Err(_) => {
            table.stop(rt, seat, batch);
            Told::NoMemory
        }
    }
}

/// Rounds, until all rows are filed, or the Err says why they never will be. If there is no goal to claim, others are
/// at work, and the caller asks again.
fn rounds<E: Expand, L: Ledger, T: Gate, R: Wait>(
    rt: &R,
    alloc: Global,
    table: &SharedTable<E, L>,
    by: &E,
    gate: &T,
    seat: &mut TableSeat<E, L>,
    batch: &mut Batch<E>,
) -> Result<(), ExpandFault>
    requires seat_of_table { seat.old.turn ≡ id_of table.now.turn }
    requires meaning { HasMeaning seat.old (E.tag by.now) }
    requires batch { ForSome seat.old.tag (λ t. IsBatchFor t seat.old.worker batch.old) }
    requires no_claims { batch.old.claims ≡ [] }
    ensures after { IsAfterAsking seat.old seat.new }
    ensures large { IfErr result (λ e. e ≡ ExpandFault.TooLarge → ForSome seat.new.tag (IsLarge E.answers)) }
{
    for _ in rt.forever() {
        match round(rt, alloc, table, by, gate, seat, batch) {
            Told::Work => {}
            Told::Again | Told::Many => yield_now(),
            Told::Finished => return Ok(()),
            Told::TooLarge => return Err(ExpandFault::TooLarge),
            Told::NoMemory => return Err(ExpandFault::OutOfMemory),
        }
    }
    unreachable!()
}

/// Ends the batch. All that the caller did was filed at its last holding. If something is left all the same, since its
/// row wasn't held, it is spent, and the table is stopped: nobody is to wait for it.
fn end<E: Expand, L: Ledger, R: Wait>(
    rt: &R,
    table: &SharedTable<E, L>,
    seat: &mut TableSeat<E, L>,
    batch: Batch<E>,
)
    requires seat_of_table { seat.old.turn ≡ id_of table.now.turn }
    ensures { seat.new ≡ seat.old }
{
    let mut batch = batch;
    if !batch.is_empty() {
        table.stop(rt, seat, &mut batch);
    }
    batch.end();
}

/// Works at the table until all its rows are filed, and copies the rows and the history. If they never will be, the Err
/// says why, and the caller waits no longer.
pub(crate) fn finish<E: Expand, L: Ledger, T: Gate, R: Wait>(
    rt: &R,
    alloc: Global,
    table: &SharedTable<E, L>,
    by: &E,
    gate: &T,
    seat: &mut TableSeat<E, L>,
) -> Result<Finished<E::Goal>, ExpandFault>
    requires seat_of_table { seat.old.turn ≡ id_of table.now.turn }
    requires meaning { HasMeaning seat.old (E.tag by.now) }
    ensures after { IsAfterAsking seat.old seat.new }
    ensures complete { IfOk result (IsCompleteFor E.Goal.eq E.answers seat.new) }
    ensures large { IfErr result (λ e. e ≡ ExpandFault.TooLarge → ForSome seat.new.tag (IsLarge E.answers)) }
{
    let mut batch = Batch::new(alloc);
    let worked = rounds(rt, alloc, table, by, gate, seat, &mut batch);
    end(rt, table, seat, batch);
    match worked {
        Ok(()) => Ok(table.read(rt, alloc, seat)?),
        Err(fault) => Err(fault),
    }
}
