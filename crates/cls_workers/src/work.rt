ghost use Rattle.std.specs.Prelude.{◌≡◌, []};
ghost use Rattle.std.specs.Option.{ForSome};
ghost use Rattle.cls_turn.specs.Seats.{id_of};
ghost use Rattle.cls_table.specs.Batches.{IsBatchFor};
ghost use Rattle.cls_workers.specs.Seats.{HasMeaning, IsAfterWork};

use cls_base::Gate;
use cls_core::Expand;
use cls_table::{Batch, SharedTable, TableSeat, Told, Wanted};
use std::alloc::Global;
use std::sync::Wait;
use std::sync::ledger::Ledger;
use std::thread::yield_now;

/// How many goals a worker claims at one holding at most. With fewer the workers wait for the lock. With more one
/// worker holds goals that others could do.
const MOST_CLAIMS: u32 = 8;

/// How often in a row a worker finds no goal to claim before it gives its seat back. It asks again since others may be
/// about to file rows that bring goals, and not for long since each asking takes the lock from those that have work.
/// Once all have given their seats back the caller goes on alone.
const MOST_WAITS: u32 = 30;

/// So many free rows are enough to start one other worker: one for each of the two. Several are started at this many
/// times the sixth power of their number, since each costs a thread, and they wait for one another where a row is done
/// quickly.
const ROWS_FOR_ONE: u64 = 2;

/// So many free rows are enough to start any number of workers: 64 workers, the greatest number, then find 64 rows
/// each.
const ROWS_FOR_ANY: u64 = 4_096;

/// From so many free rows on the other workers are worth starting. It is more than there can be if there are none.
fn rows_for(others: u32) -> u64 {
    if others == 0 {
        return u64::MAX;
    }
    let rows = u64::from(others)
        .saturating_pow(6)
        .saturating_mul(ROWS_FOR_ONE);
    rows.min(ROWS_FOR_ANY)
}

/// One holding of the table, and the work on the goals that were claimed at it. A worker that runs out of memory stops
/// the table. The seat is given back, and what the worker was told.
fn round<E: Expand, L: Ledger, T: Gate, R: Wait>(
    rt: &R,
    alloc: Global,
    table: &SharedTable<E, L>,
    by: &E,
    gate: &T,
    seat: TableSeat<E, L>,
    batch: &mut Batch<E>,
    wanted: Wanted,
) -> (TableSeat<E, L>, Told)
    requires seat_of_table { seat.turn ≡ id_of table.now.turn }
    requires meaning { HasMeaning seat (E.tag by.now) }
    requires batch { ForSome seat.tag (λ t. IsBatchFor t seat.worker batch.old) }
    requires no_claims { batch.old.claims ≡ [] }
    ensures after { IsAfterWork seat result.0 }
    ensures batch { ForSome result.0.tag (λ t. IsBatchFor t result.0.worker batch.new) }
    ensures no_claims { batch.new.claims ≡ [] }
{
    let mut seat = seat;
    let told = table.exchange(rt, alloc, &mut seat, batch, wanted);
    match batch.expand(alloc, by, gate) {
        Ok(()) => (seat, told),
        Err(_) => {
            table.stop(rt, &mut seat, batch);
            (seat, Told::NoMemory)
        }
    }
}

/// Rounds, until nothing is left to do, there was no goal too often in a row, or there are enough free rows for
/// `others` more workers, which it says. It leaves those rows free. The seat is given back.
fn rounds<E: Expand, L: Ledger, T: Gate, R: Wait>(
    rt: &R,
    alloc: Global,
    table: &SharedTable<E, L>,
    by: &E,
    gate: &T,
    seat: TableSeat<E, L>,
    batch: &mut Batch<E>,
    others: u32,
) -> (TableSeat<E, L>, bool)
    requires seat_of_table { seat.turn ≡ id_of table.now.turn }
    requires meaning { HasMeaning seat (E.tag by.now) }
    requires batch { ForSome seat.tag (λ t. IsBatchFor t seat.worker batch.old) }
    requires no_claims { batch.old.claims ≡ [] }
    ensures after { IsAfterWork seat result.0 }
    ensures batch { ForSome result.0.tag (λ t. IsBatchFor t result.0.worker batch.new) }
    ensures no_claims { batch.new.claims ≡ [] }
{
    let wanted = Wanted {
        most: MOST_CLAIMS,
        below: rows_for(others),
    };
    let mut seat = seat;
    let mut waits = 0;
    for _ in rt.forever() {
        let (back, told) = round(rt, alloc, table, by, gate, seat, batch, wanted);
        seat = back;
        match told {
            Told::Work => waits = 0,
            Told::Many => return (seat, true),
            Told::Again => {
                waits += 1;
                yield_now();
            }
            Told::Finished | Told::TooLarge | Told::NoMemory => return (seat, false),
        }
        if waits == MOST_WAITS {
            return (seat, false);
        }
    }
    unreachable!()
}

/// Files what the worker has done, and ends its batch.
fn hand_in<E: Expand, L: Ledger, R: Wait>(
    rt: &R,
    alloc: Global,
    table: &SharedTable<E, L>,
    seat: &mut TableSeat<E, L>,
    batch: Batch<E>,
)
    requires seat_of_table { seat.old.turn ≡ id_of table.now.turn }
    requires batch { ForSome seat.old.tag (λ t. IsBatchFor t seat.old.worker batch) }
    requires no_claims { batch.claims ≡ [] }
    ensures { seat.new ≡ seat.old }
{
    let mut batch = batch;
    for _ in rt.forever() {
        if batch.is_empty() {
            batch.end();
            return;
        }
        let nothing = Wanted {
            most: 0,
            below: u64::MAX,
        };
        table.exchange(rt, alloc, seat, &mut batch, nothing);
    }
    unreachable!()
}

/// Works: claims goals, works on them and files them. It ends where nothing is left to do, where there was no goal too
/// often in a row, or where there are enough free rows for `others` more workers, which it says. The seat is given
/// back, with the claims that the worker made, and all that it has done is filed.
pub(crate) fn work<E: Expand, L: Ledger, T: Gate, R: Wait>(
    rt: &R,
    alloc: Global,
    table: &SharedTable<E, L>,
    by: &E,
    gate: &T,
    seat: TableSeat<E, L>,
    others: u32,
) -> (TableSeat<E, L>, bool)
    requires seat_of_table { seat.turn ≡ id_of table.now.turn }
    requires meaning { HasMeaning seat (E.tag by.now) }
    ensures { IsAfterWork seat result.0 }
{
    let mut batch = Batch::new(alloc);
    let (mut seat, more) = rounds(rt, alloc, table, by, gate, seat, &mut batch, others);
    hand_in(rt, alloc, table, &mut seat, batch);
    (seat, more)
}
