ghost use Rattle.std.specs.Prelude.{◌≡◌, ◌<◌, ◌≤◌, ◌+◌, ◌-◌, ◌^◌, IfOk, IfErr, OnOk};
ghost use Rattle.std.specs.Option.{ForSome};
ghost use Rattle.std.specs.Thread.{IsSync, IsSend};
ghost use Rattle.cls_base.specs.Limits.{max_workers};
ghost use Rattle.cls_turn.specs.Seats.{id_of};
ghost use Rattle.cls_table.specs.Tags.{tag_for};
ghost use Rattle.cls_table.specs.Lawful.{IsLarge};
ghost use Rattle.cls_table.specs.Completing.{IsComplete};
ghost use Rattle.cls_workers.specs.Seats.{IsAfterWork, HasMeaning, HasPartsFor};

use crate::work::work;
use cls_base::Gate;
use cls_core::{Expand, Finished};
use cls_table::{ExpandFault, Limits, SharedTable, TableSeat};
use std::alloc::Global;
use std::marker::Brand;
use std::sync::Wait;
use std::sync::ledger::{Blank, Ledger};
use std::thread::{Threads, join};

// The caller works as the worker 1, alone until there are enough free rows for `others` more, which it says. The seat
// is given back with its share.
fn begin<E: Expand, L: Ledger, T: Gate, R: Wait>(
    rt: &R,
    alloc: Global,
    table: &SharedTable<E, L>,
    by: &E,
    gate: &T,
    seat: TableSeat<E, L>,
    others: u32,
) -> (TableSeat<E, L>, bool)
    requires seat_of_table { seat.turn ≡ id_of table.now.turn }
    requires meaning { HasMeaning seat (E.tag by.now) }
    requires worker { ForSome seat.tag (λ t. 1 ≤ t.workers) }
    requires parts { 1 < seat.parts }
    ensures { IsAfterWork seat result.0 }
{
    let mut seat = seat;
    let mine = table.split(&mut seat, 1);
    let (mine, more) = work(rt, alloc, table, by, gate, mine, others);
    table.join(&mut seat, mine);
    (seat, more)
}

// Runs the workers from `next` to `last`, each in a thread of its own if one can be made, and the worker 1 in the
// caller's. The seat is given back with their shares.
fn run_from<E: Expand + Sync, L: Ledger + Send + Sync, T: Gate + Sync, R: Threads + Wait + Sync>(
    rt: &R,
    alloc: Global,
    table: &SharedTable<E, L>,
    by: &E,
    gate: &T,
    seat: TableSeat<E, L>,
    next: u32,
    last: u32,
) -> TableSeat<E, L>
where
    E::Goal: Send,
    requires seat_of_table { seat.turn ≡ id_of table.now.turn }
    requires meaning { HasMeaning seat (E.tag by.now) }
    requires parts { HasPartsFor seat next last }
    requires may_cross { IsSend E.Goal.row × IsSync E.row × IsSync T.row × IsSync R.row }
    ensures { IsAfterWork seat result }
{
    let mut seat = seat;
    if next > last {
        let mine = table.split(&mut seat, 1);
        let (mine, _) = work(rt, alloc, table, by, gate, mine, 0);
        table.join(&mut seat, mine);
        return seat;
    }
    let theirs = table.split(&mut seat, next);
    let (theirs, rest) = join(
        rt,
        move || -> TableSeat<E, L>
            requires seat_of_table { theirs.turn ≡ id_of table.now.turn }
            requires meaning { HasMeaning theirs (E.tag by.now) }
            ensures { IsAfterWork theirs result }
        {
            let (theirs, _) = work(rt, alloc, table, by, gate, theirs, 0);
            theirs
        },
        move || -> TableSeat<E, L>
            requires seat_of_table { seat.turn ≡ id_of table.now.turn }
            requires meaning { HasMeaning seat (E.tag by.now) }
            requires some_left { next ≤ last }
            requires parts { HasPartsFor seat (next + 1) last }
            requires may_cross { IsSend E.Goal.row × IsSync E.row × IsSync T.row × IsSync R.row }
            ensures { IsAfterWork seat result }
        { run_from(rt, alloc, table, by, gate, seat, next + 1, last) },
    );
    let mut rest = rest;
    table.join(&mut rest, theirs);
    rest
}

// Has the closure worked out: by the caller alone, as the worker 1, while there are too few free rows to share them,
// and by all workers together for a while whenever there are enough. The seat is given back with their shares.
fn share_out<E: Expand + Sync, L: Ledger + Send + Sync, T: Gate + Sync, R: Threads + Wait + Sync>(
    rt: &R,
    alloc: Global,
    table: &SharedTable<E, L>,
    by: &E,
    gate: &T,
    seat: TableSeat<E, L>,
    workers: u32,
) -> TableSeat<E, L>
where
    E::Goal: Send,
    requires seat_of_table { seat.turn ≡ id_of table.now.turn }
    requires meaning { HasMeaning seat (E.tag by.now) }
    requires parts { HasPartsFor seat 2 workers }
    requires may_cross { IsSend E.Goal.row × IsSync E.row × IsSync T.row × IsSync R.row }
    ensures { IsAfterWork seat result }
{
    let mut seat = seat;
    for _ in rt.forever() {
        let (rest, more) = begin(rt, alloc, table, by, gate, seat, workers - 1);
        if !more {
            return rest;
        }
        seat = run_from(rt, alloc, table, by, gate, rest, 2, workers);
    }
    unreachable!()
}

// The same as `expand_all`, over any ledger.
fn run<E: Expand + Sync, L: Ledger + Send + Sync, T: Gate + Sync, R: Threads + Wait + Sync>(
    rt: &R,
    alloc: Global,
    by: &E,
    start: E::Goal,
    workers: u32,
    limits: Limits,
    gate: &T,
    blank: Blank,
) -> Result<Finished<E::Goal>, ExpandFault>
where
    E::Goal: Send,
    requires name { blank.name ≡ L.name }
    requires parts { (blank.parts ≡ L.parts) × (blank.parts ≡ workers + 1) }
    requires ready { E.ready (E.tag by.now) start }
    requires one_goal { 0 < limits.goals }
    requires few_workers { workers < 2 ^ 32 - 1 }
    requires some_worker { 0 < workers }
    ensures complete { IfOk result (IsComplete E.Goal.eq E.answers (tag_for (E.tag by.now) start limits workers)) }
    ensures within { OnOk result (IsLarge E.answers (tag_for (E.tag by.now) start limits workers) → ⊥) }
    ensures large { IfErr result (λ e. e ≡ ExpandFault.TooLarge
        → IsLarge E.answers (tag_for (E.tag by.now) start limits workers)) }
{
    let Ok((table, seat)) = SharedTable::<E, L>::start(alloc, by, start, limits, workers, blank)
    else {
        return Err(ExpandFault::OutOfMemory);
    };
    let seat = share_out(rt, alloc, &table, by, gate, seat, workers);
    match table.close(rt, seat) {
        Ok(finished) => Ok(finished),
        Err(unfinished) => unfinished.table.complete(alloc, by),
    }
}

/// The closure of the goal `start`, worked out by at least one worker and at most 64 (`max_workers`).
///
/// The rows are those of a legal complete history from `start`, which names workers from 0 to their number, and each
/// holds the answer of its goal. Each worker claims and files several goals at one holding of the table's lock, and
/// tells the gate of each claim before it works on it. The caller works as the worker 1, alone until there are free
/// rows enough for the others to work beside it. Once all have ended the caller, now as the worker 0, takes the table
/// out and files what is left. `TooLarge` comes if and only if the closure has more goals or more rules than the
/// limits. The only other error is out of memory.
pub fn expand_all<E: Expand + Sync, T: Gate + Sync, R: Threads + Wait + Sync>(
    rt: &R,
    alloc: Global,
    by: &E,
    start: E::Goal,
    workers: u32,
    limits: Limits,
    gate: &T,
) -> Result<Finished<E::Goal>, ExpandFault>
where
    E::Goal: Send,
    requires workers { (0 < workers) × (workers ≤ max_workers) }
    requires limits { (0 < limits.goals) × (0 < limits.rules) }
    requires ready { E.ready (E.tag by.now) start }
    ensures complete { IfOk result (IsComplete E.Goal.eq E.answers (tag_for (E.tag by.now) start limits workers)) }
    ensures within { OnOk result (IsLarge E.answers (tag_for (E.tag by.now) start limits workers) → ⊥) }
    ensures large { IfErr result (λ e. e ≡ ExpandFault.TooLarge
        → IsLarge E.answers (tag_for (E.tag by.now) start limits workers)) }
{
    run::<E, Brand, T, R>(
        rt,
        alloc,
        by,
        start,
        workers,
        limits,
        gate,
        Blank::new(workers as u64 + 1),
    )
}
