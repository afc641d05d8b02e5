ghost use Rattle.std.specs.Prelude.{◌≡◌, ◌<◌};
ghost use Rattle.cls_turn.specs.Seats.{id_of};
ghost use Rattle.cls_workers.specs.Seats.{IsAfterWork, HasMeaning};

use crate::heap::{Heap, Node};
use cls_base::OpenGate;
use cls_table::{Batch, Limits, SharedTable, TableSeat, Wanted};
use std::alloc::Global;
use std::marker::Brand;
use std::sync::Wait;
use std::sync::ledger::{Blank, Ledger};
use std::test::Fail;

/// Stands for out of memory.
const NO_MEMORY: u32 = 1_000_000;

// One goal is claimed, and then filed at another holding. At out of memory the table is stopped.
fn work_once<R: Wait, L: Ledger>(
    rt: &R,
    alloc: Global,
    table: &SharedTable<Heap, L>,
    heap: &Heap,
    seat: TableSeat<Heap, L>,
) -> TableSeat<Heap, L>
    requires seat_of_table { seat.turn ≡ id_of table.now.turn }
    requires meaning { HasMeaning seat heap.now.size }
    ensures { IsAfterWork seat result }
{
    let mut seat = seat;
    let mut batch = Batch::new(alloc);
    let one = Wanted {
        most: 1,
        below: u64::MAX,
    };
    table.exchange(rt, alloc, &mut seat, &mut batch, one);
    if batch.expand(alloc, heap, &OpenGate).is_ok() {
        let none = Wanted {
            most: 0,
            below: u64::MAX,
        };
        table.exchange(rt, alloc, &mut seat, &mut batch, none);
    }
    if !batch.is_empty() {
        table.stop(rt, &mut seat, &mut batch);
    }
    batch.end();
    seat
}

// The number of rows that are read of a shared table over a heap of 3, once each goal was claimed and filed.
fn read_in_the_end<R: Wait, L: Ledger>(rt: &R, alloc: Global, blank: Blank) -> u32
    requires name { blank.name ≡ L.name }
    requires parts { blank.parts ≡ L.parts }
    requires two_parts { blank.parts ≡ 2 }
{
    let heap = Heap::new(3, 0);
    let start = Node { id: 0 };
    let limits = Limits { goals: 3, rules: 3 };
    let Ok((table, seat)) = SharedTable::<Heap, L>::start(alloc, &heap, start, limits, 1, blank)
    else {
        return NO_MEMORY;
    };
    let seat = work_once(rt, alloc, &table, &heap, seat);
    let seat = work_once(rt, alloc, &table, &heap, seat);
    let mut seat = work_once(rt, alloc, &table, &heap, seat);
    match table.read(rt, alloc, &mut seat) {
        Ok(done) => done.rows.count(),
        Err(_) => NO_MEMORY,
    }
}

#[test]
fn a_table_is_read_where_all_is_filed(rt: HostRuntime) -> Result<(), Fail> {
    assert!(rt; read_in_the_end::<HostRuntime, Brand>(&rt, rt.alloc(), Blank::new(2)) == 3);
    Ok(())
}
