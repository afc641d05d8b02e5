//! Callers who ask for goal 0 of a heap at one table, each from a thread of its own, and the closures of two goals of a
//! heap out of the rows of their root.
ghost use Rattle.std.specs.Prelude.{◌≡◌, ◌<◌, ◌≤◌, ◌+◌, ◌-◌, Bool, IfOk, length};
ghost use Rattle.std.specs.Option.{ForSome};
ghost use Rattle.cls_turn.specs.Seats.{id_of};
ghost use Rattle.cls_base.specs.Limits.{max_workers};
ghost use Rattle.cls_callers.specs.Asking.{IsCaller};

use crate::heap::{Heap, Node};
use crate::meeting::Meeting;
use cls_base::{Gate, Goals, OpenGate, OutOfMemory};
use cls_callers::{AskGoal, Asked, AskedClosures, Callers};
use cls_core::{Entry, History, Rows};
use cls_table::{ExpandFault, Limits, TableSeat};
use cls_workers::expand_all;
use std::alloc::Global;
use std::marker::{Brand, Model};
use std::sync::Wait;
use std::sync::ledger::{Blank, Ledger};
use std::test::Fail;
use std::thread::{Threads, for_each_mut};

/// What each caller is to get: so many rows, which are a whole heap, or this fault.
#[derive(Drop, Clone, Copy)]
enum Due {
    Rows(u32),
    Fault(ExpandFault),
}

// Whether the rows are a heap of this size: found breadth first, row number i is that of goal i.
fn is_heap(rows: &Rows<Node>, size: u32) -> bool {
    for row in 0..rows.count() {
        if rows.goal(row).id != row || rows.answer(row).rule_count() != 1 {
            return false;
        }
    }
    rows.count() == size
}

// Whether the rows are those of these goals, in their order.
fn are_rows_of(rows: &Rows<Node>, ids: &[u32]) -> bool {
    for row in 0..rows.count() {
        if ids.get(row as usize) != Some(&rows.goal(row).id) {
            return false;
        }
    }
    rows.count() as usize == ids.len()
}

fn is_due(answer: Result<Rows<Node>, ExpandFault>, due: Due) -> bool {
    match (answer, due) {
        (Ok(rows), Due::Rows(size)) => is_heap(&rows, size),
        (Err(fault), Due::Fault(awaited)) => fault == awaited,
        _ => false,
    }
}

/// A caller with its seat, what is due to it, and whether it got that. It is seen as whether it did.
#[derive(Drop)]
struct Caller<'a, 'h, L: Ledger> {
    table: &'a Callers<'h, Heap, L>,
    asked: &'a Asked<'h, Heap>,
    seat: TableSeat<Asked<'h, Heap>, L>,
    due: Due,
    got: bool,
}

impl<'a, 'h, L: Ledger> Model for Caller<'a, 'h, L> {
    ghost Value = { Bool };

    ghost view = { λ c. c.got };

    ghost invariant = { λ c. (c.seat.turn ≡ id_of c.table.now.table.turn) × IsCaller c.asked.now c.seat };
}

impl<'a, 'h, L: Ledger> Caller<'a, 'h, L> {
    // The caller with this number, whose seat has one part of the given one's.
    fn new(
        table: &'a Callers<'h, Heap, L>,
        asked: &'a Asked<'h, Heap>,
        seat: &mut TableSeat<Asked<'h, Heap>, L>,
        number: u32,
        due: Due,
    ) -> Caller<'a, 'h, L>
        requires seat_of_table { seat.old.turn ≡ id_of table.now.table.turn }
        requires caller { IsCaller asked.now seat.old }
        requires parts { 1 < seat.old.parts }
        requires number { ForSome seat.old.tag (λ t. number ≤ t.workers) }
        ensures { seat.new ≡ record seat.old { parts = seat.old.parts - 1 } }
    {
        let own = table.split(seat, number);
        Caller {
            table,
            asked,
            seat: own,
            due,
            got: false,
        }
    }

    fn ask<T: Gate, R: Wait>(&mut self, rt: &R, alloc: Global, gate: &T) {
        // For the prover: some goal is asked.
        self.asked.facts();
        let answer = self
            .table
            .ask(rt, alloc, &mut self.seat, self.asked, 1, gate);
        self.got = is_due(answer, self.due);
    }
}

fn all_got<L: Ledger>(callers: &[Caller<L>]) -> bool {
    for caller in callers {
        if !caller.got {
            return false;
        }
    }
    true
}

// The callers with the numbers from 1 to `last` ask, each in a thread of its own if that can be made. It says whether
// each got what is due. Their parts of the ledger end with them.
fn ask_each<'a, 'h, T: Gate + Sync, L: Ledger + Send + Sync, R: Threads + Wait + Sync>(
    rt: &R,
    alloc: Global,
    table: &'a Callers<'h, Heap, L>,
    asked: &'a Asked<'h, Heap>,
    gate: &T,
    seat: &mut TableSeat<Asked<'h, Heap>, L>,
    due: Due,
    last: u32,
) -> bool
    requires seat_of_table { seat.old.turn ≡ id_of table.now.table.turn }
    requires caller { IsCaller asked.now seat.old }
    requires parts { last < seat.old.parts }
    requires numbers { ForSome seat.old.tag (λ t. last ≤ t.workers) }
    requires some { 0 < last }
    ensures turn { seat.new.turn ≡ seat.old.turn }
    ensures tag { seat.new.tag ≡ seat.old.tag }
    ensures parts { seat.new.parts + last ≡ seat.old.parts }
{
    let mut callers = Vec::new(alloc);
    for number in 0..last {
        let caller = Caller::new(table, asked, seat, number + 1, due);
        // One for which there is no memory doesn't ask.
        let _ = callers.push(caller);
    }
    for_each_mut(
        rt,
        callers.as_mut_slice(),
        last as usize,
        &|_, caller| { caller.ask(rt, alloc, gate) },
    );
    callers.len() == last as usize && all_got(callers.as_slice())
}

// The heap, whose goal 0 is asked.
fn one_asked(alloc: Global, heap: &Heap) -> Result<Asked<'_, Heap>, OutOfMemory>
    requires { (0 < heap.now.size) × (heap.now.size < 100000) }
{
    let nodes = Vec::from_array(alloc, [Node { id: 0 }])?;
    let goals = Goals::new(nodes);
    Ok(Asked::new(heap, goals))
}

// The heap, whose goals 0 and 1 are asked.
fn two_asked(alloc: Global, heap: &Heap) -> Result<Asked<'_, Heap>, OutOfMemory>
    requires { (1 < heap.now.size) × (heap.now.size < 100000) }
    ensures { IfOk result (λ asked. length asked.goals ≡ 2) }
{
    let nodes = Vec::from_array(alloc, [Node { id: 0 }, Node { id: 1 }])?;
    let goals = Goals::new(nodes);
    Ok(Asked::new(heap, goals))
}

// So many callers ask together at a table with these limits, and one more once they have their answers. The history, if
// it is complete, and whether each caller got what is due.
fn ask_together<T: Gate + Sync, L: Ledger + Send + Sync, R: Threads + Wait + Sync>(
    rt: &R,
    alloc: Global,
    heap: &Heap,
    gate: &T,
    due: Due,
    callers: u32,
    limits: Limits,
    blank: Blank,
) -> (Option<History>, bool)
    requires name { blank.name ≡ L.name }
    requires parts { (blank.parts ≡ L.parts) × (blank.parts ≡ callers + 2) }
    requires size { (0 < heap.now.size) × (heap.now.size < 100000) }
    requires callers { (0 < callers) × (callers ≤ max_workers) }
    requires limits { (0 < limits.goals) × (0 < limits.rules) }
{
    let Ok(asked) = one_asked(alloc, heap) else {
        return (None, false);
    };
    let last = callers + 1;
    let Ok((table, seat)) = Callers::<Heap, L>::start(alloc, &asked, limits, last, blank) else {
        return (None, false);
    };
    let mut seat = seat;
    let each = ask_each(rt, alloc, &table, &asked, gate, &mut seat, due, callers);
    let mut late = Caller::new(&table, &asked, &mut seat, last, due);
    late.ask(rt, alloc, gate);
    let all = each && late.got;
    drop(late);
    match table.close(rt, seat) {
        Ok(finished) => (Some(finished.history), all),
        Err(_) => (None, all),
    }
}

// f : A -> B -> C, a : A and b : B, and C is asked. Claim 0 is that of the root and claim 1 that of C. The gate holds
// the maker of claim 2 until claim 3 is made, so the two callers hold A and B at once. The caller that comes when they
// are done claims nothing.
#[test]
fn two_callers_share_the_work(rt: HostRuntime) -> Result<(), Fail> {
    let gate = Meeting::new(2, 50_000_000);
    let heap = Heap::new(3, 0);
    let (history, all) = ask_together::<Meeting, Brand, HostRuntime>(
        &rt,
        rt.alloc(),
        &heap,
        &gate,
        Due::Rows(3),
        2,
        Limits { goals: 4, rules: 4 },
        Blank::new(4),
    );
    assert!(rt; all);
    let Some(history) = history else {
        panic!(rt; "some row isn't filed")
    };
    let mut claims = 0;
    for entry in history.as_slice() {
        if let Entry::Claim { worker, row: _ } = entry {
            assert!(rt; gate.maker(claims) == u64::from(*worker));
            claims = claims.wrapping_add(1);
        }
    }
    assert!(rt; claims == 4 && gate.calls() == 4);
    let (two, three) = (gate.maker(2), gate.maker(3));
    assert!(rt; two != three && (two == 1 || two == 2) && (three == 1 || three == 2));
    Ok(())
}

#[test]
fn many_callers_get_a_large_closure(rt: HostRuntime) -> Result<(), Fail> {
    let heap = Heap::new(20_001, 0);
    let limits = Limits {
        goals: 20_002,
        rules: 20_002,
    };
    let (history, all) = ask_together::<OpenGate, Brand, HostRuntime>(
        &rt,
        rt.alloc(),
        &heap,
        &OpenGate,
        Due::Rows(20_001),
        64,
        limits,
        Blank::new(66),
    );
    assert!(rt; all);
    let Some(history) = history else {
        panic!(rt; "some row isn't filed")
    };
    assert!(rt; history.as_slice().len() == 40_004);
    Ok(())
}

// The root and the three goals have four rules. The last caller finds the table marked.
#[test]
fn each_caller_learns_that_the_closure_is_too_large(rt: HostRuntime) -> Result<(), Fail> {
    let heap = Heap::new(3, 0);
    let due = Due::Fault(ExpandFault::TooLarge);
    let (history, all) = ask_together::<OpenGate, Brand, HostRuntime>(
        &rt,
        rt.alloc(),
        &heap,
        &OpenGate,
        due,
        2,
        Limits { goals: 3, rules: 3 },
        Blank::new(4),
    );
    assert!(rt; all && history.is_none());
    Ok(())
}

// The expander runs out of memory at each of its calls in turn, whichever caller makes it. All callers are told. The
// last one finds the table stopped.
#[test]
fn each_caller_learns_that_there_is_no_memory(rt: HostRuntime) -> Result<(), Fail> {
    let due = Due::Fault(ExpandFault::OutOfMemory);
    for ask in 1..8 {
        let heap = Heap::new(7, ask);
        let (history, all) = ask_together::<OpenGate, Brand, HostRuntime>(
            &rt,
            rt.alloc(),
            &heap,
            &OpenGate,
            due,
            4,
            Limits { goals: 8, rules: 8 },
            Blank::new(6),
        );
        assert!(rt; all && history.is_none());
    }
    Ok(())
}

// Goal 1 and those below it are in both closures. The root has two rules.
#[test]
fn closures_are_taken_out_of_that_of_their_root(rt: HostRuntime) -> Result<(), Fail> {
    let alloc = rt.alloc();
    let heap = Heap::new(7, 0);
    let asked = two_asked(alloc, &heap)?;
    // For the prover: the asked goals can be worked on.
    asked.facts();
    let limits = Limits { goals: 8, rules: 9 };
    let Ok(done) = expand_all(&rt, alloc, &asked, AskGoal::Root, 1, limits, &OpenGate) else {
        panic!(rt; "no answer")
    };
    assert!(rt; done.rows.count() == 8);
    let closures = AskedClosures::new(alloc, &asked, done.rows)?;
    let first = closures.get(alloc, 1)?;
    assert!(rt; is_heap(&first, 7));
    let second = closures.get(alloc, 2)?;
    assert!(rt; are_rows_of(&second, &[1, 3, 4]));
    Ok(())
}
