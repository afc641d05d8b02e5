ghost use Rattle.std.specs.Prelude.{◌<◌, ◌≤◌};
ghost use Rattle.cls_base.specs.Limits.{max_workers};

use crate::heap::{Heap, Node};
use crate::meeting::Meeting;
use cls_base::OpenGate;
use cls_core::Entry;
use cls_table::Limits;
use cls_workers::expand_all;
use std::alloc::Global;
use std::sync::Wait;
use std::test::Fail;
use std::thread::Threads;

// f : A -> B -> C, a : A and b : B, asked for C. The goal C is 0, with the rule f over A, which is 1, and B, which is 2,
// and these have the rules a and b. The caller files C alone, after which two rows are free. The gate holds the maker of
// claim 1 until claim 2 is made, so two workers hold a claim at once, and it is told of each claim by its maker.
#[test]
fn two_workers_hold_claims_at_once(rt: HostRuntime) -> Result<(), Fail> {
    let gate = Meeting::new(1, 50_000_000);
    let heap = Heap::new(3, 0);
    let limits = Limits { goals: 3, rules: 3 };
    let Ok(done) = expand_all(&rt, rt.alloc(), &heap, Node { id: 0 }, 2, limits, &gate) else {
        panic!(rt; "no answer")
    };
    assert!(rt; done.rows.count() == 3 && done.history.as_slice().len() == 6);
    let (one, two) = (gate.maker(1), gate.maker(2));
    assert!(rt; one != two && (one == 1 || one == 2) && (two == 1 || two == 2));
    let mut claims = 0;
    for entry in done.history.as_slice() {
        if let Entry::Claim { worker, row: _ } = entry {
            assert!(rt; gate.maker(claims) == u64::from(*worker));
            claims = claims.wrapping_add(1);
        }
    }
    assert!(rt; claims == 3 && gate.calls() == 3);
    Ok(())
}

// The number of rows of the closure of 7 goals, None if memory runs out. The expander runs out of it at this call, counted
// from 1.
fn rows_of<R: Threads + Wait + Sync>(rt: &R, alloc: Global, fails: u64, workers: u32) -> Option<u32>
    requires { (0 < workers) × (workers ≤ max_workers) }
{
    let heap = Heap::new(7, fails);
    let limits = Limits { goals: 7, rules: 7 };
    match expand_all(rt, alloc, &heap, Node { id: 0 }, workers, limits, &OpenGate) {
        Ok(done) => Some(done.rows.count()),
        Err(_) => None,
    }
}

#[test]
fn out_of_memory_stops_all(rt: HostRuntime) -> Result<(), Fail> {
    for ask in 1..8 {
        assert!(rt; rows_of(&rt, rt.alloc(), ask, 1).is_none());
        let rows = rows_of(&rt, rt.alloc(), ask, 4);
        assert!(rt; rows == Some(7) || rows.is_none());
    }
    Ok(())
}
