//! A closure whose goals are numbers: each has one rule, over the two numbers below it in a heap of this size, if both
//! are there.
ghost use Rattle.std.specs.Prelude.{◌≡◌, ◌<◌, IfOk};

use cls_base::{Key, OutOfMemory};
use cls_core::{Answer, Expand, GoalRules};
use std::alloc::Global;
use std::sync::atomic::AtomicU64;
use std::sync::atomic::Ordering::SeqCst;

#[derive(PartialEq, Eq, Hash, Drop, Clone, Copy)]
pub struct Node {
    pub id: u32,
}

impl Key for Node {
    ghost use Rattle.cls_machine_tests.specs.Nodes.{node_is};

    fn copy(&self, _alloc: Global) -> Result<Node, OutOfMemory> {
        Ok(Node { id: self.id })
    }

    ghost exact = { node_is };
}

#[derive(Drop)]
pub struct Heap {
    size: u32,
    asks: AtomicU64,
    // At this call, counted from 1, it runs out of memory.
    fails: u64,
}

impl Heap {
    pub fn new(size: u32, fails: u64) -> Heap
        ensures { result.size ≡ size }
    {
        Heap {
            size,
            asks: AtomicU64::new(1),
            fails,
        }
    }
}

impl Expand for Heap {
    ghost use Rattle.cls_machine_tests.specs.Heaps.{IsHeapAnswer, IsInHeap, one_heap_answer, arguments_in_heap};

    type Goal = Node;

    type Tag = u32;

    ghost tag = { λ h. h.size };

    ghost answers = { IsHeapAnswer };

    ghost ready = { IsInHeap };

    fn expand(&self, alloc: Global, goal: &Node) -> Result<Answer<Node>, OutOfMemory> {
        if self.asks.fetch_add(1, SeqCst) == self.fails {
            return Err(OutOfMemory);
        }
        let mut args = Vec::new(alloc);
        if 2 * goal.id + 2 < self.size {
            args.push(Node {
                id: 2 * goal.id + 1,
            })?;
            args.push(Node {
                id: 2 * goal.id + 2,
            })?;
        }
        let mut rules = GoalRules::new(alloc);
        rules.push_head(goal.id, &mut args)?;
        Ok(Answer::Rules(rules))
    }

    ghost one_answer = { one_heap_answer };

    ghost arguments_ready = { arguments_in_heap };
}
