use crate::heap::{Heap, Node};
use cls_base::OpenGate;
use cls_core::Expand;
use cls_expand::{Memo, Store, Stored};
use cls_table::Limits;
use cls_workers::expand_all;
use std::test::Fail;

// The store has the closure, so the second expander, which is out of memory whenever it is asked first, isn't asked.
#[test]
fn a_memo_is_asked_before_its_expander(rt: HostRuntime) -> Result<(), Fail> {
    let alloc = rt.alloc();
    let limits = Limits { goals: 7, rules: 7 };
    let (heap, empty) = (Heap::new(7, 0), Heap::new(7, 1));
    let Ok(done) = expand_all(&rt, alloc, &heap, Node { id: 0 }, 1, limits, &OpenGate) else {
        panic!(rt; "no answer")
    };
    let mut store = Store::new(alloc, &heap);
    store.keep(alloc, done.rows)?;
    let stored = Stored::new(&empty, &store);
    let Ok(again) = expand_all(&rt, alloc, &stored, Node { id: 0 }, 1, limits, &OpenGate) else {
        panic!(rt; "the expander was asked")
    };
    assert!(rt; store.count() == 7 && again.rows.count() == 7);
    assert!(rt; empty.expand(alloc, &Node { id: 0 }).is_err());
    Ok(())
}
