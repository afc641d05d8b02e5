//! Filters of terms.
use cls_filter::Filter;
use cls_term::{Term, Terms};
use std::alloc::Global;
use std::test::Fail;

/// Over the components x, f and g: what f is applied to isn't an application of f. Terms have state 0, applications of f
/// have state 1, and f has state 2. Both 0 and 1 are accepting.
fn f_at_most_once(alloc: Global) -> Result<Filter, Fail> {
    let mut filter = Filter::new(alloc);
    filter.accept(0);
    filter.accept(1);
    filter.leaf(1, Some(2))?;
    filter.leaf(1, None)?;
    filter.app(Some(2), Some(1), None);
    filter.app(Some(2), None, Some(1));
    filter.other(0);
    filter.other(2);
    Ok(filter)
}

fn applied(alloc: Global, head: u32, argument: Term) -> Result<Term, Fail> {
    let mut args = Terms::new(alloc);
    args.push(argument)?;
    Ok(Term::new(head, args))
}

#[test]
fn f_of_f_of_x_has_no_state(rt: HostRuntime) -> Result<(), Fail> {
    let filter = f_at_most_once(rt.alloc())?;
    let f_of_x = applied(rt.alloc(), 1, Term::new(0, Terms::new(rt.alloc())))?;
    assert_eq!(rt; filter.state(&f_of_x), Some(1));
    assert_eq!(rt; filter.accepts(&f_of_x), true);
    let g_of_f_of_x = applied(rt.alloc(), 2, f_of_x)?;
    assert_eq!(rt; filter.state(&g_of_f_of_x), Some(0));
    let f_of_f_of_x = applied(
        rt.alloc(),
        1,
        applied(rt.alloc(), 1, Term::new(0, Terms::new(rt.alloc())))?,
    )?;
    assert_eq!(rt; filter.state(&f_of_f_of_x), None);
    assert_eq!(rt; filter.accepts(&f_of_f_of_x), false);
    Ok(())
}

#[test]
fn components_behind_one_that_is_taken_out_move_up(rt: HostRuntime) -> Result<(), Fail> {
    let mut filter = f_at_most_once(rt.alloc())?;
    filter.remove(0);
    assert_eq!(rt; filter.leaf_state(0), Some(2));
    filter.remove(0);
    assert_eq!(rt; filter.leaf_state(0), Some(0));
    filter.remove(7);
    assert_eq!(rt; filter.joined_state(2, 0), Some(1));
    Ok(())
}
