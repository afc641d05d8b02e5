//! Pages of a filtered rule book.
use crate::books::{TWO_FUNCTIONS, book};
use crate::query::{codes_of, positive};
use cls_base::{OutOfMemory, RuleBook};
use cls_filter::Filter;
use cls_filtered::{FilterFault, FilteredBook, filtered};
use cls_walk::page;
use std::alloc::Global;
use std::test::Fail;

/// Over x, f and g, which are 0, 1 and 2: f isn't applied to an application of f. Such an application has state 1, f has
/// state 2, and all else has state 0. Both 0 and 1 are accepting.
fn f_at_most_once(alloc: Global) -> Result<Filter, OutOfMemory> {
    let mut filter = Filter::new(alloc);
    filter.accept(0);
    filter.accept(1);
    filter.leaf(1, Some(2))?;
    filter.app(Some(2), Some(1), None);
    filter.app(Some(2), None, Some(1));
    filter.other(0);
    Ok(filter)
}

/// The terms of x, f and g that it accepts.
fn accepted(alloc: Global, limit: u32) -> Result<Result<FilteredBook, FilterFault>, Fail> {
    let book = book(alloc, TWO_FUNCTIONS)?;
    let filter = f_at_most_once(alloc)?;
    Ok(filtered(alloc, &book, &filter, limit))
}

#[test]
fn a_filtered_book_has_ten_rules(rt: HostRuntime) -> Result<(), Fail> {
    let Ok(whole) = accepted(rt.alloc(), 10)? else {
        return Err("ten rules are too many".into());
    };
    // The start, x and g(e) with state 0, f(e) with state 1, f with state 2, g with state 0.
    assert_eq!(rt; whole.count(), 5);
    assert_eq!(rt; whole.rules(0).len(), 4);
    let Err(fault) = accepted(rt.alloc(), 9)? else {
        return Err("nine rules are enough".into());
    };
    assert_eq!(rt; fault, FilterFault::TooManyRules);
    Ok(())
}

#[test]
fn what_a_filter_accepts_is_listed(rt: HostRuntime) -> Result<(), Fail> {
    let Ok(whole) = accepted(rt.alloc(), 100)? else {
        return Err("not made".into());
    };
    let costs = positive(rt.alloc(), &[])?;
    let Ok(page) = page(rt.alloc(), &whole, &costs, None, 3, 9, 1000) else {
        return Err("not listed".into());
    };
    let Ok((codes, more)) = codes_of(rt.alloc(), &page) else {
        return Err("no codes".into());
    };
    // x, f(x), g(x), f(g(x)), g(f(x)), g(g(x))
    let wanted = [
        0, 0, 1, 1, 0, 0, 2, 1, 0, 0, 1, 1, 2, 1, 0, 0, 2, 1, 1, 1, 0, 0, 2, 1, 2, 1, 0, 0,
    ];
    assert_eq!(rt; codes.as_slice(), wanted.as_slice());
    assert_eq!(rt; more, false);
    Ok(())
}
