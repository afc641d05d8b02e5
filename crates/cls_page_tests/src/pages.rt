use crate::books::{
    A_WIDE_RULE, AN_EMPTY_NODE, ONE_CHAIN, ONE_TERM_TWICE, Rules, TWO_CYCLES, TWO_FUNCTIONS, book,
};
use crate::hand_book::HandBook;
use crate::query::{Codes, Query, codes_of, paged};
use cls_enum::PageFault;
use std::alloc::Global;
use std::test::Fail;

/// A book with the costs of its components, the greatest size and the number of terms that are asked for, and the codes of
/// the terms that are listed, one after another.
type Listing = (Rules, &'static [u32], u32, u32, &'static [u32]);

/// Listings at the end of which no term follows.
const WHOLE: [Listing; 5] = [
    // 0(1) by two rules
    (ONE_TERM_TWICE, &[], 2, 9, &[0, 1, 1, 0]),
    // 1(2), 1(0(2)) and 1(0(0(2))), by the other cycle
    (
        TWO_CYCLES,
        &[],
        4,
        9,
        &[1, 1, 2, 0, 1, 1, 0, 1, 2, 0, 1, 1, 0, 1, 0, 1, 2, 0],
    ),
    (AN_EMPTY_NODE, &[], 9, 9, &[1, 0]),
    // x of size 1, g(x) of 3, f(x) of 4, g(g(x)) of 5
    (
        TWO_FUNCTIONS,
        &[1, 3, 2],
        5,
        9,
        &[0, 0, 2, 1, 0, 0, 1, 1, 0, 0, 2, 1, 2, 1, 0, 0],
    ),
    // each of 32 arguments has two occurrences or more
    (A_WIDE_RULE, &[], 1024, 9, &[]),
];

/// f(f(x)), f(g(x)) and g(f(x)) of size 3 stand behind x, f(x) and g(x), and g(g(x)) follows.
const SIX: Listing = (
    TWO_FUNCTIONS,
    &[],
    3,
    6,
    &[
        0, 0, 1, 1, 0, 0, 2, 1, 0, 0, 1, 1, 1, 1, 0, 0, 1, 1, 2, 1, 0, 0, 2, 1, 1, 1, 0, 0,
    ],
);

/// The first page of the book.
fn first_page(
    alloc: Global,
    book: &HandBook,
    costs: &[u32],
    max: u32,
    take: u32,
) -> Result<Codes, PageFault> {
    let query = Query {
        costs,
        max: max.min(1024),
        take: take.max(1),
        pool: 1_000_000,
    };
    codes_of(alloc, &paged(alloc, book, &query, None)?)
}

/// Whether these are the codes, and whether more follow or not.
fn is_listed(alloc: Global, listing: Listing, follows: bool) -> Result<bool, Fail> {
    let (rules, costs, max, take, wanted) = listing;
    let book = book(alloc, rules)?;
    let (codes, more) = first_page(alloc, &book, costs, max, take)?;
    Ok(codes.as_slice() == wanted && more == follows)
}

#[test]
fn terms_are_listed_once_by_size_and_code(rt: HostRuntime) -> Result<(), Fail> {
    for listing in WHOLE {
        assert!(rt; is_listed(rt.alloc(), listing, false)?);
    }
    assert!(rt; is_listed(rt.alloc(), SIX, true)?);
    Ok(())
}

/// How many numbers the codes of the chain's terms have.
fn numbers_of_chain(alloc: Global) -> Result<usize, Fail> {
    let book = book(alloc, ONE_CHAIN)?;
    let (codes, _) = first_page(alloc, &book, &[], 1024, 100)?;
    Ok(codes.len())
}

#[test]
fn a_term_has_64_occurrences_at_most(rt: HostRuntime) -> Result<(), Fail> {
    // the code of a term has two numbers for each occurrence, and 1 + 2 + .. + 64 is 2,080
    assert!(rt; numbers_of_chain(rt.alloc())? == 4160);
    Ok(())
}
