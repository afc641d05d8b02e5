//! Rule books by hand.
use crate::hand_book::{HandBook, node};
use std::alloc::Global;
use std::test::Fail;

/// For each node its rules: a component with the nodes of its arguments.
pub(crate) type Rules = &'static [&'static [(u32, &'static [u32])]];

/// Node 0 has x, f and g over itself, which are the components 0, 1 and 2.
pub(crate) const TWO_FUNCTIONS: Rules = &[&[(0, &[]), (1, &[0]), (2, &[0])]];

/// Node 0 has component 0 over node 1 and over node 2, which have component 1 each.
pub(crate) const ONE_TERM_TWICE: Rules = &[&[(0, &[1]), (0, &[2])], &[(1, &[])], &[(1, &[])]];

/// Node 0 has component 0 over node 1, which has component 0 over itself alone, and component 1 over node 2, which has
/// component 2 and component 0 over itself.
pub(crate) const TWO_CYCLES: Rules = &[
    &[(0, &[1]), (1, &[2])],
    &[(0, &[1])],
    &[(2, &[]), (0, &[2])],
];

/// Node 0 has component 0 over node 1, which has no rule, and component 1.
pub(crate) const AN_EMPTY_NODE: Rules = &[&[(0, &[1]), (1, &[])], &[]];

/// Node 0 has component 0, and component 0 over itself.
pub(crate) const ONE_CHAIN: Rules = &[&[(0, &[]), (0, &[0])]];

/// Node 0 has component 0 over 32 terms of node 1, which has component 1 over itself and over component 2.
pub(crate) const A_WIDE_RULE: Rules = &[&[(0, &[1; 32])], &[(1, &[1]), (1, &[2])], &[(2, &[])]];

/// The book of these rules.
pub(crate) fn book(alloc: Global, rules: Rules) -> Result<HandBook, Fail> {
    let mut nodes = Vec::new(alloc);
    for heads in rules {
        nodes.push(node(alloc, heads)?)?;
    }
    HandBook::new(nodes)
}
