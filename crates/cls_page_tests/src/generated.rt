//! The terms that the rules of a book generate, size after size, by the rules alone.
ghost use Rattle.std.specs.Prelude.{◌<◌, length};

use crate::hand_book::HandBook;
use cls_base::{NumberLists, OutOfMemory, RuleBook, RuleRef};
use std::alloc::Global;

/// The most terms of one node and size that are kept. A page is asked for with a smaller pool.
pub(crate) const MOST: usize = 100;

/// The most numbers that the code of a term has: two for each of 64 occurrences.
const LONGEST_CODE: usize = 128;

/// For each size the codes of the terms of each node. If there are too many, the last sizes are missing.
#[derive(Drop)]
pub(crate) struct Generated {
    sizes: Vec<Vec<NumberLists>>,
}

impl Generated {
    /// The terms up to the greatest size, or so many that a pool is passed.
    pub(crate) fn of(
        alloc: Global,
        book: &HandBook,
        costs: &[u32],
        max: u32,
    ) -> Result<Generated, OutOfMemory> {
        let mut made = Generated {
            sizes: Vec::new(alloc),
        };
        let mut held = 0u64;
        for size in 0..=max {
            if held > MOST as u64 {
                return Ok(made);
            }
            let nodes = terms_of_size(alloc, book, costs, &made, size)?;
            held = held.saturating_add(sum(nodes.as_slice()));
            made.sizes.push(nodes)?;
        }
        Ok(made)
    }

    /// The codes of the terms of this size that a node has.
    pub(crate) fn terms(&self, size: u32, node: u32) -> Option<&NumberLists> {
        match self.sizes.get(size as usize) {
            Some(nodes) => nodes.get(node as usize),
            None => None,
        }
    }

    /// How many terms of smaller sizes than this one all nodes have together, with those of this size that the start has.
    pub(crate) fn pooled(&self, size: u32) -> u64 {
        let mut count = number(self.terms(size, 0));
        for smaller in 0..size {
            if let Some(nodes) = self.sizes.get(smaller as usize) {
                count = count.saturating_add(sum(nodes.as_slice()));
            }
        }
        count
    }
}

/// The number of codes, none where there is no list.
fn number(codes: Option<&NumberLists>) -> u64 {
    match codes {
        Some(codes) => codes.len() as u64,
        None => 0,
    }
}

/// The number of codes of all nodes.
fn sum(nodes: &[NumberLists]) -> u64 {
    let mut sum = 0u64;
    for codes in nodes {
        sum = sum.saturating_add(codes.len() as u64);
    }
    sum
}

/// The cost of the component, 1 where the list has none.
fn cost(costs: &[u32], component: u32) -> u32 {
    match costs.get(component as usize) {
        Some(cost) => *cost,
        None => 1,
    }
}

/// What the occurrences of a code cost together.
pub(crate) fn size_of(costs: &[u32], code: &[u32]) -> u32 {
    let mut size = 0u32;
    for occurrence in code.chunks(2) {
        if let Some(component) = occurrence.first() {
            size = size.saturating_add(cost(costs, *component));
        }
    }
    size
}

/// The terms of one size of each node.
fn terms_of_size(
    alloc: Global,
    book: &HandBook,
    costs: &[u32],
    smaller: &Generated,
    size: u32,
) -> Result<Vec<NumberLists>, OutOfMemory> {
    let mut nodes = Vec::new(alloc);
    for node in 0..book.count() {
        nodes.push(terms_of_node(alloc, book, costs, smaller, size, node)?)?;
    }
    Ok(nodes)
}

/// The terms of one size of a node.
fn terms_of_node(
    alloc: Global,
    book: &HandBook,
    costs: &[u32],
    smaller: &Generated,
    size: u32,
    node: u32,
) -> Result<NumberLists, OutOfMemory>
    requires { node < length book.now.nodes.items }
{
    let mut found = NumberLists::new(alloc);
    let rules = book.rules(node);
    for place in 0..rules.len() {
        add_by_rule(alloc, costs, smaller, size, rules.get(place), &mut found)?;
    }
    Ok(found)
}

/// Adds the terms of this size by one rule.
fn add_by_rule(
    alloc: Global,
    costs: &[u32],
    smaller: &Generated,
    size: u32,
    rule: RuleRef<'_>,
    found: &mut NumberLists,
) -> Result<(), OutOfMemory> {
    match rule {
        RuleRef::Head { component, args } => {
            let count = u32::try_from(args.len()).unwrap_or(0);
            let mut code = Vec::from_slice(alloc, &[component, count])?;
            match size.checked_sub(cost(costs, component)) {
                Some(left) => add_with(smaller, args, left, &mut code, found),
                None => Ok(()),
            }
        }
        RuleRef::Any { left, right } => add_applied(alloc, smaller, size, left, right, found),
    }
}

/// Adds each code that goes on from this one with terms of these nodes, of so much size together.
fn add_with(
    smaller: &Generated,
    nodes: &[u32],
    size: u32,
    code: &mut Vec<u32>,
    found: &mut NumberLists,
) -> Result<(), OutOfMemory> {
    let Some((node, others)) = nodes.split_first() else {
        return if size == 0 { add(code, found) } else { Ok(()) };
    };
    let least = if others.is_empty() { size } else { 1 };
    for part in least..=size {
        if let Some(terms) = smaller.terms(part, *node) {
            for place in 0..terms.len() {
                let end = code.len();
                code.extend_from_slice(terms.get(place))?;
                add_with(smaller, others, size - part, code, found)?;
                code.truncate(end);
            }
        }
    }
    Ok(())
}

/// Adds the terms of one node that are applied to a term of another, of so much size together.
fn add_applied(
    alloc: Global,
    smaller: &Generated,
    size: u32,
    left: u32,
    right: u32,
    found: &mut NumberLists,
) -> Result<(), OutOfMemory> {
    for part in 1..size {
        if let Some(functions) = smaller.terms(part, left) {
            if let Some(arguments) = smaller.terms(size - part, right) {
                add_pairs(alloc, functions, arguments, found)?;
            }
        }
    }
    Ok(())
}

/// Adds each of the functions, applied to each of the arguments.
fn add_pairs(
    alloc: Global,
    functions: &NumberLists,
    arguments: &NumberLists,
    found: &mut NumberLists,
) -> Result<(), OutOfMemory> {
    for function in 0..functions.len() {
        for argument in 0..arguments.len() {
            let mut code = Vec::from_slice(alloc, functions.get(function))?;
            if let Some(count) = code.get_mut(1) {
                *count = count.wrapping_add(1);
            }
            code.extend_from_slice(arguments.get(argument))?;
            add(&code, found)?;
        }
    }
    Ok(())
}

/// Adds the code if it is new, isn't too long, and there is room.
fn add(code: &[u32], found: &mut NumberLists) -> Result<(), OutOfMemory> {
    if code.len() > LONGEST_CODE || found.len() > MOST || has(found, code) {
        return Ok(());
    }
    found.push(code)
}

/// Whether the code is one of those.
fn has(codes: &NumberLists, code: &[u32]) -> bool {
    for place in 0..codes.len() {
        if codes.get(place) == code {
            return true;
        }
    }
    false
}
