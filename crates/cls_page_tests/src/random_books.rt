//! Rule books by chance, the same ones in each run.
ghost use Rattle.std.specs.Prelude.{◌≤◌, ◌<◌};

use crate::hand_book::HandBook;
use cls_base::{NodeRules, OutOfMemory, RuleRef};
use std::alloc::Global;
use std::test::Fail;

/// A linear congruential generator.
#[derive(Drop)]
pub(crate) struct Random {
    state: u64,
}

impl Random {
    pub(crate) fn new(seed: u64) -> Random {
        Random { state: seed }
    }

    /// The next number, of those below the bound.
    pub(crate) fn below(&mut self, bound: u32) -> u32
        requires { 1 ≤ bound }
        ensures { result < bound }
    {
        self.state = self
            .state
            .wrapping_mul(6_364_136_223_846_793_005)
            .wrapping_add(1_442_695_040_888_963_407);
        ((self.state >> 33) % u64::from(bound)) as u32
    }
}

/// Adds a rule of one of four components, over at most two terms of nodes.
fn add_head(
    alloc: Global,
    random: &mut Random,
    count: u32,
    rules: &mut NodeRules,
) -> Result<(), OutOfMemory>
    requires { 1 ≤ count }
{
    let component = random.below(4);
    let mut args = Vec::new(alloc);
    for _arg in 0..random.below(3) {
        args.push(random.below(count))?;
    }
    rules.push(RuleRef::Head {
        component,
        args: args.as_slice(),
    })
}

/// Adds, in one of four cases, a pair of this node and another one.
fn add_pair(
    random: &mut Random,
    left: u32,
    count: u32,
    rules: &mut NodeRules,
) -> Result<(), OutOfMemory>
    requires { 1 ≤ count }
{
    let right = random.below(count);
    if random.below(4) > 0 {
        return Ok(());
    }
    rules.push(RuleRef::Any { left, right })
}

/// At most four head rules, in one of four nodes a pair of the node itself and another one, and in one of four a pair of
/// any nodes.
fn rules(
    alloc: Global,
    random: &mut Random,
    node: u32,
    count: u32,
) -> Result<NodeRules, OutOfMemory>
    requires { 1 ≤ count }
{
    let mut rules = NodeRules::new(alloc);
    for _rule in 0..1 + random.below(4) {
        add_head(alloc, random, count, &mut rules)?;
    }
    add_pair(random, node, count, &mut rules)?;
    let left = random.below(count);
    add_pair(random, left, count, &mut rules)?;
    Ok(rules)
}

/// A book of at most three nodes.
pub(crate) fn random_book(alloc: Global, random: &mut Random) -> Result<HandBook, Fail> {
    let count = 1 + random.below(3);
    let mut nodes = Vec::new(alloc);
    for node in 0..count {
        nodes.push(rules(alloc, random, node, count)?)?;
    }
    HandBook::new(nodes)
}
