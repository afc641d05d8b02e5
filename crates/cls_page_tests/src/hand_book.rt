ghost use Rattle.std.specs.Prelude.{◌≡◌, ℕ, ◌<◌, ◌≤◌, ◌^◌, true, map, length, List, IfOk};
ghost use Rattle.cls_page_tests.specs.HandBooks.{are_nodes, all_within};

use cls_base::{NodeRules, OutOfMemory, RuleBook, RuleRef};
use std::alloc::Global;
use std::test::Fail;

/// A rule book that a test makes: the rules of each node.
#[derive(Drop)]
pub(crate) struct HandBook {
    pub(crate) nodes: Vec<NodeRules>,
    ghost some: { 1 ≤ length nodes.items },
    ghost few: { length nodes.items < 2 ^ 32 },
    ghost within: { all_within (length nodes.items) nodes.items ≡ true },
}

impl HandBook {
    /// The book of these rules, if there is a node and each argument is one.
    pub(crate) fn new(nodes: Vec<NodeRules>) -> Result<HandBook, Fail> {
        let count = nodes.len();
        if count == 0 || count > u32::MAX as usize || !all_within(count as u32, nodes.as_slice()) {
            return Err("no node, or an argument that is none".into());
        }
        Ok(HandBook { nodes })
    }
}

impl RuleBook for HandBook {
    ghost book = { λ b. b.nodes.items };

    fn count(&self) -> u32 {
        self.nodes.len() as u32
    }

    fn rules(&self, i: u32) -> &NodeRules {
        &self.nodes[i as usize]
    }
}

fn are_nodes(count: u32, args: &[u32]) -> bool
    ensures { result ≡ are_nodes count args.now }
{
    match args.split_first() {
        None => true,
        Some((arg, others)) => *arg < count && are_nodes(count, others),
    }
}

fn all_within(count: u32, nodes: &[NodeRules]) -> bool
    ensures { result ≡ all_within count nodes.now }
{
    match nodes.split_first() {
        None => true,
        Some((node, others)) => are_nodes(count, node.arguments()) && all_within(count, others),
    }
}

/// A node whose rules have these components, each applied to terms of these nodes.
pub(crate) fn node(alloc: Global, heads: &[(u32, &[u32])]) -> Result<NodeRules, OutOfMemory> {
    let mut rules = NodeRules::new(alloc);
    for (component, args) in heads {
        rules.push(RuleRef::Head {
            component: *component,
            args,
        })?;
    }
    Ok(rules)
}
