//! The rules of a book by their kinds: the head rules and the pairs of each node, and the pairs that begin with each.
ghost use Rattle.std.specs.Prelude.{◌≡◌, ℕ, ◌<◌, [], ◌∷◌, ◌++◌, length, map, slice_index_or, IfOk, OnOk};
ghost use Rattle.cls_base.specs.Columns.{rule_of};
ghost use Rattle.cls_enum.specs.Candidates.{over};
ghost use Rattle.cls_walk.specs.Counts.{heads_of, pairs_of};
ghost use Rattle.cls_walk.specs.FrameColumns.{head_of, pair_of, AreRules};
ghost use Rattle.cls_walk.specs.FrameRules.{made_by, made_one, mades_at, pairs_at, ArePairsWithin};

use cls_base::{NodeRules, OutOfMemory, RuleBook, RuleRef};
use std::alloc::Global;

/// A component with the nodes of its arguments.
#[derive(Clone, Copy)]
pub(crate) struct Head<'a> {
    pub(crate) component: u32,
    pub(crate) nodes: &'a [u32],
}

/// A term of the left node, applied to one of the right node.
#[derive(Clone, Copy)]
pub(crate) struct Pair {
    pub(crate) left: u32,
    pub(crate) right: u32,
}

/// The node of an argument, and the node that is made.
#[derive(Clone, Copy)]
pub(crate) struct Made {
    pub(crate) argument: u32,
    pub(crate) node: u32,
}

/// The head rules and the pairs of each node, and what the pairs make that begin with each node.
#[derive(Drop)]
pub(crate) struct Rules<'a> {
    pub(crate) heads: Vec<Vec<Head<'a>>>,
    pub(crate) pairs: Vec<Vec<Pair>>,
    pub(crate) makes: Vec<Vec<Made>>,
    // A list to take no head rule of, for nodes past the last one.
    pub(crate) none: Vec<Head<'a>>,
}

impl<'a> Rules<'a> {
    /// No rules.
    pub(crate) fn new(alloc: Global) -> Rules<'a> {
        Rules {
            heads: Vec::new(alloc),
            pairs: Vec::new(alloc),
            makes: Vec::new(alloc),
            none: Vec::new(alloc),
        }
    }

    /// The head rules of a node, none past the last one.
    pub(crate) fn heads_of(&self, node: u32) -> &[Head<'a>]
        ensures { result.now ≡ slice_index_or (map (λ v. v.items) self.now.heads.items) node [] }
    {
        let Some(heads) = self.heads.get(node as usize) else {
            return &self.none[0..0];
        };
        heads.as_slice()
    }

    /// The pairs of a node, none past the last one.
    pub(crate) fn pairs_of(&self, node: u32) -> &[Pair]
        ensures { result.now ≡ slice_index_or (map (λ v. v.items) self.now.pairs.items) node [] }
    {
        pairs_by(self.pairs.as_slice(), node)
    }

    /// What the pairs make that begin with the node.
    pub(crate) fn made_from(&self, node: u32) -> &[Made]
        ensures { result.now ≡ slice_index_or (map (λ v. v.items) self.now.makes.items) node [] }
    {
        match self.makes.get(node as usize) {
            Some(made) => made.as_slice(),
            None => &[],
        }
    }
}

/// The pairs of a node in columns by node, none past the last one.
fn pairs_by(columns: &[Vec<Pair>], node: u32) -> &[Pair]
    ensures { result.now ≡ slice_index_or (map (λ v. v.items) columns.now) node [] }
{
    match columns.get(node as usize) {
        Some(pairs) => pairs.as_slice(),
        None => &[],
    }
}

/// Adds a rule, if it is a head rule.
fn add_head<'a>(heads: &mut Vec<Head<'a>>, rule: RuleRef<'a>) -> Result<(), OutOfMemory>
    ensures { OnOk result
        (map head_of heads.new.items ≡ map head_of heads.old.items ++ heads_of (rule_of rule.entry ∷ [])) }
{
    match rule {
        RuleRef::Head { component, args } => {
            heads.push(Head {
                component,
                nodes: args,
            })?;
            Ok(())
        }
        RuleRef::Any { left: _, right: _ } => Ok(()),
    }
}

/// The head rules among the rules of a node.
fn heads_in<'a>(alloc: Global, rules: &'a NodeRules) -> Result<Vec<Head<'a>>, OutOfMemory>
    ensures { IfOk result (λ heads. map head_of heads.items ≡ heads_of rules.now) }
{
    let mut heads = Vec::with_capacity(alloc, rules.len())?;
    for place in 0..rules.len() {
        let rule = rules.get(place);
        add_head(&mut heads, rule)?;
    }
    Ok(heads)
}

/// Adds a rule, if it is a pair.
fn add_pair(pairs: &mut Vec<Pair>, rule: RuleRef<'_>) -> Result<(), OutOfMemory>
    ensures { OnOk result
        (map pair_of pairs.new.items ≡ map pair_of pairs.old.items ++ pairs_of (rule_of rule.entry ∷ [])) }
{
    match rule {
        RuleRef::Head {
            component: _,
            args: _,
        } => Ok(()),
        RuleRef::Any { left, right } => {
            pairs.push(Pair { left, right })?;
            Ok(())
        }
    }
}

/// The pairs among the rules of a node.
fn pairs_in(alloc: Global, rules: &NodeRules) -> Result<Vec<Pair>, OutOfMemory>
    ensures { IfOk result (λ pairs. map pair_of pairs.items ≡ pairs_of rules.now) }
{
    let mut pairs = Vec::new(alloc);
    for place in 0..rules.len() {
        let rule = rules.get(place);
        add_pair(&mut pairs, rule)?;
    }
    Ok(pairs)
}

/// Adds what a pair makes that begins with the left node, if it is one of the nodes.
fn put_made(makes: &mut Vec<Vec<Made>>, left: u32, made: Made) -> Result<(), OutOfMemory>
    ensures long { OnOk result (length makes.new.items ≡ length makes.old.items) }
    ensures made { OnOk result ((l : ℕ) → l < length makes.old.items
        → mades_at makes.new.items l ≡ mades_at makes.old.items l ++ made_one l made.node (left, made.argument)) }
{
    let place = left as usize;
    if place >= makes.len() {
        return Ok(());
    }
    makes[place].push(made)?;
    Ok(())
}

/// Adds what the pairs of a node make.
fn add_made(makes: &mut Vec<Vec<Made>>, pairs: &[Pair], node: u32) -> Result<(), OutOfMemory>
    ensures long { OnOk result (length makes.new.items ≡ length makes.old.items) }
    ensures made { OnOk result ((l : ℕ) → l < length makes.old.items
        → mades_at makes.new.items l ≡ mades_at makes.old.items l ++ made_by l node (map pair_of pairs.now)) }
{
    for pair in pairs {
        let made = Made {
            argument: pair.right,
            node,
        };
        put_made(makes, pair.left, made)?;
    }
    Ok(())
}

/// What the pairs make that begin with each of so many nodes, where these are the pairs of each.
fn makes_of(alloc: Global, pairs: &[Vec<Pair>], count: u32) -> Result<Vec<Vec<Made>>, OutOfMemory>
    ensures long { IfOk result (λ makes. length makes.items ≡ count) }
    ensures made { IfOk result (λ makes. (l : ℕ) → l < count
        → mades_at makes.items l ≡ over count (λ k. made_by l k (pairs_at pairs.now k))) }
{
    let mut makes = no_makes(alloc, count)?;
    for node in 0..count {
        add_made(&mut makes, pairs_by(pairs, node), node)?;
    }
    Ok(makes)
}

/// Nothing for each of so many nodes.
fn no_makes(alloc: Global, count: u32) -> Result<Vec<Vec<Made>>, OutOfMemory>
    ensures long { IfOk result (λ makes. length makes.items ≡ count) }
    ensures none { IfOk result (λ makes. (l : ℕ) → l < count → mades_at makes.items l ≡ []) }
{
    let mut makes = Vec::with_capacity(alloc, count as usize)?;
    for _node in 0..count {
        makes.push(Vec::new(alloc))?;
    }
    Ok(makes)
}

/// The rules of a book. The nodes of its pairs are nodes of the book.
pub(crate) fn rules_of<'a, B: RuleBook>(
    alloc: Global,
    book: &'a B,
) -> Result<Rules<'a>, OutOfMemory>
    ensures rules { IfOk result (λ rules. AreRules (B.book book.now) rules) }
    ensures within { IfOk result (λ _. ArePairsWithin (B.book book.now)) }
{
    let mut heads = Vec::new(alloc);
    let mut pairs = Vec::new(alloc);
    for node in 0..book.count() {
        let rules = book.rules(node);
        heads.push(heads_in(alloc, rules)?)?;
        pairs.push(pairs_in(alloc, rules)?)?;
    }
    let makes = makes_of(alloc, pairs.as_slice(), book.count())?;
    Ok(Rules {
        heads,
        pairs,
        makes,
        none: Vec::new(alloc),
    })
}
