ghost use Rattle.std.specs.Prelude.{◌≡◌, ℕ, List, ◌<◌, ◌^◌, ◌↔◌, IfOk, IsTrue, length, slice_index};
ghost use Rattle.cls_base.specs.declared.rule.Rule.{Rule};
ghost use Rattle.cls_base.specs.Columns.{rule_of as referred_rule};
ghost use Rattle.cls_term.specs.Costs.{cost_of};
ghost use Rattle.cls_enum.specs.Plans.{IsBarren, AllReady, AreReady, AreFree, IsReady, book_of, nodes_of, rule_of};
ghost use Rattle.cls_enum.specs.Plans.{rules_of};

use cls_base::limits::MAX_TERM_LENGTH;
use cls_base::{NodeRules, Numbers, OutOfMemory, RuleBook, RuleRef};
use std::alloc::Global;
use std::marker::Model;

/// A place for an argument: the node of its terms, and for each rest of the size how many occurrences the terms from
/// here on have together at least, or one more than a term may have if there are none.
#[derive(Drop)]
pub(crate) struct Place {
    pub(crate) node: u32,
    pub(crate) least: Vec<u8>,
}

/// A rule, with what shortens the search for its terms.
#[derive(Drop)]
pub(crate) enum Plan {
    /// A component and its cost, with the places of its arguments.
    Head(u32, u32, Vec<Place>),
    /// The node of the function, with the place of the argument.
    Any(u32, Vec<Place>),
}

/// Whether terms at these places can't complete a term with so many occurrences to one that is short enough.
pub(crate) fn is_barren(places: &[Place], rest: u32, occurrences: u64) -> bool
    requires { occurrences < 2 ^ 40 }
    ensures { IsTrue result ↔ IsBarren places.now rest occurrences }
{
    match places.first() {
        None => rest > 0 || occurrences > MAX_TERM_LENGTH,
        Some(place) => occurrences + least_at(place, rest) > MAX_TERM_LENGTH,
    }
}

fn least_at(place: &Place, rest: u32) -> u64
    ensures least { result ≡ slice_index place.now.least.items rest }
    ensures small { result < 256 }
{
    u64::from(place.least.get(rest as usize).copied().unwrap_or(0))
}

/// The plans of a node, seen as their list.
#[derive(Drop)]
pub(crate) struct NodePlans {
    plans: Vec<Plan>,
}

impl Model for NodePlans {
    ghost use Rattle.std.specs.Prelude.{List};
    ghost use Rattle.cls_enum.specs.declared.plan.Plan.{Plan};

    ghost Value = { List Plan };

    ghost view = { λ n. n.plans.items };
}

impl NodePlans {
    pub(crate) fn new(plans: Vec<Plan>) -> NodePlans
        ensures { result ≡ plans.items }
    {
        NodePlans { plans }
    }

    pub(crate) fn as_slice(&self) -> &[Plan]
        ensures { result.now ≡ self.now }
    {
        self.plans.as_slice()
    }

    /// Whether some rule has more than two arguments.
    pub(crate) fn is_wide(&self) -> bool {
        for plan in &self.plans {
            if let Plan::Head(_, _, places) = plan {
                if places.len() > 2 {
                    return true;
                }
            }
        }
        false
    }
}

/// The plans of all nodes of a rule book.
pub(crate) fn plans<B: RuleBook>(
    alloc: Global,
    book: &B,
    costs: &Numbers,
) -> Result<Vec<NodePlans>, OutOfMemory>
    ensures book { IfOk result (λ plans. book_of plans.items ≡ B.book book.now) }
    ensures some { IfOk result (λ plans. 0 < length plans.items) }
    ensures few { IfOk result (λ plans. length plans.items < 2 ^ 32) }
    ensures ready { IfOk result (λ plans. (s : ℕ) → AllReady (B.book book.now) (cost_of costs.now) s plans.items) }
{
    let mut plans = Vec::new(alloc);
    for node in 0..book.count() {
        plans.push(NodePlans::new(node_plans(alloc, book.rules(node), costs)?))?;
    }
    Ok(plans)
}

/// The plans of rules.
fn node_plans(alloc: Global, rules: &NodeRules, costs: &Numbers) -> Result<Vec<Plan>, OutOfMemory>
    ensures rules { IfOk result (λ plans. rules_of plans.items ≡ rules.now) }
    ensures ready { IfOk result (λ plans. (b : List (List (Rule ℕ))) (s : ℕ)
        → AreReady b (cost_of costs.now) s plans.items) }
{
    let mut plans = Vec::new(alloc);
    for place in 0..rules.len() {
        let rule = rules.get(place);
        plans.push(rule_plan(alloc, rule, costs)?)?;
    }
    Ok(plans)
}

/// The plan of a rule.
fn rule_plan(alloc: Global, rule: RuleRef<'_>, costs: &Numbers) -> Result<Plan, OutOfMemory>
    ensures rule { IfOk result (λ plan. rule_of plan ≡ referred_rule rule.entry) }
    ensures ready { IfOk result (λ plan. (b : List (List (Rule ℕ))) (s : ℕ)
        → IsReady b (cost_of costs.now) s plan) }
{
    match rule {
        RuleRef::Head { component, args } => {
            let cost = cost_at(costs, component);
            let places = places(alloc, args)?;
            Ok(Plan::Head(component, cost, places))
        }
        RuleRef::Any { left, right } => {
            let places = places(alloc, &[right])?;
            Ok(Plan::Any(left, places))
        }
    }
}

/// The component's cost in the list, and 1 where it has none there.
fn cost_at(costs: &Numbers, component: u32) -> u32
    ensures { result ≡ cost_of costs.now component }
{
    costs
        .as_slice()
        .get(component as usize)
        .copied()
        .unwrap_or(1)
}

/// Places of these nodes, without bounds.
fn places(alloc: Global, nodes: &[u32]) -> Result<Vec<Place>, OutOfMemory>
    ensures nodes { IfOk result (λ places. nodes_of places.items ≡ nodes.now) }
    ensures free { IfOk result (λ places. AreFree places.items) }
{
    let mut places = Vec::new(alloc);
    for node in nodes {
        places.push(Place {
            node: *node,
            least: Vec::new(alloc),
        })?;
    }
    Ok(places)
}
