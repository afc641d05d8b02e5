//! Whether head rules are in the order in which the codes of their terms begin, by which runs of them are counted.
ghost use Rattle.std.specs.Prelude.{◌≡◌, true, IfSome, List, [], ◌∷◌, ◌++◌};
ghost use Rattle.cls_base.specs.Columns.{rule_of};
ghost use Rattle.cls_walk.specs.Counts.{HeadRule, heads_of};
ghost use Rattle.cls_walk.specs.Lasts.{EndWith};
ghost use Rattle.cls_walk.specs.Orders.{InOrder, IsOrdered};

use cls_base::{NodeRules, RuleBook, RuleRef};

/// The component and the number of arguments of the last head rule so far.
#[derive(Clone, Copy)]
pub(crate) struct Last {
    component: u32,
    arguments: usize,
}

/// The last head rule once this rule stands behind the others, None if it is a head rule that belongs before one of
/// them.
fn behind(last: Last, rule: RuleRef<'_>) -> Option<Last>
    ensures { IfSome result (λ next. (hs : List HeadRule)
        → EndWith last hs → EndWith next (hs ++ heads_of (rule_of rule.entry ∷ []))) }
{
    match rule {
        RuleRef::Any { left: _, right: _ } => Some(last),
        RuleRef::Head { component, args } => {
            let arguments = args.len();
            if component < last.component {
                return None;
            }
            if component == last.component && arguments < last.arguments {
                return None;
            }
            Some(Last {
                component,
                arguments,
            })
        }
    }
}

/// Whether the head rules are in order.
fn are_in_order(rules: &NodeRules) -> bool
    ensures { result ≡ true → InOrder (heads_of rules.now) }
{
    let mut last = Last {
        component: 0,
        arguments: 0,
    };
    for place in 0..rules.len() {
        let rule = rules.get(place);
        let Some(next) = behind(last, rule) else {
            return false;
        };
        last = next;
    }
    true
}

/// Whether the head rules of each node are in order.
pub(crate) fn is_ordered<B: RuleBook>(book: &B) -> bool
    ensures { result ≡ true → IsOrdered (B.book book.now) }
{
    for node in 0..book.count() {
        if !are_in_order(book.rules(node)) {
            return false;
        }
    }
    true
}
