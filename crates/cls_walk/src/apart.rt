//! Whether no two rules of a node make the same term. Then the ways in which the rules make terms are as many terms.
ghost use Rattle.std.specs.Prelude.{◌≡◌, ℕ, true, ◌∷◌, IfSome, List};
ghost use Rattle.cls_base.specs.declared.rule.Rule.{Rule};
ghost use Rattle.cls_base.specs.Columns.{rule_of};
ghost use Rattle.cls_walk.specs.Apart.{AreAllApart, AreApart, AreApartBehind};

use cls_base::{NodeRules, RuleBook, RuleRef};

/// What is seen of the rules before a rule: the component of the last head rule and the least number of arguments that
/// the next one with it may have, whether there is a pair of nodes, and the greatest number of arguments.
#[derive(Clone, Copy)]
pub(crate) struct Seen {
    component: u32,
    least: usize,
    has_pair: bool,
    most: usize,
}

/// What is seen behind a rule, None if a rule before it may make the same terms.
fn behind(seen: Seen, rule: RuleRef<'_>) -> Option<Seen>
    ensures { IfSome result (λ next. (rs : List (Rule ℕ))
        → AreApartBehind next rs → AreApartBehind seen (rule_of rule.entry ∷ rs)) }
{
    match rule {
        RuleRef::Head { component, args } => {
            let count = args.len();
            if component < seen.component || (component == seen.component && count < seen.least) {
                return None;
            }
            if seen.has_pair && count > 0 {
                return None;
            }
            Some(Seen {
                component,
                least: count + 1,
                has_pair: seen.has_pair,
                most: seen.most.max(count),
            })
        }
        RuleRef::Any { left: _, right: _ } => {
            if seen.has_pair || seen.most > 0 {
                return None;
            }
            Some(Seen {
                component: seen.component,
                least: seen.least,
                has_pair: true,
                most: 0,
            })
        }
    }
}

/// Whether no two of the rules make the same term.
fn is_apart(rules: &NodeRules) -> bool
    ensures { result ≡ true → AreApart rules.now }
{
    let mut seen = Seen {
        component: 0,
        least: 0,
        has_pair: false,
        most: 0,
    };
    for place in 0..rules.len() {
        let rule = rules.get(place);
        let Some(next) = behind(seen, rule) else {
            return false;
        };
        seen = next;
    }
    true
}

/// The same for the rules of each node.
pub(crate) fn are_apart<B: RuleBook>(book: &B) -> bool
    ensures { result ≡ true → AreAllApart (B.book book.now) }
{
    for node in 0..book.count() {
        if !is_apart(book.rules(node)) {
            return false;
        }
    }
    true
}
