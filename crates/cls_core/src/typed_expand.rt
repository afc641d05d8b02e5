use crate::expand::Expand;

/// An expander whose answers are the rules of a typing of terms by goals.
///
/// It says of each tag which terms have which goals. Its law is that a term has a goal if and only if it fits one of
/// the goal's rules: a component applied to terms that have the rule's arguments, or a term of the one argument applied
/// to a term of the other. Of a wide goal, which has no rules, it asks nothing.
pub trait TypedExpand: Expand {
    ghost use Rattle.cls_base.specs.Terms.{Applicative};
    ghost use Rattle.cls_core.specs.Typings.{AreRulesOf};

    ghost has: { Self.Tag → Applicative → Self.Goal → Type 0 };

    ghost rules: { (t : Self.Tag) → AreRulesOf (has t) (Self.answers t) (Self.ready t) };
}
