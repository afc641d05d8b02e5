//! What holds of the grammar of every goal, as calls that do nothing and promise the law.
ghost use Rattle.cls_grammar.specs.Meanings.{LanguagesAreTypings, ProductiveGoalsHaveTerms};

use cls_core::TypedExpand;

/// If an expander's answers are the rules of a typing, and no goal of a closure is wide, then each goal of its
/// canonical grammar generates exactly the terms that have it.
pub fn languages_are_typings<E: TypedExpand>()
    ensures { (tag : E.Tag) → LanguagesAreTypings (E.has tag) E.Goal.eq (E.answers tag) (E.ready tag) }
{}

/// There a goal is productive if and only if some term has it, so it is unproductive if and only if none does.
pub fn productive_goals_have_terms<E: TypedExpand>()
    ensures { (tag : E.Tag) → ProductiveGoalsHaveTerms (E.has tag) E.Goal.eq (E.answers tag) (E.ready tag) }
{}
