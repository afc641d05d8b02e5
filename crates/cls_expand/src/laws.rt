//! What the rules of goals generate, and how components make them, as calls that do nothing and promise the law.
ghost use Rattle.cls_expand.specs.Laws.{OmegaHasAllTerms, LanguagesAreTypes};
ghost use Rattle.cls_expand.specs.Laws.{RulesHaveTheirComponent, RulesAreByComponents, ComponentsMakeTheRules, AnswersFollowPaths};

/// The rules of omega generate the terms that have omega, which are all terms, and no others.
pub fn omega_has_all_terms()
    ensures { OmegaHasAllTerms }
{}

/// Goals with rules, whose arguments are among them, generate the terms that have their types, and no others.
pub fn languages_are_types()
    ensures { LanguagesAreTypes }
{}

/// Each rule that a component makes for a goal has that component.
pub fn rules_have_their_component()
    ensures { RulesHaveTheirComponent }
{}

/// The rules of a goal that have a component are those that this component makes.
pub fn rules_are_by_components()
    ensures { RulesAreByComponents }
{}

/// What the components make for a goal with a path, one after the other, are the rules of the goal.
pub fn components_make_the_rules()
    ensures { ComponentsMakeTheRules }
{}

/// Components with the same paths, in libraries with one order of names, make rules with the same arguments for a goal, and
/// both or neither make it wide.
pub fn answers_follow_paths()
    ensures { AnswersFollowPaths }
{}
