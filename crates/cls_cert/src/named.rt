use cls_grammar::Grammar;
use cls_lexer::Names;

/// A grammar, and the names by which its lines are spelled: those of constructors, and those of components.
#[derive(Clone, Copy)]
pub(crate) struct NamedGrammar<'a> {
    pub(crate) grammar: &'a Grammar,
    pub(crate) names: &'a Names,
    pub(crate) components: &'a Names,
}
