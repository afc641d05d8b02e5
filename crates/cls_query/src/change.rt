//! Changes of the repository, as they are spelled and as they are built.
use cls_base::{Name, Schema};
use cls_syntax::SpelledType;

/// What a line changes. The name of a new component is of type `X`, that of one that is there of type `N`, and types
/// are of type `T`.
#[derive(Drop)]
pub enum Change<X, N, T> {
    /// `add NAME : TYPE`: with one more component, which is the last one.
    Add(X, T),
    /// `drop NAME`: without the component.
    Remove(N),
}

/// A change as it is spelled.
pub type SpelledChange<'t, 'a> = Change<&'a str, &'a str, SpelledType<'t, 'a>>;

/// A change with a schema in place of the text of a type, and a number in place of the name of a component that is
/// there.
pub type BuiltChange = Change<String, Name, Schema>;
