ghost use Rattle.std.specs.Prelude.{◌≡◌};
ghost use Rattle.cls_syntax.specs.Roles.{may_stand, takes_names};

/// What a name of a line is for.
#[derive(Clone, Copy, Debug, PartialEq, Eq)]
pub enum Role {
    /// A constructor.
    Constructor,
    /// A variable that a type uses.
    Variable,
    /// The variable that a line gives its kind.
    NewVariable,
    /// A component that is to be there.
    Component,
    /// A component that the line declares.
    NewComponent,
    /// A filter that is to be there.
    Filter,
    /// A filter that the line declares.
    NewFilter,
    /// A component in a term.
    TermComponent,
    /// A state of a filter. It is neither `none` nor `_`.
    State,
    /// A state, or `_` for each one. It isn't `none`.
    StateOrAny,
    /// A state, or `none`. It isn't `_`.
    StateOrNone,
    /// `contra` or `inv`.
    Variance,
}

impl Role {
    /// Whether a name of this text may stand there.
    pub fn allows(self, text: &str) -> bool
        ensures { result ≡ may_stand self text.now }
    {
        match self {
            Role::State => text != "none" && text != "_",
            Role::StateOrAny => text != "none",
            Role::StateOrNone => text != "_",
            Role::Variance => text == "contra" || text == "inv",
            _ => true,
        }
    }

    /// Whether each name may stand there but for `none` and `_`, of which some may not.
    pub fn takes_names(self) -> bool
        ensures { result ≡ takes_names self }
    {
        !matches!(self, Role::Variance)
    }
}
