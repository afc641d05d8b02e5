ghost use Rattle.std.specs.Prelude.{◌↔◌, IsTrue};
ghost use Rattle.cls_library.specs.Families.{IsBefore};

/// Where arrows of a library stand: those of one component that take one number of arguments.
#[derive(Clone, Copy, Debug, PartialEq, Eq)]
pub struct Place {
    /// The number of the component.
    pub component: u32,
    /// How many arguments the arrows take.
    pub count: u32,
}

impl Place {
    /// Whether this place comes before the other: by the component, then by the number of arguments.
    pub(crate) fn is_before(self, other: Place) -> bool
        ensures { IsTrue result ↔ IsBefore self other }
    {
        self.component < other.component
            || (self.component == other.component && self.count < other.count)
    }
}
