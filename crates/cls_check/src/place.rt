//! Components with a number of arguments.
ghost use Rattle.std.specs.Prelude.{◌≡◌, ◌↔◌, IsTrue};
ghost use Rattle.cls_library.specs.Libraries.{IsLibrary};
ghost use Rattle.cls_check.specs.Places.{Stands, arrows_in};

use cls_library::{Arrows, Library};

/// A component, and how many arguments its arrows take.
#[derive(Clone, Copy, Debug, PartialEq, Eq, Hash)]
pub(crate) struct Place {
    pub component: u32,
    pub n: u32,
}

impl Place {
    /// Whether the component has arrows that take so many arguments.
    pub fn stands(self, lib: &Library) -> bool
        ensures { IsTrue result ↔ Stands lib.now self }
    {
        self.component < lib.count() && self.n <= lib.arity(self.component)
    }

    /// These arrows, in order.
    pub fn arrows(self, lib: &Library) -> Arrows<'_>
        requires { Stands lib.now self }
        ensures arrows { result ≡ arrows_in lib.now self }
        ensures library { IsLibrary lib.now }
    {
        lib.arrows(self.component, self.n)
    }
}
