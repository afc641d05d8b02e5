ghost use Rattle.std.specs.Prelude.{◌≡◌, ◌↔◌, [], map, IsTrue};
ghost use Rattle.cls_base.specs.Ty.{type_of};

use cls_base::Ty;
use std::marker::Model;

/// A list of types, of which one is chosen for a variable. It is seen as that list. It is made from a `Vec` and gives it
/// back. Neither takes memory.
#[derive(Drop)]
pub struct Choices {
    items: Vec<Ty>,
}

impl Model for Choices {
    ghost use Rattle.std.specs.Prelude.{List, map};
    ghost use Rattle.std.specs.Coded.{coded_list};
    ghost use Rattle.cls_base.specs.Types.{ClosedType};
    ghost use Rattle.cls_base.specs.Ty.{type_of};
    ghost use Rattle.cls_kind.specs.Stored.{coded_type};

    ghost Value = { List ClosedType };

    ghost coded = { coded_list coded_type };

    ghost view = { λ c. map type_of c.items.items };
}

impl Choices {
    /// The list of these types.
    pub fn new(items: Vec<Ty>) -> Choices
        ensures { result ≡ map type_of items.items }
    {
        Choices { items }
    }

    /// The types as a slice.
    pub fn as_slice(&self) -> &[Ty]
        ensures { map type_of result.now ≡ self.now }
    {
        self.items.as_slice()
    }

    /// Whether there is no type.
    pub fn is_empty(&self) -> bool
        ensures { IsTrue result ↔ (self.now ≡ []) }
    {
        self.items.is_empty()
    }

    /// The vector of the types.
    pub fn into_vec(self) -> Vec<Ty>
        ensures { map type_of result.items ≡ self }
    {
        self.items
    }
}
