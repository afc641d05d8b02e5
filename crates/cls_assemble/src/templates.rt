ghost use Rattle.std.specs.Prelude.{◌≡◌, ◌↔◌, [], length, IsTrue};

use crate::template::Template;
use std::marker::Model;

/// A list with one template for each component, by number. It is made from a `Vec` and gives it back, neither of which
/// takes memory.
#[derive(Drop)]
pub struct Templates {
    items: Vec<Template>,
}

impl Model for Templates {
    ghost use Rattle.std.specs.Prelude.{List};
    ghost use Rattle.cls_assemble.specs.declared.piece.Piece.{Piece};

    ghost Value = { List (List Piece) };

    ghost view = { λ t. t.items.items };
}

impl Templates {
    /// The list of these templates.
    pub fn from_vec(templates: Vec<Template>) -> Templates
        ensures { result ≡ templates.items }
    {
        Templates { items: templates }
    }

    /// The vector of the templates.
    pub fn into_vec(self) -> Vec<Template>
        ensures { result.items ≡ self }
    {
        self.items
    }

    /// The templates as a slice, in order.
    pub fn as_slice(&self) -> &[Template]
        ensures { result.now ≡ self.now }
    {
        self.items.as_slice()
    }

    /// The number of templates.
    pub fn len(&self) -> usize
        ensures { result ≡ length self.now }
    {
        self.items.len()
    }

    /// Whether there is no template.
    pub fn is_empty(&self) -> bool
        ensures { IsTrue result ↔ (self.now ≡ []) }
    {
        self.items.is_empty()
    }
}
