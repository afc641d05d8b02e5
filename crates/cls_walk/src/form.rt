//! Forms: with which component a term of a node begins, and of which nodes its arguments are.
ghost use Rattle.std.specs.Prelude.{◌≡◌, [], length, slice_index_or};

use std::marker::Model;

/// A component with the nodes of its arguments, from the last to the first, seen as that pair.
#[derive(Drop)]
pub(crate) struct Form {
    pub(crate) component: u32,
    pub(crate) count: u32,
    pub(crate) nodes: Vec<u32>,
}

impl Model for Form {
    ghost use Rattle.std.specs.Prelude.{◌≡◌, length, reverse};
    ghost use Rattle.cls_walk.specs.Counts.{HeadRule};

    ghost Value = { HeadRule };

    ghost view = { λ f. (f.component, reverse f.nodes.items) };

    ghost invariant = { λ f. f.count ≡ length f.nodes.items };
}

/// The forms of each node, seen as these lists.
#[derive(Drop)]
pub(crate) struct Forms {
    pub(crate) nodes: Vec<Vec<Form>>,
}

impl Model for Forms {
    ghost use Rattle.std.specs.Prelude.{List, map};
    ghost use Rattle.cls_walk.specs.Counts.{HeadRule};

    ghost Value = { List (List HeadRule) };

    ghost view = { λ f. map (λ v. v.items) f.nodes.items };
}

impl Forms {
    /// The forms of a node, none past the last one.
    pub(crate) fn of(&self, node: u32) -> &[Form]
        ensures { result.now ≡ slice_index_or self.now node [] }
    {
        match self.nodes.get(node as usize) {
            Some(forms) => forms.as_slice(),
            None => &[],
        }
    }
}
