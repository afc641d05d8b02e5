ghost use Rattle.std.specs.Prelude.{◌≡◌, ◌↔◌, [], ◌∷◌, ◌++◌, map, IsTrue, OnOk, OnErr};
ghost use Rattle.cls_base.specs.Ty.{type_of};
ghost use Rattle.cls_kind.specs.Instances.{AreFull};
ghost use Rattle.cls_kind.specs.Kinds.{kind_of};

use crate::choices::Choices;
use cls_base::{Name, OutOfMemory, Ty};
use indexmap::IndexMap;
use std::alloc::Global;
use std::marker::Model;

/// The kinds of variables, seen as the list of the variables with their types, in the order in which they were added.
pub struct Kinds {
    by_variable: IndexMap<u32, Choices>,
}

// Not derived, for the prover: so a caller's proof has one step where a value is dropped, and not one for each part of it.
impl Drop for Kinds {
    fn drop(self) {
        let Kinds { by_variable: _ } = self;
    }
}

impl Model for Kinds {
    ghost use Rattle.std.specs.Prelude.{ℕ, List};
    ghost use Rattle.std.specs.Coded.{coded_list, coded×, coded_ℕ};
    ghost use Rattle.cls_base.specs.Types.{ClosedType};
    ghost use Rattle.cls_kind.specs.Stored.{coded_type};

    ghost Value = { List (ℕ × List ClosedType) };

    ghost coded = { coded_list (coded× coded_ℕ (coded_list coded_type)) };

    ghost use Rattle.cls_kind.specs.Instances.{AreFull};

    ghost view = { λ k. k.by_variable.entries };

    ghost invariant = { λ k. AreFull k.by_variable.entries };
}

impl Kinds {
    /// No kinds. It takes no memory.
    pub fn new(alloc: Global) -> Kinds
        ensures { result ≡ [] }
    {
        Kinds {
            by_variable: IndexMap::new(alloc),
        }
    }

    /// Gives the types as its kind to a variable that has none. There is at least one type. The only error is out of
    /// memory, and the kinds are then as before.
    pub fn add(&mut self, variable: Name, choices: Choices) -> Result<(), OutOfMemory>
        requires has_none { kind_of self.old variable.0 ≡ [] }
        requires nonempty { choices ≡ [] → ⊥ }
        ensures added { OnOk result (self.new ≡ self.old ++ (variable.0, choices) ∷ []) }
        ensures unchanged { OnErr result (self.new ≡ self.old) }
    {
        self.by_variable.insert(variable.0, choices)?;
        Ok(())
    }

    /// Whether the variable has no kind.
    pub fn lacks(&self, variable: Name) -> bool
        ensures { IsTrue result ↔ (kind_of self.now variable.0 ≡ []) }
    {
        self.types_of(variable.0).is_empty()
    }

    /// The types of the variable, none if it has no kind.
    pub(crate) fn types_of(&self, variable: u32) -> &[Ty]
        ensures kind { map type_of result.now ≡ kind_of self.now variable }
        ensures nonempty { AreFull self.now }
    {
        match self.by_variable.get(&variable) {
            Some(choices) => choices.as_slice(),
            None => &[],
        }
    }
}
