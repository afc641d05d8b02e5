//! Components that come and go.
ghost use Rattle.std.specs.Prelude.{◌≡◌, ◌<◌, ◌++◌, ◌∷◌, [], IfErr, OnErr, OnOk, length, remove};
ghost use Rattle.cls_base.specs.Schemas.{schema_of};
ghost use Rattle.cls_library.specs.Refusals.{Adds, Refuses};
ghost use Rattle.cls_engine.specs.Engines.{seen_as};

use crate::engine::Engine;
use crate::outcomes::Outcomes;
use crate::recents::Recents;
use cls_base::{Numbers, OutOfMemory, Schema};
use cls_kind::Kinds;
use cls_library::{Library, LibraryFault, LibraryKind};
use cls_live::Parts;
use std::alloc::Global;
use std::mem;

impl Engine {
    /// Puts the component of the schema last in the library, with the cost 1. After a fault the engine is as before.
    ///
    /// What the other components make for goals stays known. The grammars and outcomes that were kept go, since they
    /// are those of the library before.
    pub fn add(&mut self, alloc: Global, schema: &Schema, kinds: &Kinds) -> Result<(), LibraryFault>
        ensures added { OnOk result (Adds self.old.library.taxonomy kinds.now (schema_of schema.now)
            self.old.library self.new.library) }
        ensures costs { OnOk result (self.new.costs ≡ self.old.costs ++ 1 ∷ []) }
        ensures options { self.new.options ≡ self.old.options }
        ensures refused { IfErr result (λ fault.
            Refuses self.old.library kinds.now (schema_of schema.now) fault.kind) }
        ensures unchanged { OnErr result (self.new ≡ self.old) }
    {
        put_last(
            alloc,
            &mut self.library,
            &mut self.parts,
            &mut self.costs,
            schema,
            kinds,
        )?;
        forget(&mut self.recents, &mut self.outcomes);
        self.changed = true;
        Ok(())
    }

    /// Takes a component out of the library, and its cost. The later ones move up by one number. It takes no memory.
    ///
    /// What the other components make for goals stays known, and the rest that was kept goes, as by [`Engine::add`].
    pub fn remove(&mut self, alloc: Global, x: u32)
        requires { x < length self.old.library.components }
        ensures { self.new ≡ seen_as (record self.old.library { components = remove self.old.library.components x })
            (remove self.old.costs x) self.old.options }
    {
        self.parts.drop_component(&mut self.library, x);
        remove_cost(alloc, &mut self.costs, x);
        forget(&mut self.recents, &mut self.outcomes);
        self.changed = true;
    }
}

/// Lets go what is kept of goals of a library that changes. It takes no memory.
fn forget(recents: &mut Recents, outcomes: &mut Outcomes)
    ensures recents { recents.new.kept.items ≡ [] }
    ensures outcomes { outcomes.new.kept.items ≡ [] }
{
    recents.forget();
    outcomes.forget();
}

/// Puts the component of the schema last, with the cost 1. After a fault all is as before, but for what is known of
/// goals.
fn put_last(
    alloc: Global,
    library: &mut Library,
    parts: &mut Parts,
    costs: &mut Numbers,
    schema: &Schema,
    kinds: &Kinds,
) -> Result<(), LibraryFault>
    requires { parts.old.library ≡ library.old }
    ensures added { OnOk result
        (Adds library.old.taxonomy kinds.now (schema_of schema.now) library.old library.new) }
    ensures costs { OnOk result (costs.new ≡ costs.old ++ 1 ∷ []) }
    ensures parts { parts.new.library ≡ library.new }
    ensures refused { IfErr result (λ fault. Refuses library.old kinds.now (schema_of schema.now) fault.kind) }
    ensures unchanged { OnErr result (library.new ≡ library.old) }
    ensures costs_stay { OnErr result (costs.new ≡ costs.old) }
{
    let component = library.count();
    parts.add_component(alloc, library, schema, kinds)?;
    let Ok(()) = push_cost(alloc, costs) else {
        parts.drop_component(library, component);
        return Err(LibraryFault {
            component,
            kind: LibraryKind::OutOfMemory,
        });
    };
    Ok(())
}

/// Puts the cost 1 last. The only error is out of memory, and leaves the costs as before.
fn push_cost(alloc: Global, costs: &mut Numbers) -> Result<(), OutOfMemory>
    ensures ok { OnOk result (costs.new ≡ costs.old ++ 1 ∷ []) }
    ensures err { OnErr result (costs.new ≡ costs.old) }
{
    let mut items = mem::replace(costs, Numbers::new(Vec::new(alloc))).into_vec();
    let pushed = items.push(1);
    *costs = Numbers::new(items);
    Ok(pushed?)
}

/// Takes out the cost of a component, if the list has one. It takes no memory.
fn remove_cost(alloc: Global, costs: &mut Numbers, x: u32)
    ensures { costs.new ≡ remove costs.old x }
{
    let mut items = mem::replace(costs, Numbers::new(Vec::new(alloc))).into_vec();
    remove_at(&mut items, x);
    *costs = Numbers::new(items);
}

/// Takes out the number at the place, if there is one.
fn remove_at(items: &mut Vec<u32>, number: u32)
    ensures { items.new.items ≡ remove items.old.items number }
{
    let place = number as usize;
    let len = items.len();
    if place >= len {
        return;
    }
    items.remove(place);
}
