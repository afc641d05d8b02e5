//! Libraries: components over an order of names.
ghost use Rattle.std.specs.Prelude.{◌≡◌, ℕ, ◌+◌, ◌≤◌, ◌<◌, [], false, length, map, remove, IfOk, IfErr, IfSome, OnOk, OnErr};
ghost use Rattle.cls_base.specs.Limits.{max_library_weight};
ghost use Rattle.cls_base.specs.Schemas.{schema_of};
ghost use Rattle.cls_path.specs.Paths.{TypePath, listed, Suits};
ghost use Rattle.cls_taxon.specs.Orders.{class_by};
ghost use Rattle.cls_library.specs.Arrows.{arity_of};
ghost use Rattle.cls_library.specs.Endings.{IsSought, is_alone};
ghost use Rattle.cls_library.specs.Families.{IsFamilyIn};
ghost use Rattle.cls_library.specs.Index.{IsIndex};
ghost use Rattle.cls_library.specs.Libraries.{variances_in, paths_at, arrows_at, total_of, IsLibrary, IsComponentOf, IsWithinLimits};
ghost use Rattle.cls_library.specs.Quick.{is_quick};
ghost use Rattle.cls_library.specs.Refusals.{Adds, Accepts, Refuses, IsLibraryOf, RefusesAt};

use crate::arrow::Arrows;
use crate::component::Component;
use crate::fault::{LibraryFault, LibraryKind};
use crate::gather::gather;
use crate::index::Index;
use crate::sought::Sought;
use crate::stem::is_quick;
use cls_base::limits::MAX_COMPONENTS;
use cls_base::{Numbers, OutOfMemory, Schema};
use cls_kind::Kinds;
use cls_path::{Nf, Path};
use cls_taxon::Taxonomy;
use std::alloc::Global;
use std::marker::Model;

/// Components over an order of names. It is seen as that order and the components by their numbers, each as the normal form of
/// the intersection of its instances with its weight.
pub struct Library {
    taxonomy: Taxonomy,
    components: Vec<Component>,
    index: Option<Index>,
}

// Not derived, for the prover: so a caller's proof has one step where a value is dropped, and not one for each part of it.
impl Drop for Library {
    fn drop(self) {
        let Library {
            taxonomy: _,
            components: _,
            index: _,
        } = self;
    }
}

impl Model for Library {
    ghost use Rattle.cls_library.specs.Libraries as libraries;
    ghost use Rattle.cls_library.specs.Libraries.{IsLibrary};
    ghost use Rattle.cls_library.specs.Stored.{coded_library};

    ghost Value = { libraries.Library };

    ghost coded = { coded_library };

    ghost use Rattle.cls_library.specs.Index.{IsIndexOf};

    ghost view = { λ l. record { taxonomy = l.taxonomy; components = l.components.items } };

    ghost invariant = { λ l. IsLibrary (record { taxonomy = l.taxonomy; components = l.components.items })
        × IsIndexOf l.components.items l.index };
}

impl Library {
    /// The library of these schemas, by these kinds. The fault names the first component that is refused.
    pub fn build(
        alloc: Global,
        taxonomy: Taxonomy,
        components: &[Schema],
        kinds: &Kinds,
    ) -> Result<Library, LibraryFault>
        ensures library { IfOk result (IsLibraryOf taxonomy kinds.now (map schema_of components.now)) }
        ensures refused { IfErr result (RefusesAt taxonomy kinds.now (map schema_of components.now)) }
    {
        let mut library = Library {
            taxonomy,
            components: Vec::new(alloc),
            index: None,
        };
        for schema in components {
            library.add(alloc, schema, kinds)?;
        }
        Ok(library)
    }

    /// Puts the component of the schema last. After a fault the library is as before.
    pub fn add(&mut self, alloc: Global, schema: &Schema, kinds: &Kinds) -> Result<(), LibraryFault>
        ensures added { OnOk result (Adds self.old.taxonomy kinds.now (schema_of schema.now) self.old self.new) }
        ensures number { IfErr result (λ fault. fault.component ≡ length self.old.components) }
        ensures refused { IfErr result (λ fault. Refuses self.old kinds.now (schema_of schema.now) fault.kind) }
        ensures unchanged { OnErr result (self.new ≡ self.old) }
    {
        self.index = None;
        let number = self.count();
        match self.component(alloc, schema, kinds) {
            Ok(component) => match self.components.push(component) {
                Ok(()) => Ok(()),
                Err(_) => Err(LibraryFault {
                    component: number,
                    kind: LibraryKind::OutOfMemory,
                }),
            },
            Err(kind) => Err(LibraryFault {
                component: number,
                kind,
            }),
        }
    }

    /// Takes out a component. The later ones move up by one number. It takes no memory.
    pub fn remove(&mut self, x: u32)
        requires { x < length self.old.components }
        ensures { self.new ≡ record self.old { components = remove self.old.components x } }
    {
        self.index = None; // The later components get other numbers.
        self.components.remove(x as usize);
    }

    /// The number of components.
    pub fn count(&self) -> u32
        ensures count { result ≡ length self.now.components }
        ensures library { IsLibrary self.now }
    {
        self.components.len() as u32
    }

    /// The paths of the component, whose intersection is its type.
    pub fn paths(&self, x: u32) -> &Nf
        requires { x < length self.now.components }
        ensures { listed result.now ≡ paths_at self.now x }
    {
        self.components[x as usize].paths()
    }

    /// The greatest number of arguments that an arrow of the component takes.
    pub fn arity(&self, x: u32) -> u32
        requires { x < length self.now.components }
        ensures { result ≡ arity_of (paths_at self.now x) }
    {
        self.components[x as usize].arity() as u32
    }

    /// The arrows of the component that take so many arguments, in order.
    pub fn arrows(&self, x: u32, n: u32) -> Arrows<'_>
        requires declared { x < length self.now.components }
        requires within { n ≤ arity_of (paths_at self.now x) }
        ensures arrows { result ≡ arrows_at self.now x n }
        ensures library { IsLibrary self.now }
    {
        self.components[x as usize].arrows(n as usize)
    }

    /// A library equal to this one. The only error is out of memory.
    pub fn copy(&self, alloc: Global) -> Result<Library, OutOfMemory>
        ensures { IfOk result (λ copy. copy ≡ self.now) }
    {
        let taxonomy = self.taxonomy.copy(alloc)?;
        let components = copy_components(alloc, &self.components)?;
        Ok(Library {
            taxonomy,
            components,
            index: None,
        })
    }

    /// Keeps the arrows by what their targets end in, for searches, until a component is added or removed. The only error is out of
    /// memory.
    pub fn index(&mut self, alloc: Global) -> Result<(), OutOfMemory>
        ensures { self.new ≡ self.old }
    {
        if self.index.is_none() {
            self.index = Some(Index::new(alloc, &self.components)?);
        }
        Ok(())
    }

    /// The arrows by what their targets end in, if they are kept.
    pub(crate) fn index_of(&self) -> Option<&Index>
        ensures { IfSome result (λ index. IsIndex self.now.components index.now) }
    {
        self.index.as_ref()
    }

    /// The order of names.
    pub fn taxonomy(&self) -> &Taxonomy
        ensures { result.now ≡ self.now.taxonomy }
    {
        &self.taxonomy
    }

    /// Whether an arrow of the component may lead to the path for which this is sought. If not, none does.
    pub(crate) fn may_lead(&self, x: u32, sought: Sought) -> bool
        requires { x < length self.now.components }
        ensures { result ≡ false → (q : TypePath) → IsSought self.now.taxonomy q sought
            → (n : ℕ) → IsFamilyIn self.now.taxonomy (arrows_at self.now x n) q [] }
    {
        self.components[x as usize].may_lead(sought)
    }

    /// The same for the arrows that take so many arguments.
    pub(crate) fn may_lead_by(&self, x: u32, n: u32, sought: Sought) -> bool
        requires declared { x < length self.now.components }
        requires alone { sought.alone ≡ is_alone (class_by self.now.taxonomy.pairs) sought.ending.head }
        ensures { result ≡ false → (q : TypePath) → IsSought self.now.taxonomy q sought
            → IsFamilyIn self.now.taxonomy (arrows_at self.now x n) q [] }
    {
        self.components[x as usize].may_lead_by(&self.taxonomy, n as usize, sought)
    }

    /// The strictly ascending positions of the arrows that take so many arguments and whose target is below the path. The only error is
    /// out of memory.
    pub fn family(&self, alloc: Global, x: u32, n: u32, path: &Path) -> Result<Numbers, OutOfMemory>
        requires declared { x < length self.now.components }
        requires within { n ≤ arity_of (paths_at self.now x) }
        requires suits { Suits (variances_in self.now.taxonomy) path.now }
        ensures { IfOk result (IsFamilyIn self.now.taxonomy (arrows_at self.now x n) path.now) }
    {
        self.components[x as usize].family(alloc, &self.taxonomy, n as usize, path)
    }

    /// Whether the family of the path is found without a test of each arrow of a component: all arrows that end as the path does
    /// lead to it, or the first two names and sides of products that it begins with tell which ones may.
    pub fn is_quick(&self, path: &Path) -> bool
        ensures { result ≡ is_quick (class_by self.now.taxonomy.pairs) path.now }
    {
        is_quick(&self.taxonomy, path)
    }

    /// The component of the schema, if it is accepted as the next one.
    fn component(
        &self,
        alloc: Global,
        schema: &Schema,
        kinds: &Kinds,
    ) -> Result<Component, LibraryKind>
        ensures component { IfOk result (IsComponentOf self.now.taxonomy kinds.now (schema_of schema.now)) }
        ensures limits { IfOk result (IsWithinLimits self.now.taxonomy) }
        ensures light { IfOk result (λ c. c.weight + total_of self.now.components ≤ max_library_weight) }
        ensures accepted { OnOk result (Accepts self.now kinds.now (schema_of schema.now)) }
        ensures refused { IfErr result (Refuses self.now kinds.now (schema_of schema.now)) }
    {
        if self.components.len() >= MAX_COMPONENTS as usize {
            return Err(LibraryKind::TooManyComponents);
        }
        let held = self.weight();
        let gathered = gather(alloc, &self.taxonomy, schema, kinds, held)?;
        let nf = Nf::from_paths(alloc, &self.taxonomy, gathered.paths)?;
        Ok(Component::new(alloc, nf, gathered.weight - held)?)
    }

    /// The weight of all components.
    fn weight(&self) -> u64
        ensures weight { result ≡ total_of self.now.components }
        ensures light { result ≤ max_library_weight }
    {
        let mut weight = 0;
        for component in &self.components {
            weight += component.weight();
        }
        weight
    }
}

/// The components once more.
fn copy_components(alloc: Global, components: &[Component]) -> Result<Vec<Component>, OutOfMemory>
    ensures { IfOk result (λ copy. copy.items ≡ components.now) }
{
    let mut copy = Vec::with_capacity(alloc, components.len())?;
    for component in components {
        copy.push(component.copy(alloc)?)?;
    }
    Ok(copy)
}
