//! The trees that a builder makes: schemas, or closed types with their measures.
ghost use Rattle.std.specs.Prelude.{◌≡◌, ℕ, Option, Some, IfOk};
ghost use Rattle.std.specs.Option.{option_map};
ghost use Rattle.cls_base.specs.Schemas.{OpenType, schema_of};
ghost use Rattle.cls_base.specs.Schemas as schema;

use cls_base::{Name, OutOfMemory, Schema};
use std::alloc::Global;

/// A tree of the forms of types. The only error of its calls is out of memory.
pub(crate) trait Tree: Drop {
    // the schema that the tree is
    ghost tree: { Self → OpenType };

    // what a variable of this number is, where such trees have variables
    ghost leaf: { ℕ → Option OpenType };

    /// The type of every term.
    fn omega() -> Self
    where
        Self: Sized,
        ensures { tree result ≡ schema.omega };

    /// A variable, where such trees have variables.
    fn variable(name: Name) -> Option<Self>
    where
        Self: Sized,
        ensures { option_map tree result ≡ leaf name.0 };

    /// A bare name.
    fn bare(name: Name) -> Self
    where
        Self: Sized,
        ensures { tree result ≡ schema.constructor name.0 schema.omega };

    /// A constructor over a tree.
    fn constructor(alloc: Global, name: Name, argument: Self) -> Result<Self, OutOfMemory>
    where
        Self: Sized,
        ensures { IfOk result (λ t. tree t ≡ schema.constructor name.0 (tree argument)) };

    /// A product of two trees.
    fn product(alloc: Global, left: Self, right: Self) -> Result<Self, OutOfMemory>
    where
        Self: Sized,
        ensures { IfOk result (λ t. tree t ≡ schema.product (tree left) (tree right)) };

    /// The functions from the first tree to the second.
    fn arrow(alloc: Global, source: Self, target: Self) -> Result<Self, OutOfMemory>
    where
        Self: Sized,
        ensures { IfOk result (λ t. tree t ≡ schema.arrow (tree source) (tree target)) };

    /// The intersection of two trees.
    fn meet(alloc: Global, left: Self, right: Self) -> Result<Self, OutOfMemory>
    where
        Self: Sized,
        ensures { IfOk result (λ t. tree t ≡ schema.meet (tree left) (tree right)) };
}

impl Tree for Schema {
    ghost tree = { schema_of };

    ghost leaf = { λ v. Some (schema.variable v) };

    fn omega() -> Schema {
        Schema::Omega
    }

    fn variable(name: Name) -> Option<Schema> {
        Some(Schema::Var(name))
    }

    fn bare(name: Name) -> Schema {
        Schema::Bare(name)
    }

    fn constructor(alloc: Global, name: Name, argument: Schema) -> Result<Schema, OutOfMemory> {
        Schema::over(alloc, name, argument)
    }

    fn product(alloc: Global, left: Schema, right: Schema) -> Result<Schema, OutOfMemory> {
        Ok(Schema::Prod(Box::new(alloc, (left, right))?))
    }

    fn arrow(alloc: Global, source: Schema, target: Schema) -> Result<Schema, OutOfMemory> {
        Ok(Schema::Arrow(Box::new(alloc, (source, target))?))
    }

    fn meet(alloc: Global, left: Schema, right: Schema) -> Result<Schema, OutOfMemory> {
        Ok(Schema::Meet(Box::new(alloc, (left, right))?))
    }
}
