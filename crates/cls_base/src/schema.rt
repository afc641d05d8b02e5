ghost use Rattle.std.specs.Prelude.{◌≡◌, IfOk};
ghost use Rattle.cls_base.specs.Schemas.{constructor, schema_of};

use crate::out_of_memory::OutOfMemory;
use crate::ty::Name;
use std::alloc::Global;

/// A type that may have variables. It is seen as the tree that `schema_of` gives.
#[derive(Drop)]
pub enum Schema {
    /// The type of every term.
    Omega,
    /// A bare name, which is the constructor over omega.
    Bare(Name),
    /// A constructor over a schema. Over omega it stands for the same tree as the bare name.
    Con(Name, Box<Schema>),
    /// A product of two schemas.
    Prod(Box<(Schema, Schema)>),
    /// The functions from the first schema to the second.
    Arrow(Box<(Schema, Schema)>),
    /// The intersection of two schemas.
    Meet(Box<(Schema, Schema)>),
    /// A variable, numbered in a table of its own.
    Var(Name),
}

impl Schema {
    /// The constructor over the schema: a bare name over omega. The only error is out of memory.
    pub fn over(alloc: Global, name: Name, argument: Schema) -> Result<Schema, OutOfMemory>
        ensures { IfOk result (λ whole. schema_of whole ≡ constructor name.0 (schema_of argument)) }
    {
        match argument {
            Schema::Omega => Ok(Schema::Bare(name)),
            argument => Ok(Schema::Con(name, Box::new(alloc, argument)?)),
        }
    }

    /// A schema equal to this one. The only error is out of memory.
    pub fn copy(&self, alloc: Global) -> Result<Schema, OutOfMemory>
        ensures { IfOk result (λ schema. schema_of schema ≡ schema_of self.now) }
    {
        match self {
            Schema::Omega => Ok(Schema::Omega),
            Schema::Bare(name) => Ok(Schema::Bare(*name)),
            Schema::Con(name, argument) => {
                let argument = Box::new(alloc, argument.copy(alloc)?)?;
                Ok(Schema::Con(*name, argument))
            }
            Schema::Prod(sides) => {
                let left = sides.0.copy(alloc)?;
                let right = sides.1.copy(alloc)?;
                Ok(Schema::Prod(Box::new(alloc, (left, right))?))
            }
            Schema::Arrow(sides) => {
                let left = sides.0.copy(alloc)?;
                let right = sides.1.copy(alloc)?;
                Ok(Schema::Arrow(Box::new(alloc, (left, right))?))
            }
            Schema::Meet(sides) => {
                let left = sides.0.copy(alloc)?;
                let right = sides.1.copy(alloc)?;
                Ok(Schema::Meet(Box::new(alloc, (left, right))?))
            }
            Schema::Var(variable) => Ok(Schema::Var(*variable)),
        }
    }
}
