//! What paths of functions take.
ghost use Rattle.std.specs.Prelude.{◌≡◌, IfOk, OnOk};
ghost use Rattle.cls_path.specs.Paths.{append, listed};
ghost use Rattle.cls_path.specs.Seen.{paths_of_source};

use crate::make::copy_behind;
use crate::path::{Nf, Path};
use cls_base::{Name, OutOfMemory};
use std::alloc::Global;

/// What an arrow takes, as its path keeps it: a bare name, or an intersection of paths.
#[derive(Clone, Copy)]
pub enum ArrowSource<'a> {
    /// A covariant name over omega.
    Name(Name),
    /// An intersection of paths.
    Paths(&'a Nf),
}

impl ArrowSource<'_> {
    /// The intersection of the paths. It takes no memory for a name. The only error is out of memory.
    pub fn copy(&self, alloc: Global) -> Result<Nf, OutOfMemory>
        ensures { IfOk result (λ nf. listed nf ≡ paths_of_source self.now) }
    {
        match self {
            ArrowSource::Name(name) => Ok(Nf::one(alloc, Path::atom(*name))),
            ArrowSource::Paths(nf) => nf.copy(alloc),
        }
    }

    /// Puts copies of the paths behind the others, in order. The only error is out of memory.
    pub fn copy_onto(&self, alloc: Global, paths: &mut Vec<Path>) -> Result<(), OutOfMemory>
        ensures { OnOk result (listed paths.new.items ≡ append (listed paths.old.items) (paths_of_source self.now)) }
    {
        match self {
            ArrowSource::Name(name) => paths.push(Path::atom(*name))?,
            ArrowSource::Paths(nf) => copy_behind(alloc, nf.paths(), paths)?,
        }
        Ok(())
    }
}
