//! How paths and intersections of paths are made and taken apart.
ghost use Rattle.std.specs.Prelude.{◌≡◌, [], ◌∷◌, ◌++◌, IfOk, OnOk};
ghost use Rattle.cls_path.specs.Paths.{atom, inside, unit, left, right, function, sealed, listed};
ghost use Rattle.cls_path.specs.Seen.{path_of};

use crate::path::{Arrow, Form, Nf, Path, PathList};
use cls_base::{Name, OutOfMemory};
use std::alloc::Global;

impl Path {
    /// A name over omega.
    pub fn atom(name: Name) -> Path
        ensures { result ≡ atom name.0 }
    {
        Path {
            form: Form::Atom(name),
        }
    }

    /// A name over a path. It takes no memory over a bare name. The only error is out of memory.
    pub fn con(alloc: Global, name: Name, rest: Path) -> Result<Path, OutOfMemory>
        ensures { IfOk result (λ path. path ≡ inside name.0 rest) }
    {
        if let Form::Atom(inner) = &rest.form {
            return Ok(Path {
                form: Form::Over(name, *inner),
            });
        }
        // For the prover: opens the model of the inner path, whose lists are sorted.
        let _ = &rest.form;
        let rest = Box::new(alloc, rest)?;
        Ok(Path {
            form: Form::Con(name, rest),
        })
    }

    /// The product of omega and omega.
    pub fn unit() -> Path
        ensures { result ≡ unit }
    {
        Path { form: Form::Unit }
    }

    /// The product of a path and omega. The only error is out of memory.
    pub fn left(alloc: Global, rest: Path) -> Result<Path, OutOfMemory>
        ensures { IfOk result (λ path. path ≡ left rest) }
    {
        // For the prover: opens the model of the inner path, whose lists are sorted.
        let _ = &rest.form;
        let rest = Box::new(alloc, rest)?;
        Ok(Path {
            form: Form::Left(rest),
        })
    }

    /// The product of omega and a path. The only error is out of memory.
    pub fn right(alloc: Global, rest: Path) -> Result<Path, OutOfMemory>
        ensures { IfOk result (λ path. path ≡ right rest) }
    {
        // For the prover: opens the model of the inner path, whose lists are sorted.
        let _ = &rest.form;
        let rest = Box::new(alloc, rest)?;
        Ok(Path {
            form: Form::Right(rest),
        })
    }

    /// The functions from an intersection of paths to a path. It takes less memory from a bare name. The only error is out of
    /// memory.
    pub fn arrow(alloc: Global, source: Nf, target: Path) -> Result<Path, OutOfMemory>
        ensures { IfOk result (λ path. path ≡ function (listed source) target) }
    {
        // For the prover: opens the models of the intersection and the inner path, whose lists are sorted.
        let _ = &source.paths;
        let _ = &target.form;
        if let Some(name) = source.bare_name() {
            let target = Box::new(alloc, target)?;
            return Ok(Path {
                form: Form::From(name, target),
            });
        }
        let arrow = Box::new(alloc, Arrow { source, target })?;
        Ok(Path {
            form: Form::Arrow(arrow),
        })
    }

    /// A name over an intersection of paths. The only error is out of memory.
    pub fn sealed(alloc: Global, name: Name, argument: Nf) -> Result<Path, OutOfMemory>
        ensures { IfOk result (λ path. path ≡ sealed name.0 (listed argument)) }
    {
        // For the prover: opens the model of the intersection, which is sorted.
        let _ = &argument.paths;
        let argument = Box::new(alloc, argument)?;
        Ok(Path {
            form: Form::Sealed(name, argument),
        })
    }

    /// The kind of the path, with its parts.
    pub fn form(&self) -> &Form
        ensures { path_of result.now ≡ self.now }
    {
        &self.form
    }

    /// A path equal to this one. The only error is out of memory.
    #[inline]
    pub fn copy(&self, alloc: Global) -> Result<Path, OutOfMemory>
        ensures { IfOk result (λ path. path ≡ self.now) }
    {
        // Most paths that are copied are names over omega, and need no call.
        match &self.form {
            Form::Atom(name) => Ok(Path::atom(*name)),
            _ => self.copy_deep(alloc),
        }
    }

    /// The same, part by part.
    #[cycle(copy)]
    fn copy_deep(&self, alloc: Global) -> Result<Path, OutOfMemory>
        ensures { IfOk result (λ path. path ≡ self.now) }
    {
        let form = match &self.form {
            Form::Atom(name) => Form::Atom(*name),
            Form::Over(name, inner) => Form::Over(*name, *inner),
            Form::Con(name, rest) => Form::Con(*name, Box::new(alloc, rest.copy_deep(alloc)?)?),
            Form::Unit => Form::Unit,
            Form::Left(rest) => Form::Left(Box::new(alloc, rest.copy_deep(alloc)?)?),
            Form::Right(rest) => Form::Right(Box::new(alloc, rest.copy_deep(alloc)?)?),
            Form::From(name, rest) => Form::From(*name, Box::new(alloc, rest.copy_deep(alloc)?)?),
            Form::Arrow(arrow) => {
                let source = arrow.source.copy(alloc)?;
                let target = arrow.target.copy_deep(alloc)?;
                Form::Arrow(Box::new(alloc, Arrow { source, target })?)
            }
            Form::Sealed(name, argument) => {
                Form::Sealed(*name, Box::new(alloc, argument.copy(alloc)?)?)
            }
        };
        Ok(Path { form })
    }
}

impl Nf {
    /// The intersection of no paths, which is omega. Takes no memory.
    pub fn empty(alloc: Global) -> Nf
        ensures { result ≡ [] }
    {
        Nf {
            paths: PathList::empty(alloc),
        }
    }

    /// The intersection of one path. Takes no memory.
    pub fn one(alloc: Global, path: Path) -> Nf
        ensures { result ≡ path ∷ [] }
    {
        // For the prover: opens the model of the path, whose lists are sorted.
        let _ = &path.form;
        Nf {
            paths: PathList::One(path, alloc),
        }
    }

    /// The paths in order.
    pub fn paths(&self) -> &[Path]
        ensures { result.now ≡ self.now }
    {
        self.paths.as_slice()
    }

    /// Puts the paths behind the others, in order. The only error is out of memory.
    pub fn put_into(self, paths: &mut Vec<Path>) -> Result<(), OutOfMemory>
        ensures { OnOk result (paths.new.items ≡ paths.old.items ++ self) }
    {
        match self.paths {
            PathList::One(path, _) => paths.push(path)?,
            PathList::Several(mut more) => paths.append(&mut more)?,
        }
        Ok(())
    }

    /// An intersection equal to this one. The only error is out of memory.
    #[cycle(copy)]
    pub fn copy(&self, alloc: Global) -> Result<Nf, OutOfMemory>
        ensures { IfOk result (λ nf. nf ≡ self.now) }
    {
        let paths = match &self.paths {
            PathList::One(path, _) => {
                // Most paths are names over omega, and need no call.
                let one = match &path.form {
                    Form::Atom(name) => Path::atom(*name),
                    _ => path.copy_deep(alloc)?,
                };
                PathList::One(one, alloc)
            }
            PathList::Several(list) => PathList::Several(copy_all(alloc, list)?),
        };
        Ok(Nf { paths })
    }
}

/// The paths once more.
#[cycle(copy)]
fn copy_all(alloc: Global, list: &Vec<Path>) -> Result<Vec<Path>, OutOfMemory>
    ensures { IfOk result (λ copy. copy.items ≡ list.now.items) }
{
    let mut paths = Vec::with_capacity(alloc, list.len())?;
    for path in list {
        let copy = match &path.form {
            Form::Atom(name) => Path::atom(*name),
            _ => path.copy_deep(alloc)?,
        };
        paths.push(copy)?;
    }
    Ok(paths)
}

/// Puts copies of the paths behind the others, in order.
pub(crate) fn copy_behind(
    alloc: Global,
    more: &[Path],
    paths: &mut Vec<Path>,
) -> Result<(), OutOfMemory>
    ensures { OnOk result (paths.new.items ≡ paths.old.items ++ more.now) }
{
    for path in more {
        paths.push(path.copy(alloc)?)?;
    }
    Ok(())
}
