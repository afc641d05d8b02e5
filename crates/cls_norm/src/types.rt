ghost use Rattle.std.specs.Prelude.{◌≡◌, IfOk};
ghost use Rattle.cls_base.specs.Ty as closed;
ghost use Rattle.cls_path.specs.Paths.{type_of_path, type_of_paths, listed};

use cls_base::{OutOfMemory, Ty};
use cls_path::{Form, Nf, Path};
use std::alloc::Global;

/// The type of a normal form: omega, or the intersection of the types of its paths, nested to the left. The only error is
/// out of memory.
#[cycle(type_of)]
pub fn type_of(alloc: Global, nf: &Nf) -> Result<Ty, OutOfMemory>
    ensures { IfOk result (λ ty. closed.type_of ty ≡ type_of_paths (listed nf.now)) }
{
    match nf.paths() {
        [] => Ok(Ty::Omega),
        [first, rest @ ..] => {
            let mut ty = path_type(alloc, first)?;
            for path in rest {
                let next = path_type(alloc, path)?;
                ty = Ty::Meet(Box::new(alloc, (ty, next))?);
            }
            Ok(ty)
        }
    }
}

/// The type of the path. The only error is out of memory.
#[cycle(type_of)]
pub fn path_type(alloc: Global, path: &Path) -> Result<Ty, OutOfMemory>
    ensures { IfOk result (λ ty. closed.type_of ty ≡ type_of_path path.now) }
{
    match path.form() {
        Form::Atom(name) => Ok(Ty::Bare(*name)),
        Form::Over(name, inner) => Ok(Ty::Con(*name, Box::new(alloc, Ty::Bare(*inner))?)),
        Form::Con(name, rest) => {
            let rest = path_type(alloc, rest)?;
            Ok(Ty::Con(*name, Box::new(alloc, rest)?))
        }
        Form::Unit => { Ok(Ty::Prod(Box::new(alloc, (Ty::Omega, Ty::Omega))?)) }
        Form::Left(rest) => {
            let rest = path_type(alloc, rest)?;
            Ok(Ty::Prod(Box::new(alloc, (rest, Ty::Omega))?))
        }
        Form::Right(rest) => {
            let rest = path_type(alloc, rest)?;
            Ok(Ty::Prod(Box::new(alloc, (Ty::Omega, rest))?))
        }
        Form::From(name, target) => {
            let target = path_type(alloc, target)?;
            Ok(Ty::Arrow(Box::new(alloc, (Ty::Bare(*name), target))?))
        }
        Form::Arrow(arrow) => {
            let source = type_of(alloc, &arrow.source)?;
            let target = path_type(alloc, &arrow.target)?;
            Ok(Ty::Arrow(Box::new(alloc, (source, target))?))
        }
        Form::Sealed(name, argument) => {
            let argument = type_of(alloc, argument)?;
            Ok(Ty::over(alloc, *name, argument)?)
        }
    }
}
