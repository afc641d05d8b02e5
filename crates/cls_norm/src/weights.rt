//! The number of paths and the spread of the type of a normal form. The type itself isn't made.
ghost use Rattle.std.specs.Prelude.{◌≡◌};
ghost use Rattle.cls_base.specs.Measures.{capped_weight};
ghost use Rattle.cls_path.specs.Paths.{type_of_path, type_of_paths, listed};

use cls_base::limits::SPREAD_CAP;
use cls_path::{Form, Nf, Path};

/// The number of paths of the type of the list before any is dropped, and its spread, each at most [`SPREAD_CAP`].
#[cycle(weight)]
pub(crate) fn list_weight(nf: &Nf) -> (u64, u64)
    ensures { result ≡ capped_weight (type_of_paths (listed nf.now)) }
{
    let mut paths = 0;
    let mut spread = 0;
    for path in nf.paths() {
        let (p, s) = path_weight(path);
        paths = SPREAD_CAP.min(paths + p);
        spread = SPREAD_CAP.min(spread + s);
    }
    (paths, spread)
}

/// The same of the type of a path.
#[cycle(weight)]
fn path_weight(path: &Path) -> (u64, u64)
    ensures { result ≡ capped_weight (type_of_path path.now) }
{
    match path.form() {
        Form::Atom(_) | Form::Unit => (1, 1),
        Form::Over(..) => (1, 2),
        Form::Con(_, rest) | Form::Left(rest) | Form::Right(rest) => {
            let (p, s) = path_weight(rest);
            let paths = p.max(1);
            (paths, SPREAD_CAP.min(s + paths))
        }
        Form::From(_, target) => {
            let (q, t) = path_weight(target);
            (q, SPREAD_CAP.min(t + q * 2))
        }
        Form::Arrow(arrow) => {
            let (_, s) = list_weight(&arrow.source);
            let (q, t) = path_weight(&arrow.target);
            (q, SPREAD_CAP.min(t + q * (1 + s)))
        }
        Form::Sealed(_, argument) => {
            let (p, s) = list_weight(argument);
            let paths = p.max(1);
            (paths, SPREAD_CAP.min(s + paths))
        }
    }
}
