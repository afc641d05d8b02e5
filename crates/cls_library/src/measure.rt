//! With how many arrows a path begins.
ghost use Rattle.std.specs.Prelude.{◌≡◌, min};
ghost use Rattle.cls_path.specs.Paths.{listed};
ghost use Rattle.cls_library.specs.Arrows.{leading_arrows, arity_of};

use cls_base::limits::MAX_ARITY;
use cls_path::{Form, Nf, Path};

/// One more than the greatest number of arguments that a component takes.
pub(crate) const TOO_MANY: usize = MAX_ARITY + 1;

/// The greatest number of leading arrows of a path, or 33 if it is greater.
pub(crate) fn arity(nf: &Nf) -> usize
    ensures { result ≡ min TOO_MANY (arity_of (listed nf.now)) }
{
    let mut arity = 0;
    for path in nf.paths() {
        arity = leading_arrows(path).max(arity);
    }
    arity
}

/// The number of arrows that the path begins with, or 33 if there are more.
pub(crate) fn leading_arrows(path: &Path) -> usize
    ensures { result ≡ min TOO_MANY (leading_arrows path.now) }
{
    match path.form() {
        Form::From(_, target) => TOO_MANY.min(leading_arrows(target) + 1),
        Form::Arrow(arrow) => TOO_MANY.min(leading_arrows(&arrow.target) + 1),
        _ => 0,
    }
}
