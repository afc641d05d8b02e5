ghost use Rattle.std.specs.Prelude.{◌≡◌, ◌↔◌, IfOk, IsTrue};
ghost use Rattle.std.specs.List.{list_all};
ghost use Rattle.cls_base.specs.Types.{nodes};
ghost use Rattle.cls_path.specs.Paths.{type_of_path, type_of_paths, listed};
ghost use Rattle.cls_norm.specs.Fit.{IsFit, is_name, up_to_fit};

use crate::types::type_of;
use crate::weights::list_weight;
use cls_base::OutOfMemory;
use cls_base::limits::{MAX_TYPE_DEPTH, MAX_TYPE_NODES, MAX_TYPE_SPREAD};
use cls_path::{Form, Nf, Path};
use std::alloc::Global;

/// One more than the greatest number of nodes that is fit.
const TOO_MANY: u64 = MAX_TYPE_NODES + 1;

/// A type of at most so many nodes keeps the limits of depth and spread too: its spread is below 2 to the power of its nodes.
const FEW: u64 = 13;

/// The most bare names of which the type is fit. Each has two nodes, and an intersection stands between neighbours.
/// So many keep the limits of spread and depth too: the spread is their number, and the text has no parentheses.
const MAX_NAMES: usize = (TOO_MANY / 3) as usize;

/// Whether the type of the normal form keeps the limits of nodes, depth and spread. The only error is out of memory.
///
/// Most lists are of bare names alone, and there the length tells. Of others the nodes are counted first, so no type of
/// many nodes is made, however long the list. None is made for the spread, nor for the depth of a type of few nodes, as
/// it is no deeper than it has nodes.
pub fn fit(alloc: Global, nf: &Nf) -> Result<bool, OutOfMemory>
    ensures { IfOk result (λ answer. IsTrue answer ↔ IsFit (type_of_paths (listed nf.now))) }
{
    let paths = nf.paths();
    if are_names(paths) {
        return Ok(paths.len() <= MAX_NAMES);
    }
    let nodes = list_nodes(nf);
    if nodes <= FEW {
        return Ok(true);
    }
    if nodes == TOO_MANY {
        return Ok(false);
    }
    let (_, spread) = list_weight(nf);
    if spread > MAX_TYPE_SPREAD {
        return Ok(false);
    }
    if nodes <= MAX_TYPE_DEPTH {
        return Ok(true);
    }
    let ty = type_of(alloc, nf)?;
    Ok(ty.depth() <= MAX_TYPE_DEPTH)
}

/// Whether the paths are bare names.
fn are_names(paths: &[Path]) -> bool
    ensures { result ≡ list_all is_name paths.now }
{
    paths.iter().all(|path| is_name(path))
}

/// Whether the path is a bare name.
fn is_name(path: &Path) -> bool
    ensures { result ≡ is_name path.now }
{
    matches!(path.form(), Form::Atom(_))
}

/// The number of nodes of the type of the list, or [`TOO_MANY`] if there are more.
#[cycle(nodes)]
fn list_nodes(nf: &Nf) -> u64
    ensures { result ≡ up_to_fit (nodes (type_of_paths (listed nf.now))) }
{
    match nf.paths() {
        [] => 1,
        [first, rest @ ..] => {
            let mut count = path_nodes(first);
            for path in rest {
                if count == TOO_MANY {
                    return count;
                }
                count = TOO_MANY.min(count + 1 + path_nodes(path));
            }
            count
        }
    }
}

/// The number of nodes of the type of the path, or [`TOO_MANY`] if there are more.
#[cycle(nodes)]
fn path_nodes(path: &Path) -> u64
    ensures { result ≡ up_to_fit (nodes (type_of_path path.now)) }
{
    match path.form() {
        Form::Atom(_) => 2,
        Form::Over(..) => 3,
        Form::Con(_, rest) => TOO_MANY.min(1 + path_nodes(rest)),
        Form::Unit => 3,
        Form::Left(rest) | Form::Right(rest) => TOO_MANY.min(2 + path_nodes(rest)),
        Form::From(_, target) => TOO_MANY.min(3 + path_nodes(target)),
        Form::Arrow(arrow) => TOO_MANY.min(
            1 + list_nodes(&arrow.source) + path_nodes(&arrow.target),
        ),
        Form::Sealed(_, argument) => TOO_MANY.min(1 + list_nodes(argument)),
    }
}
