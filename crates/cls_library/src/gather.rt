//! The paths and the weight of all instances of a schema.
ghost use Rattle.std.specs.Prelude.{◌≡◌, ◌≤◌, ◌+◌, IfOk, IfErr, OnOk};
ghost use Rattle.cls_base.specs.Schemas.{schema_of};
ghost use Rattle.cls_base.specs.Ty.{type_of};
ghost use Rattle.cls_base.specs.Types.{spread};
ghost use Rattle.cls_kind.specs.Instances.{IsSmall};
ghost use Rattle.cls_kind.specs.Kinds.{HasInstances};
ghost use Rattle.cls_library.specs.Gathered.{HasGathered, PutsForm, RefusesInstance};
ghost use Rattle.cls_library.specs.Libraries.{variances_in};
ghost use Rattle.cls_library.specs.Refusals.{IsAcceptable, RefusesSchema};

use crate::fault::LibraryKind;
use crate::measure::{TOO_MANY, arity};
use cls_base::limits::MAX_LIBRARY_WEIGHT;
use cls_base::{Schema, Ty};
use cls_kind::{Kinds, instances};
use cls_norm::normal;
use cls_path::Path;
use cls_taxon::Taxonomy;
use std::alloc::Global;

/// Paths whose intersection is that of instances, and the weight of these together with earlier ones.
#[derive(Drop)]
pub(crate) struct Gathered {
    pub paths: Vec<Path>,
    pub weight: u64,
}

/// The paths of all instances of the schema, if each is accepted after others of the weight `held`.
pub(crate) fn gather(
    alloc: Global,
    taxonomy: &Taxonomy,
    schema: &Schema,
    kinds: &Kinds,
    held: u64,
) -> Result<Gathered, LibraryKind>
    requires { held ≤ MAX_LIBRARY_WEIGHT }
    ensures gathered { IfOk result (HasGathered taxonomy.now kinds.now held (schema_of schema.now)) }
    ensures instances { OnOk result (HasInstances kinds.now (schema_of schema.now)) }
    ensures refused { IfErr result (RefusesSchema taxonomy.now kinds.now held (schema_of schema.now)) }
{
    let mut paths = Vec::new(alloc);
    let mut weight = held;
    for made in instances(alloc, schema, kinds)? {
        let ty = made?;
        weight = put_instance(alloc, taxonomy, &mut paths, weight, &ty)?;
    }
    Ok(Gathered { paths, weight })
}

/// Puts the paths of an instance behind the others, if it is accepted after others of the weight `held`. Gives the weight
/// of all then.
fn put_instance(
    alloc: Global,
    taxonomy: &Taxonomy,
    paths: &mut Vec<Path>,
    held: u64,
    ty: &Ty,
) -> Result<u64, LibraryKind>
    requires small { IsSmall (type_of ty.now) }
    requires light { held ≤ MAX_LIBRARY_WEIGHT }
    ensures accepted { OnOk result (IsAcceptable (variances_in taxonomy.now) held (type_of ty.now)) }
    ensures weight { IfOk result (λ weight. weight ≡ held + (spread (type_of ty.now) + 1)) }
    ensures paths { OnOk result (PutsForm taxonomy.now (type_of ty.now) paths.old.items paths.new.items) }
    ensures refused { IfErr result (RefusesInstance (variances_in taxonomy.now) held (type_of ty.now)) }
{
    let nf = normal(alloc, taxonomy, ty)?;
    if arity(&nf) == TOO_MANY {
        return Err(LibraryKind::ArityTooLarge);
    }
    let weight = held + (ty.spread() + 1);
    if weight > MAX_LIBRARY_WEIGHT {
        return Err(LibraryKind::LibraryTooLarge);
    }
    nf.put_into(paths)?;
    Ok(weight)
}
