use cls_base::Name;
use std::alloc::Global;
use std::marker::Model;

/// A path: a type without intersections on its way to its end. It is seen as a `TypePath`.
///
/// Dropping a path, as each call that goes down it, takes stack by its depth as a tree.
#[cycle(path)]
#[derive(Drop)]
pub struct Path {
    pub(crate) form: Form,
}

/// The seven kinds of path, in their order. Two of them are kept in two ways, so that the shortest take no box, or a small
/// one.
#[cycle(path)]
#[derive(Drop)]
pub enum Form {
    /// A covariant name over omega.
    Atom(Name),
    /// A covariant name over a bare name, which is one over omega.
    Over(Name, Name),
    /// A covariant name over a path.
    Con(Name, Box<Path>),
    /// The product of omega and omega.
    Unit,
    /// The product of a path and omega.
    Left(Box<Path>),
    /// The product of omega and a path.
    Right(Box<Path>),
    /// The functions from a bare name to a path.
    From(Name, Box<Path>),
    /// The functions from an intersection of paths to a path.
    Arrow(Box<Arrow>),
    /// A contravariant or invariant name over an intersection of paths.
    Sealed(Name, Box<Nf>),
}

/// Both parts of a path of functions. They share a box, so that a path itself is two words.
#[cycle(path)]
#[derive(Drop)]
pub struct Arrow {
    /// The intersection of paths that the functions take.
    pub source: Nf,
    /// The path that they give.
    pub target: Path,
}

/// An intersection of paths, seen as the list of them: strictly sorted, as are all lists inside it.
///
/// That no path of it is below another depends on an order of names, and `IsNormal` says it.
#[cycle(path)]
#[derive(Drop)]
pub struct Nf {
    pub(crate) paths: PathList,
}

/// A list of paths. A list of one path, as most are, takes no memory of its own.
#[cycle(path)]
#[derive(Drop)]
pub(crate) enum PathList {
    /// One path, and the allocator for a longer list.
    One(Path, Global),
    /// No path, or at least two.
    Several(Vec<Path>),
}

impl Model for Path {
    ghost use Rattle.cls_path.specs.Paths.{TypePath};
    ghost use Rattle.cls_path.specs.Stored.{coded_path};

    ghost Value = { TypePath };

    ghost coded = { coded_path };

    ghost use Rattle.cls_path.specs.Seen.{path_of};

    ghost view = { λ p. path_of p.form };

    ghost use Rattle.cls_path.specs.NormalForms.{IsSortedPath};

    ghost invariant = { λ p. IsSortedPath (path_of p.form) };

    ghost use Rattle.cls_path.specs.Sizes.{size_of};

    ghost size = { size_of };

    ghost use Rattle.cls_path.specs.Falls.{path_falls};

    ghost size_decreases = { λ p h. path_falls p.form };
}

impl Model for Nf {
    ghost use Rattle.std.specs.Prelude.{List};
    ghost use Rattle.std.specs.Coded.{coded_list};
    ghost use Rattle.cls_path.specs.Paths.{TypePath, listed};
    ghost use Rattle.cls_path.specs.Stored.{coded_path};

    ghost Value = { List TypePath };

    ghost coded = { coded_list coded_path };

    ghost use Rattle.cls_path.specs.Seen.{items_of};

    ghost view = { λ n. items_of n.paths };

    ghost use Rattle.cls_path.specs.NormalForms.{IsSorted};

    ghost invariant = { λ n. IsSorted (listed (items_of n.paths)) };

    ghost use Rattle.cls_path.specs.Sizes.{list_size};

    ghost size = { list_size };

    ghost use Rattle.cls_path.specs.Falls.{list_falls};

    ghost size_decreases = { λ n h. list_falls n.paths };
}
