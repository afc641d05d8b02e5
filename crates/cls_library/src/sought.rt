//! What a library seeks when it looks for arrows that lead to a path.
ghost use Rattle.std.specs.Prelude.{◌≡◌};
ghost use Rattle.cls_library.specs.Endings.{IsSought};

use crate::ending::Ending;
use cls_path::Path;
use cls_taxon::Taxonomy;

/// The ending of a path, and whether no head but its own may be below it.
#[derive(Clone, Copy, Debug, PartialEq, Eq)]
pub(crate) struct Sought {
    pub ending: Ending,
    pub alone: bool,
}

impl Sought {
    /// What is sought for the path.
    pub fn of(taxonomy: &Taxonomy, path: &Path) -> Sought
        ensures { IsSought taxonomy.now path.now result }
    {
        let ending = Ending::of(path);
        Sought {
            ending,
            alone: ending.head.is_alone(taxonomy),
        }
    }
}
