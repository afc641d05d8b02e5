//! With how many arrows paths may begin: a word with one flag for each number.
ghost use Rattle.std.specs.Prelude.{◌≡◌, ◌<◌, ℕ, List};
ghost use Rattle.cls_path.specs.Paths.{TypePath};
ghost use Rattle.cls_library.specs.Endings.{AreDeep, AreEndings, has_depth};

use crate::ending::Ending;
use crate::measure::TOO_MANY;

/// The flags of the numbers from 0 to 33.
#[derive(Clone, Copy, Debug, PartialEq, Eq)]
pub(crate) struct Depths {
    pub word: u64,
}

impl Depths {
    /// The flags of the numbers of arrows of the endings, and so of all paths with such endings.
    pub fn of(kinds: &[Ending]) -> Depths
        ensures { (ks : List ℕ) (ps : List TypePath) → AreEndings kinds.now ks ps → AreDeep result.word ps }
    {
        let mut word = 0;
        for kind in kinds {
            word |= 1 << kind.arrows.min(TOO_MANY);
        }
        Depths { word }
    }

    /// Whether the flag of the number is set. If not, no path begins with so many arrows.
    pub fn has(self, arrows: usize) -> bool
        requires { arrows < 64 }
        ensures { result ≡ has_depth self.word arrows }
    {
        (self.word >> arrows) & 1 == 1
    }
}
