//! Which heads paths may have: a Bloom filter of one hash.
ghost use Rattle.std.specs.Prelude.{◌≡◌, ℕ, List};
ghost use Rattle.cls_path.specs.Paths.{TypePath};
ghost use Rattle.cls_library.specs.Endings.{AreEndings, AreMarked, is_marked};

use crate::ending::{Ending, Head};

/// The number of words of 64 flags.
const WORDS: usize = 16;

/// The flags of heads.
#[derive(Clone, Copy, Debug, PartialEq, Eq)]
pub(crate) struct Marks {
    pub words: [u64; WORDS],
}

impl Marks {
    /// The flags of the heads of the endings, and so of all paths with such endings.
    pub fn of(kinds: &[Ending]) -> Marks
        ensures { (ks : List ℕ) (ps : List TypePath) → AreEndings kinds.now ks ps → AreMarked result.words ps }
    {
        let mut words = [0; WORDS];
        for kind in kinds {
            let mark = kind.head.mark();
            words[(mark / 64) as usize] |= 1 << (mark % 64);
        }
        Marks { words }
    }

    /// Whether the flag of the head is set. If not, it is the head of no path.
    pub fn has(&self, head: Head) -> bool
        ensures { result ≡ is_marked self.now.words head }
    {
        let mark = head.mark();
        let word = self.words[(mark / 64) as usize];
        (word >> (mark % 64)) & 1 == 1
    }
}
