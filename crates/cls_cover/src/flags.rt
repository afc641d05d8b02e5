ghost use Rattle.std.specs.Prelude.{◌≡◌, ℕ, ◌+◌, ◌/◌, ◌<◌, ◌↔◌, ◌⊎◌, IfOk, IsTrue, length, replicate};
ghost use Rattle.cls_cover.specs.Flags.{bit, AreShared, AreSharedApart, AreJoined};

use cls_base::OutOfMemory;
use smallvec::SmallVec;
use std::alloc::Global;
use std::marker::Model;

/// Flags, one for each family, 64 in a word. Up to 64 of them take no memory of their own.
#[derive(Drop)]
pub(crate) struct Flags {
    words: SmallVec<u64, 1>,
}

impl Model for Flags {
    ghost use Rattle.std.specs.Prelude.{List, ℕ};

    ghost Value = { List ℕ };

    ghost view = { λ f. f.words.items };
}

impl Flags {
    /// So many flags, and up to 64 more, of which none is set.
    pub(crate) fn none(alloc: Global, count: usize) -> Result<Flags, OutOfMemory>
        ensures { IfOk result (λ flags. flags ≡ replicate (count / 64 + 1) 0) }
    {
        if count < 64 {
            return Ok(Flags {
                words: SmallVec::from_buf(alloc, [0]),
            });
        }
        Ok(Flags {
            words: SmallVec::from_elem(alloc, 0, count / 64 + 1)?,
        })
    }

    /// The same flags once more.
    pub(crate) fn copy(&self, alloc: Global) -> Result<Flags, OutOfMemory>
        ensures { IfOk result (λ flags. flags ≡ self.now) }
    {
        if let [word] = self.as_slice() {
            return Ok(Flags {
                words: SmallVec::from_buf(alloc, [*word]),
            });
        }
        Ok(Flags {
            words: SmallVec::from_slice(alloc, self.as_slice())?,
        })
    }

    /// Sets a flag.
    pub(crate) fn set(&mut self, f: usize)
        requires { f / 64 < length self.old }
        ensures len { length self.new ≡ length self.old }
        ensures flags { (g : ℕ) → IsTrue (bit self.new g) ↔ (IsTrue (bit self.old g) ⊎ (g ≡ f)) }
    {
        let words = self.words.as_mut_slice();
        words[f / 64] |= 1 << (f % 64);
    }

    /// Whether the flag is set.
    pub(crate) fn has(&self, f: usize) -> bool
        requires { f / 64 < length self.now }
        ensures { result ≡ bit self.now f }
    {
        (self.as_slice()[f / 64] >> (f % 64)) & 1 == 1
    }

    fn as_slice(&self) -> &[u64]
        ensures { result.now ≡ self.now }
    {
        self.words.as_slice()
    }

    /// Whether the same flags are set.
    pub(crate) fn is_same(&self, other: &Flags) -> bool
        ensures { IsTrue result → self.now ≡ other.now }
    {
        self.as_slice() == other.as_slice()
    }
}

/// Whether a flag is set in all three.
pub(crate) fn are_shared(once: &Flags, front: &Flags, row: &Flags) -> bool
    requires front { length front.now ≡ length once.now }
    requires row { length row.now ≡ length once.now }
    ensures { IsTrue result ↔ AreShared once.now front.now row.now }
{
    let once = once.as_slice();
    let front = front.as_slice();
    let row = row.as_slice();
    for i in 0..once.len() {
        if once[i] & front[i] & row[i] != 0 {
            return true;
        }
    }
    false
}

/// Whether a flag is set in the first three that isn't set in the last one.
pub(crate) fn are_shared_apart(once: &Flags, front: &Flags, row: &Flags, other: &Flags) -> bool
    requires front { length front.now ≡ length once.now }
    requires row { length row.now ≡ length once.now }
    requires other { length other.now ≡ length once.now }
    ensures { IsTrue result ↔ AreSharedApart once.now front.now row.now other.now }
{
    let once = once.as_slice();
    let front = front.as_slice();
    let row = row.as_slice();
    let other = other.as_slice();
    for i in 0..once.len() {
        if once[i] & front[i] & row[i] & !other[i] != 0 {
            return true;
        }
    }
    false
}

/// Sets the flags of what is met where a position with this row joins, and of what is met once.
pub(crate) fn join_flags(once: &mut Flags, met: &mut Flags, row: &Flags)
    requires once { length once.old ≡ length row.now }
    requires met { length met.old ≡ length row.now }
    ensures once_len { length once.new ≡ length once.old }
    ensures met_len { length met.new ≡ length met.old }
    ensures joined { AreJoined once.old met.old row.now once.new met.new }
{
    join_words(
        once.words.as_mut_slice(),
        met.words.as_mut_slice(),
        row.as_slice(),
    );
}

/// The same over the words.
fn join_words(once: &mut [u64], met: &mut [u64], row: &[u64])
    requires once { length once.old ≡ length row.now }
    requires met { length met.old ≡ length row.now }
    ensures once_len { length once.new ≡ length once.old }
    ensures met_len { length met.new ≡ length met.old }
    ensures joined { AreJoined once.old met.old row.now once.new met.new }
{
    for i in 0..row.len() {
        once[i] = (once[i] | row[i]) & !(met[i] & row[i]);
        met[i] |= row[i];
    }
}
