ghost use Rattle.std.specs.Prelude.{◌≡◌, ℕ, ◌<◌, ◌≤◌, length, take, OnOk, OnErr, IfOk, IfSome};
ghost use Rattle.std.specs.Io.KnownBytes.{Consumes, IsAtEnd, Keeps};
ghost use Rattle.cls_base.specs.Outside.{SourceSeen, HasRisen};

/// A read or a write failed.
#[derive(Clone, Copy, Debug, PartialEq, Eq)]
pub struct Failed;

/// Where the bytes of a run come from.
pub trait Source {
    /// What the source shows of itself: the bytes that are left and those that the last read gave, if it tells them, and how
    /// many reads have failed.
    ghost seen: { Self → SourceSeen };

    /// Reads the next bytes into the front of `into`, and says how many there are.
    ///
    /// A read that fails takes no byte from the source, but it may leave other bytes in `into` than stood there. (Not
    /// every source can promise more: standard input can't.)
    fn read(&mut self, into: &mut [u8]) -> Result<usize, Failed>
        ensures within { IfOk result (λ n. n ≤ length into.new) }
        // What was read are the next bytes, and is left no longer.
        ensures bytes { IfOk result (λ n. Consumes (seen self.old).left (seen self.new).left (take n into.new)) }
        ensures last { IfOk result (λ n. IfSome (seen self.new).last (λ given. given ≡ take n into.new)) }
        // If there is room for a byte, none comes at the end alone.
        ensures end { IfOk result (λ n. n ≡ 0 → 0 < length into.old → IsAtEnd (seen self.new).left) }
        ensures no_fault { OnOk result ((seen self.new).faults ≡ (seen self.old).faults) }

        ensures fault { OnErr result (HasRisen (seen self.old).faults (seen self.new).faults) }
        ensures none_read { OnErr result (Keeps (seen self.old).left (seen self.new).left) }
        ensures none_given { OnErr result ((seen self.new).last ≡ (seen self.old).last) };
}
