ghost use Rattle.std.specs.Prelude.{◌≡◌, ℕ, ◌<◌, ◌≤◌, length, take, OnOk, OnErr, IfOk};
ghost use Rattle.std.specs.Io.KnownBytes.{Appends, Keeps};
ghost use Rattle.cls_base.specs.Outside.{SinkSeen, HasRisen, Holds, Fills};

use crate::source::Failed;

/// Where the bytes of a run go.
pub trait Sink {
    /// What the sink shows of itself: the bytes that were taken so far and how many it is sure to take yet, if it tells
    /// them, and how many writes have failed.
    ghost seen: { Self → SinkSeen };

    /// Takes bytes from the front of the piece, and says how many: at least one if the piece has one.
    fn write(&mut self, piece: &[u8]) -> Result<usize, Failed>
        requires { Holds (seen self.old).room (length piece.now) }
        ensures within { IfOk result (λ n. n ≤ length piece.now) }
        ensures progress { IfOk result (λ n. 0 < length piece.now → 0 < n) }
        ensures bytes { IfOk result (λ n. Appends (seen self.old).held (seen self.new).held (take n piece.now)) }
        ensures room { IfOk result (λ n. Fills (seen self.old).room (seen self.new).room n) }
        ensures no_fault { OnOk result ((seen self.new).faults ≡ (seen self.old).faults) }

        ensures fault { OnErr result (HasRisen (seen self.old).faults (seen self.new).faults) }
        ensures none_written { OnErr result (Keeps (seen self.old).held (seen self.new).held) }
        ensures same_room { OnErr result (Fills (seen self.old).room (seen self.new).room 0) };
}
