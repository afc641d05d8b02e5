ghost use Rattle.std.specs.Prelude.{◌≡◌, None};

use cls_base::{Failed, Sink};
use std::io::{Stdout, Write};

/// Standard output as a sink. It tells neither what it was given nor its room.
#[derive(Drop)]
pub struct StdSink {
    stdout: Stdout,
    faults: u64,
}

impl StdSink {
    /// The sink that gives its bytes to standard output.
    pub fn new(stdout: Stdout) -> StdSink
        ensures { result.faults ≡ 0 }
    {
        StdSink { stdout, faults: 0 }
    }
}

impl Sink for StdSink {
    ghost seen = { λ s. record { held = None; room = None; faults = s.faults } };

    /// Writes from the front of the piece. That nothing is taken of a piece with bytes is a fault too.
    fn write(&mut self, piece: &[u8]) -> Result<usize, Failed> {
        match self.stdout.write(piece) {
            Ok(count) if count > 0 || piece.is_empty() => Ok(count),
            _ => {
                self.faults = self.faults.saturating_add(1);
                Err(Failed)
            }
        }
    }
}
