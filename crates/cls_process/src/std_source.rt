ghost use Rattle.std.specs.Prelude.{◌≡◌, None};

use cls_base::{Failed, Source};
use std::io::{Read, Stdin};

/// Standard input as a source. It doesn't tell its bytes.
#[derive(Drop)]
pub struct StdSource {
    stdin: Stdin,
    faults: u64,
}

impl StdSource {
    /// The source of the bytes that standard input gives.
    pub fn new(stdin: Stdin) -> StdSource
        ensures { result.faults ≡ 0 }
    {
        StdSource { stdin, faults: 0 }
    }
}

impl Source for StdSource {
    ghost seen = { λ s. record { left = None; last = None; faults = s.faults } };

    /// Reads what standard input has next.
    fn read(&mut self, into: &mut [u8]) -> Result<usize, Failed> {
        match self.stdin.read(into) {
            Ok(count) => Ok(count),
            Err(_) => {
                self.faults = self.faults.saturating_add(1);
                Err(Failed)
            }
        }
    }
}
