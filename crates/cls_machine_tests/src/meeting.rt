//! A gate that holds one worker until another makes a claim.
use cls_base::Gate;
use std::sync::atomic::AtomicU64;
use std::sync::atomic::Ordering::SeqCst;
use std::thread::yield_now;

/// Holds the maker of one claim until the next one is made, for so many turns at most, and keeps who made which claim.
#[derive(Drop)]
pub struct Meeting {
    held: u64,
    next: AtomicU64,
    calls: AtomicU64,
    turns: u64,
    makers: [AtomicU64; 4],
}

impl Meeting {
    /// Holds the maker of the claim with this number.
    pub fn new(held: u64, turns: u64) -> Meeting {
        Meeting {
            held,
            next: AtomicU64::new(0),
            calls: AtomicU64::new(0),
            turns,
            makers: [
                AtomicU64::new(9),
                AtomicU64::new(9),
                AtomicU64::new(9),
                AtomicU64::new(9),
            ],
        }
    }

    pub fn maker(&self, nth: usize) -> u64 {
        match self.makers.as_slice().get(nth) {
            Some(by) => by.load(SeqCst),
            None => 9,
        }
    }

    pub fn calls(&self) -> u64 {
        self.calls.load(SeqCst)
    }
}

impl Gate for Meeting {
    fn at_claim(&self, worker: u32, nth: u64) {
        self.calls.fetch_add(1, SeqCst);
        if nth < 4 {
            self.makers[nth as usize].store(u64::from(worker), SeqCst);
        }
        if nth > 0 && nth - 1 == self.held {
            self.next.store(1, SeqCst);
        }
        if nth == self.held {
            for _ in 0..self.turns {
                if self.next.load(SeqCst) == 1 {
                    return;
                }
                yield_now();
            }
        }
    }
}
