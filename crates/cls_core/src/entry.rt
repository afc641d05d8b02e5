ghost use Rattle.std.specs.Prelude.{◌≡◌};

use std::marker::Model;

/// One event of the core machine.
#[derive(Drop, Clone, Copy, Debug, PartialEq, Eq)]
pub enum Entry {
    /// The worker took the row, which was free.
    Claim { worker: u32, row: u32 },
    /// The worker filed the row, which it held.
    File { worker: u32, row: u32 },
}

/// The events in their order, seen as that list. It is made from a `Vec` and gives it back, neither of which takes
/// memory.
#[derive(Drop)]
pub struct History {
    entries: Vec<Entry>,
}

impl Model for History {
    ghost use Rattle.std.specs.Prelude.{List};
    ghost use Rattle.cls_core.specs.declared.entry.Entry.{Entry};

    ghost Value = { List Entry };

    ghost view = { λ h. h.entries.items };
}

impl History {
    /// The history of these events.
    pub fn new(entries: Vec<Entry>) -> History
        ensures { result ≡ entries.items }
    {
        History { entries }
    }

    /// The events as a slice.
    pub fn as_slice(&self) -> &[Entry]
        ensures { result.now ≡ self.now }
    {
        self.entries.as_slice()
    }

    /// The vector of the events.
    pub fn into_vec(self) -> Vec<Entry>
        ensures { result.items ≡ self }
    {
        self.entries
    }
}
