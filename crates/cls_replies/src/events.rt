//! The events of the work on a goal.
ghost use Rattle.std.specs.Prelude.{◌≡◌, [], ◌∷◌, ◌++◌, codes, decimal, OnOk, string_bytes};

use crate::items::Item;
use cls_base::OutOfMemory;
use cls_core::Entry;
use itoa::Buffer;

impl Item for Entry {
    ghost use Rattle.cls_replies.specs.Texts.{event_line};

    ghost line = { event_line };

    fn write_line(&self, text: &mut String) -> Result<(), OutOfMemory> {
        match self {
            Entry::Claim { worker, row } => write_numbers(text, "claim ", *worker, *row),
            Entry::File { worker, row } => write_numbers(text, "file ", *worker, *row),
        }
    }
}

/// Writes the word and the two numbers as a line at the end.
fn write_numbers(text: &mut String, word: &str, first: u32, second: u32) -> Result<(), OutOfMemory>
    ensures { OnOk result (string_bytes text.new
        ≡ string_bytes text.old ++ (word.now ++ decimal first ++ codes " " ++ decimal second) ++ 10 ∷ []) }
{
    let mut buffer = Buffer::new();
    text.push_str(word)?;
    text.push_str(buffer.format(first))?;
    text.push(' ')?;
    text.push_str(buffer.format(second))?;
    text.push('\n')?;
    Ok(())
}
