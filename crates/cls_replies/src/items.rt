//! Lists of items that have a line each.
ghost use Rattle.std.specs.Prelude.{◌≡◌, ◌≤◌, ◌++◌, List, ℕ, length, IfOk, IfSome, OnOk, string_bytes};
ghost use Rattle.cls_replies.specs.Printing.{items_left};
ghost use Rattle.cls_replies.specs.Rests.{left_at};

use cls_base::OutOfMemory;

/// What has a line in a reply.
pub(crate) trait Item {
    /// The line.
    ghost line: { Self → List ℕ };

    /// Writes the line at the end.
    fn write_line(&self, text: &mut String) -> Result<(), OutOfMemory>
        ensures { OnOk result (string_bytes text.new ≡ string_bytes text.old ++ line self.now) };
}

/// Writes a line for each item from a place on, and a last one, until the text has enough bytes. Gives the place of the
/// first item that isn't written, and None behind the last line.
pub(crate) fn print_items<T: Item>(
    items: &[T],
    from: usize,
    enough: usize,
    text: &mut String,
) -> Result<Option<usize>, OutOfMemory>
    requires { from ≤ length items.now }
    ensures within { IfOk result (λ next. IfSome next (λ place. place ≤ length items.now)) }
    ensures lines { let left = items_left T.line items.now in
        IfOk result (λ next. string_bytes text.new ++ left_at left next ≡ string_bytes text.old ++ left from) }
    ensures full { IfOk result (λ next. IfSome next (λ _. enough ≤ length (string_bytes text.new))) }
{
    let count = items.len();
    for place in from..count {
        let written = text.len();
        if written >= enough {
            return Ok(Some(place));
        }
        items[place].write_line(text)?;
    }
    text.push_str("done\n")?;
    Ok(None)
}
