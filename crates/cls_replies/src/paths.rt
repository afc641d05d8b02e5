//! The paths of a component.
ghost use Rattle.std.specs.Prelude.{ℕ, ◌≡◌, ◌≤◌, ◌++◌, codes, drop, length, IfOk, IfSome, OnOk, string_bytes};
ghost use Rattle.cls_path.specs.Paths.{listed};
ghost use Rattle.cls_replies.specs.Rests.{left_at};
ghost use Rattle.cls_replies.specs.Texts.{paths_text, reply_line};

use cls_base::OutOfMemory;
use cls_lexer::Names;
use cls_norm::path_type;
use cls_path::Nf;
use cls_syntax::write_type;
use std::alloc::Global;

/// Writes a line for each path from a place on, and a last one, until the text has enough bytes. Gives the place of the
/// first path that isn't written, and None behind the last line.
#[tactic(auto, using(cls_proof::proofs::Writing::texts))]
pub(crate) fn print_paths(
    alloc: Global,
    names: &Names,
    paths: &Nf,
    from: usize,
    enough: usize,
    text: &mut String,
) -> Result<Option<usize>, OutOfMemory>
    ensures lines { let left = λ (place : ℕ). paths_text names.now (listed (drop place paths.now)) in
        IfOk result (λ next. string_bytes text.new ++ left_at left next ≡ string_bytes text.old ++ left from) }
    ensures full { IfOk result (λ next. IfSome next (λ _. enough ≤ length (string_bytes text.new))) }
{
    let items = paths.paths();
    for place in from..items.len() {
        let written = text.len();
        if written >= enough {
            return Ok(Some(place));
        }
        text.push_str("path ")?;
        write_type(text, names, &path_type(alloc, &items[place])?)?;
        text.push('\n')?;
    }
    write_done(text)?;
    Ok(None)
}

/// Writes the last line of paths at the end.
fn write_done(text: &mut String) -> Result<(), OutOfMemory>
    ensures { OnOk result (string_bytes text.new ≡ string_bytes text.old ++ reply_line (codes "done")) }
{
    text.push_str("done\n")?;
    Ok(())
}
