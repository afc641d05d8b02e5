//! Writes the text of a term from its code.
ghost use Rattle.std.specs.Prelude.{◌≡◌, ◌++◌, IfOk, OnOk, string_bytes};
ghost use Rattle.cls_term.specs.CodeTexts.{IsWritten, mark_before, mark_behind};
ghost use Rattle.cls_term.specs.Decodes.{BeginsWithTerm};
ghost use Rattle.cls_term.specs.Texts.{name_at};

use cls_base::{Name, OutOfMemory};
use cls_lexer::Names;

/// Writes what stands before the argument at this place.
fn write_before(place: u32, text: &mut String) -> Result<(), OutOfMemory>
    ensures { OnOk result (string_bytes text.new ≡ string_bytes text.old ++ mark_before place) }
{
    if place == 0 {
        text.push('(')?;
    } else {
        text.push_str(", ")?;
    }
    Ok(())
}

/// Writes what stands behind so many arguments.
fn write_behind(count: u32, text: &mut String) -> Result<(), OutOfMemory>
    ensures { OnOk result (string_bytes text.new ≡ string_bytes text.old ++ mark_behind count) }
{
    if count > 0 {
        text.push(')')?;
    }
    Ok(())
}

/// Writes the text of the term with whose code the numbers begin, and gives the numbers behind it.
#[cycle(writing)]
pub(crate) fn write_term<'a>(
    code: &'a [u32],
    components: &Names,
    text: &mut String,
) -> Result<&'a [u32], OutOfMemory>
    requires { BeginsWithTerm code.now }
    ensures { IfOk result (λ rest. IsWritten (name_at components.now) code.now rest.now
        (string_bytes text.old) (string_bytes text.new)) }
{
    text.push_str(components.text(Name(code[0])))?;
    let mut rest = &code[2..];
    for place in 0..code[1] {
        write_before(place, text)?;
        rest = write_term(rest, components, text)?;
    }
    write_behind(code[1], text)?;
    Ok(rest)
}
