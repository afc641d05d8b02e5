//! Which of several types some term has.
ghost use Rattle.std.specs.Prelude.{◌≡◌, ◌++◌, [], IfOk, OnOk, string_bytes};
ghost use Rattle.std.specs.List.{flat_map};
ghost use Rattle.cls_replies.specs.Texts.{batch_text, inhabited_line};

use cls_base::OutOfMemory;

/// Writes the line of a type at the end, by whether some term has it.
fn write_one(text: &mut String, yes: bool) -> Result<(), OutOfMemory>
    ensures { OnOk result (string_bytes text.new ≡ string_bytes text.old ++ inhabited_line yes) }
{
    text.push_str(if yes { "inhabited" } else { "uninhabited" })?;
    text.push('\n')?;
    Ok(())
}

/// Writes a line for each type at the end.
fn write_each(text: &mut String, says: &[bool]) -> Result<(), OutOfMemory>
    ensures { OnOk result (string_bytes text.new ≡ string_bytes text.old ++ flat_map inhabited_line says.now) }
{
    for yes in says {
        write_one(text, *yes)?;
    }
    Ok(())
}

/// The lines of the types, of each of which it is said whether some term has it, in the empty text.
pub(crate) fn batch_lines(mut text: String, says: Vec<bool>) -> Result<String, OutOfMemory>
    requires { string_bytes text ≡ [] }
    ensures { IfOk result (λ text. string_bytes text ≡ batch_text says.items) }
{
    write_each(&mut text, says.as_slice())?;
    text.push_str("done\n")?;
    Ok(text)
}
