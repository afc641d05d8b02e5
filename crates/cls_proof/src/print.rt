//! The lines of a certificate.
ghost use Rattle.std.specs.Prelude.{◌≡◌, ◌<◌, ◌∷◌, ◌++◌, decimal, string_bytes, OnOk};
ghost use Rattle.cls_base.specs.Ty.{type_of};
ghost use Rattle.cls_proof.specs.Rows.{row_seen};
ghost use Rattle.cls_proof.specs.Texts.{row_text, member_line, block_line, set_text, numbers_text};

use crate::row::RowRef;
use cls_base::{Name, OutOfMemory, Ty};
use cls_lexer::Names;
use cls_syntax::write_type;
use itoa::Buffer;

/// Writes the line of a row at the end. A name or component that isn't in its table is the empty text; so it is in all lines.
#[tactic(auto, using(crate::proofs::Writing::texts))]
pub fn write_row(
    names: &Names,
    components: &Names,
    row: RowRef,
    text: &mut String,
) -> Result<(), OutOfMemory>
    ensures { OnOk result (string_bytes text.new
        ≡ string_bytes text.old ++ row_text names.now components.now (row_seen row.entry)) }
{
    text.push_str("row ")?;
    write_type(text, names, row.goal)?;
    text.push_str(" by ")?;
    text.push_str(components.text(Name(row.component)))?;
    text.push(' ')?;
    write_number(text, row.n)?;
    text.push_str(" :")?;
    write_numbers(text, row.cover)?;
    text.push('\n')?;
    Ok(())
}

/// Writes the first line of a member at the end.
#[tactic(auto, using(crate::proofs::Writing::texts))]
pub fn write_member(names: &Names, goal: &Ty, text: &mut String) -> Result<(), OutOfMemory>
    ensures { OnOk result (string_bytes text.new
        ≡ string_bytes text.old ++ member_line names.now (type_of goal.now)) }
{
    text.push_str("member ")?;
    write_type(text, names, goal)?;
    text.push('\n')?;
    Ok(())
}

/// Writes the first line of a block at the end.
#[tactic(auto, using(crate::proofs::Writing::texts))]
pub fn write_block(
    components: &Names,
    component: u32,
    n: u32,
    text: &mut String,
) -> Result<(), OutOfMemory>
    ensures { OnOk result (string_bytes text.new
        ≡ string_bytes text.old ++ block_line components.now component n) }
{
    text.push_str("block ")?;
    text.push_str(components.text(Name(component)))?;
    text.push(' ')?;
    write_number(text, n)?;
    text.push('\n')?;
    Ok(())
}

/// Writes the line of a set at the end.
#[tactic(auto, using(crate::proofs::Writing::texts))]
pub fn write_set(set: &[u32], text: &mut String) -> Result<(), OutOfMemory>
    ensures { OnOk result (string_bytes text.new ≡ string_bytes text.old ++ set_text set.now) }
{
    text.push_str("set")?;
    write_numbers(text, set)?;
    text.push('\n')?;
    Ok(())
}

/// Writes the numbers at the end, each after a space.
#[tactic(auto, using(crate::proofs::Writing::texts))]
fn write_numbers(text: &mut String, numbers: &[u32]) -> Result<(), OutOfMemory>
    ensures { OnOk result (string_bytes text.new ≡ string_bytes text.old ++ numbers_text numbers.now) }
{
    for number in numbers {
        if *number < 10 {
            text.push_str(spaced_digit(*number))?;
        } else {
            text.push(' ')?;
            write_number(text, *number)?;
        }
    }
    Ok(())
}

/// A space and the digit, as one text: so it is written at once.
fn spaced_digit(digit: u32) -> &'static str
    requires { digit < 10 }
    ensures { result.now ≡ 32 ∷ decimal digit }
{
    match digit {
        0 => " 0",
        1 => " 1",
        2 => " 2",
        3 => " 3",
        4 => " 4",
        5 => " 5",
        6 => " 6",
        7 => " 7",
        8 => " 8",
        _ => " 9",
    }
}

/// Writes the number at the end. Most have one digit.
fn write_number(text: &mut String, number: u32) -> Result<(), OutOfMemory>
    ensures { OnOk result (string_bytes text.new ≡ string_bytes text.old ++ decimal number) }
{
    if number < 10 {
        text.push(char::from(b'0' + number as u8))?;
        return Ok(());
    }
    let mut buffer = Buffer::new();
    text.push_str(buffer.format(number))?;
    Ok(())
}
