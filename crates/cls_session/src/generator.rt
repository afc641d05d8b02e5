//! The text of the generator, written straight into one `String`.
ghost use Rattle.std.specs.Prelude.{◌≡◌, ◌≤◌, ◌++◌, IfOk, OnOk, string_bytes};
ghost use Rattle.cls_session.specs.Generators.{first_lines, numbered, chain_line, side_line, up_to, generated_text};

use cls_base::OutOfMemory;
use itoa::Buffer;
use std::alloc::Global;

/// What is declared for every number.
const DECLARATIONS: &str = "kind a = P | Q\ncomp p : P\ncomp q : $a -> $a\n";

/// The end of the repository, and the queries.
const QUERIES: &str =
    "end\ninhabit T0 & U0\nlist T0 & U0 max 64 take 2\ninhabit T0\ninhabit U0 & P\nsub T0 & U0 <= T0\n";

/// The text of the generator for the number.
pub fn generated_text(alloc: Global, count: u32) -> Result<String, OutOfMemory>
    ensures { IfOk result (λ text. string_bytes text ≡ generated_text count) }
{
    let mut text = String::new(alloc);
    write_first(count, &mut text)?;
    write_chain(count, &mut text)?;
    write_sides(count, &mut text)?;
    text.push_str(QUERIES)?;
    Ok(text)
}

/// Writes the lines before those that are numbered.
fn write_first(count: u32, text: &mut String) -> Result<(), OutOfMemory>
    ensures { OnOk result (string_bytes text.new ≡ string_bytes text.old ++ first_lines count) }
{
    text.push_str(DECLARATIONS)?;
    write_numbered("comp z : T", count, text)?;
    write_numbered(" & U", count, text)?;
    text.push('\n')?;
    Ok(())
}

/// Writes the lines of the chain, from 1 to the number.
fn write_chain(count: u32, text: &mut String) -> Result<(), OutOfMemory>
    ensures { OnOk result (string_bytes text.new ≡ string_bytes text.old ++ up_to chain_line count) }
{
    for number in 0..count {
        write_chain_line(number + 1, text)?;
    }
    Ok(())
}

/// Writes one line of the chain.
fn write_chain_line(number: u32, text: &mut String) -> Result<(), OutOfMemory>
    requires { 1 ≤ number }
    ensures { OnOk result (string_bytes text.new ≡ string_bytes text.old ++ chain_line number) }
{
    write_numbered("comp c", number, text)?;
    write_numbered(" : (T", number, text)?;
    write_numbered(" -> T", number - 1, text)?;
    write_numbered(") & (U", number, text)?;
    write_numbered(" -> U", number - 1, text)?;
    text.push_str(")\n")?;
    Ok(())
}

/// Writes the lines beside the chain, from 1 to the number.
fn write_sides(count: u32, text: &mut String) -> Result<(), OutOfMemory>
    ensures { OnOk result (string_bytes text.new ≡ string_bytes text.old ++ up_to side_line count) }
{
    for number in 0..count {
        write_side_line(number + 1, text)?;
    }
    Ok(())
}

/// Writes one line beside the chain.
fn write_side_line(number: u32, text: &mut String) -> Result<(), OutOfMemory>
    requires { 1 ≤ number }
    ensures { OnOk result (string_bytes text.new ≡ string_bytes text.old ++ side_line number) }
{
    write_numbered("comp d", number, text)?;
    write_numbered(" : T", number, text)?;
    write_numbered(" -> P -> T", number - 1, text)?;
    text.push('\n')?;
    Ok(())
}

/// Writes the words and the number behind them.
fn write_numbered(words: &str, number: u32, text: &mut String) -> Result<(), OutOfMemory>
    ensures { OnOk result (string_bytes text.new ≡ string_bytes text.old ++ numbered words.now number) }
{
    let mut digits = Buffer::new();
    text.push_str(words)?;
    text.push_str(digits.format(number))?;
    Ok(())
}
