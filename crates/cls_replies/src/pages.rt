//! Pages of terms.
ghost use Rattle.std.specs.Prelude.{◌≡◌, ◌++◌, ◌<◌, ◌≤◌, if◌then◌else◌, All, codes, decimal, length, IfOk, IfSome, OnOk, string_bytes};
ghost use Rattle.cls_base.specs.Terms.{IsTermOver};
ghost use Rattle.cls_term.specs.Banks.{at};
ghost use Rattle.cls_term.specs.Texts.{name_at};
ghost use Rattle.cls_assemble.specs.Texts.{text_by};
ghost use Rattle.cls_replies.specs.Printing.{page_left};
ghost use Rattle.cls_replies.specs.Rests.{left_at};
ghost use Rattle.cls_replies.specs.Texts.{reply_line, assembled_lines, term_line, term_lines};

use cls_assemble::{Templates, TextFault, text_of};
use cls_base::OutOfMemory;
use cls_enum::Page;
use cls_lexer::Names;
use cls_term::{CodedTerms, Term};
use itoa::Buffer;
use std::alloc::Global;

/// Writes a line for each term of the page from a place on, and a last one that says whether more terms follow, until the text
/// has enough bytes. Gives the place of the first term that isn't written, and None behind the last line.
pub(crate) fn print_terms(
    alloc: Global,
    page: &Page,
    from: usize,
    components: &Names,
    enough: usize,
    text: &mut String,
) -> Result<Option<usize>, OutOfMemory>
    requires { from ≤ length page.now.terms }
    ensures within { IfOk result (λ next. IfSome next (λ place. place ≤ length page.now.terms)) }
    ensures lines { let left = page_left (term_line (name_at components.now)) page.now in
        IfOk result (λ next. string_bytes text.new ++ left_at left next ≡ string_bytes text.old ++ left from) }
    ensures full { IfOk result (λ next. IfSome next (λ _. enough ≤ length (string_bytes text.new))) }
{
    let terms = &page.terms;
    let next = terms.write_lines(alloc, "term ", components, from, enough, text)?;
    let count = terms.len();
    if next < count {
        return Ok(Some(next));
    }
    write_more(page.more, text)?;
    Ok(None)
}

/// The same, with the text of each term by the templates behind its line.
#[tactic(auto, using(crate::proofs::Terms::lines))]
pub(crate) fn print_texts(
    alloc: Global,
    page: &Page,
    from: usize,
    components: &Names,
    templates: &Templates,
    enough: usize,
    text: &mut String,
) -> Result<Option<usize>, OutOfMemory>
    requires named { All (IsTermOver (length components.now)) page.now.terms }
    requires written { length templates.now ≡ length components.now }
    ensures within { IfOk result (λ next. IfSome next (λ place. place ≤ length page.now.terms)) }
    ensures lines { let left = page_left (term_lines (name_at components.now) templates.now) page.now in
        IfOk result (λ next. string_bytes text.new ++ left_at left next ≡ string_bytes text.old ++ left from) }
    ensures full { IfOk result (λ next. IfSome next (λ _. enough ≤ length (string_bytes text.new))) }
{
    let count = page.terms.len();
    for place in from..count {
        let written = text.len();
        if written >= enough {
            return Ok(Some(place));
        }
        write_term(&page.terms, place, components, text)?;
        let term = page.terms.term(alloc, place)?;
        write_assembled(alloc, &term, templates, text)?;
    }
    write_more(page.more, text)?;
    Ok(None)
}

/// Writes the last line of a page at the end.
fn write_more(more: bool, text: &mut String) -> Result<(), OutOfMemory>
    ensures { OnOk result (string_bytes text.new
        ≡ string_bytes text.old ++ reply_line (if more then codes "more" else codes "done")) }
{
    text.push_str(if more { "more\n" } else { "done\n" })?;
    Ok(())
}

/// Writes the line of the term at a place at the end.
fn write_term(
    terms: &CodedTerms,
    place: usize,
    components: &Names,
    text: &mut String,
) -> Result<(), OutOfMemory>
    requires { place < length terms.now }
    ensures { OnOk result (string_bytes text.new
        ≡ string_bytes text.old ++ term_line (name_at components.now) (at terms.now place)) }
{
    text.push_str("term ")?;
    terms.write_to(place, components, text)?;
    text.push('\n')?;
    Ok(())
}

/// Writes the text of the term by the templates at the end, or that it is too long.
fn write_assembled(
    alloc: Global,
    term: &Term,
    templates: &Templates,
    text: &mut String,
) -> Result<(), OutOfMemory>
    requires { IsTermOver (length templates.now) term.now }
    ensures { OnOk result (string_bytes text.new
        ≡ string_bytes text.old ++ assembled_lines (text_by templates.now term.now)) }
{
    match text_of(alloc, templates, term) {
        Ok(assembled) => write_counted(assembled.as_str(), text),
        Err(TextFault::TextTooLong) => {
            text.push_str("long\n")?;
            Ok(())
        }
        Err(TextFault::OutOfMemory) => Err(OutOfMemory),
    }
}

/// Writes the length of the text and the text itself, each with a line feed, at the end.
fn write_counted(assembled: &str, text: &mut String) -> Result<(), OutOfMemory>
    ensures { OnOk result (string_bytes text.new ≡ string_bytes text.old
        ++ (reply_line (codes "text " ++ decimal (length assembled.now)) ++ reply_line assembled.now)) }
{
    let mut buffer = Buffer::new();
    text.push_str("text ")?;
    text.push_str(buffer.format(assembled.len()))?;
    text.push('\n')?;
    text.push_str(assembled)?;
    text.push('\n')?;
    Ok(())
}
