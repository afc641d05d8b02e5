//! The text of a term.
ghost use Rattle.std.specs.Prelude.{◌≡◌, ◌<◌, ◌≤◌, ◌↔◌, ◌++◌, Err, length, IfOk, OnOk, string_bytes};
ghost use Rattle.cls_base.specs.Limits.{max_text_bytes, max_hole};
ghost use Rattle.cls_term.specs.Components.{greatest_of, greatest_in};
ghost use Rattle.cls_assemble.specs.Spans.{AreWritten};
ghost use Rattle.cls_assemble.specs.Texts.{text_by, texts_by, argument_text, surplus_from};

use crate::fault::TextFault;
use crate::length::text_length;
use crate::templates::Templates;
use cls_base::OutOfMemory;
use cls_base::limits::{MAX_HOLE, MAX_TEXT_BYTES};
use cls_term::Term;
use std::alloc::Global;

/// Where the text of an argument stands in the text that is made.
#[derive(Clone, Copy)]
pub(crate) struct Span {
    pub(crate) start: usize,
    pub(crate) end: usize,
}

/// The text of the term: its head's template, in which hole i is replaced by the text of the ith argument, or by `_` if
/// there is none. Each argument whose number is over the greatest hole follows in parentheses. An argument up to the
/// greatest hole that has no hole is dropped.
///
/// `TextTooLong` comes if and only if that text has more than 65,536 bytes, which is known before memory is taken. The
/// other error is out of memory. A part of the term that stands at a hole twice is written once and then copied, so the
/// work is that of the term, its templates and the bytes of the text. The calls nest as deep as the term.
pub fn text_of(alloc: Global, templates: &Templates, term: &Term) -> Result<String, TextFault>
    requires { greatest_of term.now < length templates.now }
    ensures text { IfOk result (λ text. string_bytes text ≡ text_by templates.now term.now) }
    ensures too_long { (result ≡ Err TextFault.TextTooLong)
        ↔ (max_text_bytes < length (text_by templates.now term.now)) }
{
    let length = text_length(templates, term);
    if length > MAX_TEXT_BYTES {
        return Err(TextFault::TextTooLong);
    }
    let mut text = String::with_capacity(alloc, length)?;
    write(templates, term, &mut text)?;
    Ok(text)
}

#[cycle(write)]
#[tactic(auto, using(crate::proofs::Writing::writing))]
fn write(templates: &Templates, term: &Term, text: &mut String) -> Result<(), OutOfMemory>
    requires { greatest_of term.now < length templates.now }
    ensures { OnOk result (string_bytes text.new ≡ string_bytes text.old ++ text_by templates.now term.now) }
{
    let template = &templates.as_slice()[term.head as usize];
    let arguments = term.args.as_slice();
    let greatest = template.greatest();
    let mut spans = [None; MAX_HOLE as usize];
    for segment in &template.segments {
        text.push_str(segment.text.as_str())?;
        write_hole(templates, arguments, segment.number, &mut spans, text)?;
    }
    text.push_str(template.tail.as_str())?;
    write_surplus(templates, arguments, greatest, text)?;
    Ok(())
}

/// Writes the text of the argument with this number, or copies it from where it stands.
#[cycle(write)]
#[tactic(auto, using(crate::proofs::Writing::writing))]
fn write_hole(
    templates: &Templates,
    arguments: &[Term],
    number: u8,
    spans: &mut [Option<Span>; 16],
    text: &mut String,
) -> Result<(), OutOfMemory>
    requires named { greatest_in arguments.now < length templates.now }
    requires least { 1 ≤ number }
    requires most { number ≤ max_hole }
    requires written { AreWritten (texts_by templates.now arguments.now) spans.old (string_bytes text.old) }
    ensures text { OnOk result (string_bytes text.new
        ≡ string_bytes text.old ++ argument_text (texts_by templates.now arguments.now) number) }
    ensures written { OnOk result
        (AreWritten (texts_by templates.now arguments.now) spans.new (string_bytes text.new)) }
{
    let index = usize::from(number) - 1;
    if index >= arguments.len() {
        text.push_str("_")?;
        return Ok(());
    }
    if let Some(span) = spans[index] {
        text.extend_from_within(span.start..span.end)?;
        return Ok(());
    }
    let start = text.len();
    write(templates, &arguments[index], text)?;
    spans[index] = Some(Span {
        start,
        end: text.len(),
    });
    Ok(())
}

/// Writes each argument from this place on in its parentheses.
#[cycle(write)]
#[tactic(auto, using(crate::proofs::Writing::writing))]
fn write_surplus(
    templates: &Templates,
    arguments: &[Term],
    from: usize,
    text: &mut String,
) -> Result<(), OutOfMemory>
    requires { greatest_in arguments.now < length templates.now }
    ensures { OnOk result (string_bytes text.new
        ≡ string_bytes text.old ++ surplus_from from (texts_by templates.now arguments.now)) }
{
    for i in from..arguments.len() {
        text.push_str("(")?;
        write(templates, &arguments[i], text)?;
        text.push_str(")")?;
    }
    Ok(())
}
