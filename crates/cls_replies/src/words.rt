//! Replies of one line.
ghost use Rattle.std.specs.Prelude.{◌≡◌, [], if◌then◌else◌, IfOk, string_bytes};
ghost use Rattle.cls_engine.specs.declared.verdict.Verdict.TheVariants.{Refused};
ghost use Rattle.cls_replies.specs.Texts.{reply_line, reason_word, verdict_text};

use cls_base::OutOfMemory;
use cls_check::Reason;
use cls_engine::Verdict;
use itoa::Buffer;
use std::alloc::Global;

/// One of two lines, by whether the answer is yes, in the empty text.
pub(crate) fn says(
    mut text: String,
    yes: bool,
    so: &str,
    not_so: &str,
) -> Result<String, OutOfMemory>
    requires { string_bytes text ≡ [] }
    ensures { IfOk result (λ text. string_bytes text ≡ reply_line (if yes then so.now else not_so.now)) }
{
    text.push_str(if yes { so } else { not_so })?;
    text.push('\n')?;
    Ok(text)
}

/// The line of one word.
pub(crate) fn word_line(alloc: Global, word: &str) -> Result<String, OutOfMemory>
    ensures { IfOk result (λ text. string_bytes text ≡ reply_line word.now) }
{
    let mut text = String::from_str(alloc, word)?;
    text.push('\n')?;
    Ok(text)
}

/// What is found of a certificate.
pub(crate) fn verdict_line(alloc: Global, verdict: Verdict) -> Result<String, OutOfMemory>
    ensures { IfOk result (λ text. string_bytes text ≡ verdict_text verdict) }
{
    match verdict {
        Verdict::Accepted => Ok(String::from_str(alloc, "accepted\n")?),
        Verdict::Refused { row, reason } => refused_line(alloc, row, reason),
    }
}

/// The row or member that fails a test, and the test.
fn refused_line(alloc: Global, row: u32, reason: Reason) -> Result<String, OutOfMemory>
    ensures { IfOk result (λ text. string_bytes text ≡ verdict_text (Refused row reason)) }
{
    let mut buffer = Buffer::new();
    let mut text = String::from_str(alloc, "refused ")?;
    text.push_str(buffer.format(row))?;
    text.push(' ')?;
    text.push_str(reason_word(reason))?;
    text.push('\n')?;
    Ok(text)
}

/// The word of the test that a certificate fails.
fn reason_word(reason: Reason) -> &'static str
    ensures { result.now ≡ reason_word reason }
{
    match reason {
        Reason::Arrow => "arrow",
        Reason::Target => "target",
        Reason::Argument => "argument",
        Reason::Goal => "goal",
        Reason::Layers => "layers",
        Reason::Unblocked => "unblocked",
    }
}
