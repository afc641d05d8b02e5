//! Numbers names in a table. A table that is full is out of memory.
ghost use Rattle.std.specs.Prelude.{◌≡◌, ◌<◌, length, IfOk, OnOk, OnErr};
ghost use Rattle.cls_lexer.specs.Names.{number_of, with_text};

use cls_base::{Name, OutOfMemory};
use cls_lexer::Names;
use std::alloc::Global;

/// The number of the text. A new one goes last.
#[tactic(auto, using(cls_syntax::proofs::Tables::numbers))]
pub(crate) fn number_name(alloc: Global, names: &mut Names, text: &str) -> Result<Name, OutOfMemory>
    ensures number { IfOk result (λ name. name.0 ≡ number_of names.new text.now) }
    ensures old_number { IfOk result (λ name. name.0 ≡ number_of names.old text.now) }
    ensures table { OnOk result (names.new ≡ with_text names.old text.now) }
    ensures unchanged { OnErr result (names.new ≡ names.old) }
{
    if names.len() >= u32::MAX - 1 {
        return Err(OutOfMemory);
    }
    let name = names.intern(alloc, text)?;
    Ok(name)
}

/// The numbers of two texts. New ones go last, the first of them first.
#[tactic(auto, using(cls_syntax::proofs::Tables::numbers))]
pub(crate) fn number_both(
    alloc: Global,
    names: &mut Names,
    first: &str,
    second: &str,
) -> Result<(Name, Name), OutOfMemory>
    ensures first { IfOk result (λ pair. pair.0.0 ≡ number_of names.new first.now) }
    ensures second { IfOk result (λ pair. pair.1.0 ≡ number_of names.new second.now) }
    ensures table { OnOk result (names.new ≡ with_text (with_text names.old first.now) second.now) }
    ensures unchanged { OnErr result (names.new ≡ names.old) }
{
    let count = names.len();
    let lower = number_name(alloc, names, first)?;
    match number_name(alloc, names, second) {
        Ok(upper) => Ok((lower, upper)),
        Err(error) => {
            names.cut(count);
            Err(error)
        }
    }
}
