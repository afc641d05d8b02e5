//! Numbers the names of a type.
ghost use Rattle.std.specs.Prelude.{◌≡◌, IfOk, OnOk, OnErr};
ghost use Rattle.cls_lexer.specs.Names.{number_of, with_text};

use cls_base::{Name, OutOfMemory};
use cls_lexer::Names;
use std::alloc::Global;

/// Numbers the text. A table that is full is out of memory, and after an error the table is as before.
#[tactic(auto, using(crate::proofs::GrowingTables::number_comes))]
pub(crate) fn intern(alloc: Global, names: &mut Names, text: &str) -> Result<Name, OutOfMemory>
    ensures table { OnOk result (names.new ≡ with_text names.old text.now) }
    ensures number { IfOk result (λ name. name.0 ≡ number_of names.new text.now) }
    ensures err { OnErr result (names.new ≡ names.old) }
{
    if names.len() >= u32::MAX - 1 {
        return Err(OutOfMemory);
    }
    names.intern(alloc, text)
}
