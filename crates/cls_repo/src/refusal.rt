//! Why a component is refused that is to be added to a library.
ghost use Rattle.std.specs.Prelude.{◌≡◌, Some, IfOk, string_bytes};
ghost use Rattle.cls_repo.specs.EndFaults.{library_words};

use crate::fault::words;
use crate::repository::library_fault;
use cls_base::OutOfMemory;
use cls_lexer::Names;
use cls_library::LibraryKind;
use std::alloc::Global;

/// The words that say why a component of this name is refused, by the names of variables. The only error is out of
/// memory, which is also the answer where that is why.
pub fn refusal_words(
    alloc: Global,
    variables: &Names,
    component: &str,
    kind: LibraryKind,
) -> Result<String, OutOfMemory>
    ensures { IfOk result (λ words. library_words variables.now component.now kind ≡ Some (string_bytes words)) }
{
    let fault = library_fault(alloc, variables, component, kind);
    if fault.is_out_of_memory() {
        return Err(OutOfMemory);
    }
    words(alloc, &fault)
}
