//! Why lines are no repository.
ghost use Rattle.std.specs.Prelude.{◌≡◌, IfOk, string_bytes};
ghost use Rattle.cls_repo.specs.FaultWords.{fault_words, is_out_of_memory};
ghost use Rattle.cls_repo.specs.declared.fault.FaultKind.TheVariants as kinds;

use cls_base::OutOfMemory;
use std::alloc::{AllocError, Global};
use thiserror::Error;

/// The first fault of the lines of a repository.
#[derive(Debug, Drop, Error)]
#[error("line {line} is at fault: {kind}")]
pub struct RepoFault {
    /// The number of the line, from 1. A repository without the line `end` is at fault at its last line, which has
    /// number 0 if there is none.
    pub line: u32,
    /// What is wrong.
    pub kind: FaultKind,
}

/// What is wrong with a line or with a repository. The kinds of a line are listed in the order in which they are
/// tested, and then those of a repository.
#[derive(Debug, Drop, Error)]
pub enum FaultKind {
    /// The line has more than [`MAX_LINE_BYTES`](cls_base::limits::MAX_LINE_BYTES) bytes.
    #[error("the line is too long")]
    LineTooLong,
    /// The line isn't UTF-8.
    #[error("the line is not UTF-8")]
    NotUtf8,
    /// The first word is none with which a line of a repository begins.
    #[error("no such directive")]
    UnknownDirective,
    /// More than [`MAX_TYPE_DEPTH`](cls_base::limits::MAX_TYPE_DEPTH) parentheses are open at once.
    #[error("too many open parentheses")]
    TooDeep,
    /// No line of a repository goes on with the token at this byte or, at the line's length, none ends there.
    #[error("unexpected token at byte {0}")]
    Unexpected(u32),
    /// The token at this byte is `omega`, where a name could stand.
    #[error("reserved name at byte {0}")]
    ReservedName(u32),
    /// A type has more than [`MAX_TYPE_NODES`](cls_base::limits::MAX_TYPE_NODES) nodes.
    #[error("too many nodes")]
    TooManyNodes,
    /// A component of this name is declared already.
    #[error("component {0} is declared already")]
    DuplicateComponent(String),
    /// The variable of this name has a kind already.
    #[error("variable {0} has a kind already")]
    DuplicateKind(String),
    /// The kind of this variable has no type.
    #[error("the kind of {0} is empty")]
    EmptyKind(String),
    /// A kind has a variable, the first one behind the `$` at this byte.
    #[error("a variable in a kind at byte {0}")]
    KindHasVariable(u32),
    /// No component of this name is declared.
    #[error("component {0} is not declared")]
    UnknownComponent(String),
    /// A brace or a backslash of a template begins nothing that a template may have. It stands at this byte of the
    /// line.
    #[error("a brace or a backslash stands alone at byte {0}")]
    BadHole(u32),
    /// The hole at this byte of the line has the number 0.
    #[error("a hole has the number 0 at byte {0}")]
    HoleZero(u32),
    /// The hole at this byte of the line has a number over 16.
    #[error("a hole has a number over 16 at byte {0}")]
    HoleOver16(u32),
    /// The cost of this component is not from 1 to 255.
    #[error("the cost of {0} is out of its range")]
    CostOutOfRange(String),
    /// The constructor of this name has a variance already.
    #[error("constructor {0} has a variance already")]
    DuplicateVariance(String),
    /// No filter of this name is declared.
    #[error("filter {0} is not declared")]
    UnknownFilter(String),
    /// A filter of this name is declared already.
    #[error("filter {0} is declared already")]
    DuplicateFilter(String),
    /// The filter of this name would have more than [`MAX_STATES`](cls_base::limits::MAX_STATES) states.
    #[error("filter {0} has too many states")]
    TooManyStates(String),
    /// No line is `end`.
    #[error("no line ends the repository")]
    NoEnd,
    /// Another constructor is above and below the one of this name, which has the least number of all such.
    #[error("constructor {0} is above and below another one")]
    Cycle(String),
    /// The constructor of this name is below one of another variance. It stands first in the first such pair.
    #[error("constructor {0} is below one of another variance")]
    VarianceMix(String),
    /// There are more than [`MAX_COMPONENTS`](cls_base::limits::MAX_COMPONENTS) components.
    #[error("too many components")]
    TooManyComponents,
    /// The instances of the components weigh more than
    /// [`MAX_LIBRARY_WEIGHT`](cls_base::limits::MAX_LIBRARY_WEIGHT).
    #[error("the library is too large")]
    LibraryTooLarge,
    /// The variable of this name has no kind.
    #[error("variable {0} has no kind")]
    UnknownVariable(String),
    /// The component of this name has more than [`MAX_INSTANCES`](cls_base::limits::MAX_INSTANCES) instances.
    #[error("component {0} has too many instances")]
    TooManyInstances(String),
    /// An instance of the component of this name is too large.
    #[error("an instance of component {0} is too large")]
    InstanceTooLarge(String),
    /// A path of the component of this name begins with more than [`MAX_ARITY`](cls_base::limits::MAX_ARITY) arrows.
    #[error("component {0} takes too many arguments")]
    ArityTooLarge(String),
    /// No memory was found.
    #[error("out of memory")]
    OutOfMemory,
}

impl FaultKind {
    /// Whether no memory was found.
    pub(crate) fn is_out_of_memory(&self) -> bool
        ensures { result ≡ is_out_of_memory self.now }
    {
        matches!(self, FaultKind::OutOfMemory)
    }
}

impl RepoFault {
    /// The words that are said of the fault, none of out of memory.
    pub fn words(&self, alloc: Global) -> Result<String, OutOfMemory>
        ensures { IfOk result (λ words. string_bytes words ≡ fault_words self.now.kind) }
    {
        words(alloc, &self.kind)
    }
}

/// The words that are said of the fault, none of out of memory.
pub(crate) fn words(alloc: Global, kind: &FaultKind) -> Result<String, OutOfMemory>
    ensures { IfOk result (λ words. string_bytes words ≡ fault_words kind.now) }
{
    match kind {
        FaultKind::LineTooLong => Ok(String::from_str(alloc, "long")?),
        FaultKind::NotUtf8 => Ok(String::from_str(alloc, "utf8")?),
        FaultKind::UnknownDirective => Ok(String::from_str(alloc, "directive")?),
        FaultKind::TooDeep => Ok(String::from_str(alloc, "deep")?),
        FaultKind::Unexpected(byte) => Ok(format!(in alloc; "syntax {byte}")?),
        FaultKind::ReservedName(byte) => Ok(format!(in alloc; "reserved {byte}")?),
        FaultKind::TooManyNodes => Ok(String::from_str(alloc, "nodes")?),
        FaultKind::DuplicateComponent(name) => Ok(format!(in alloc; "duplicate-component {name}")?),
        FaultKind::DuplicateKind(name) => Ok(format!(in alloc; "duplicate-kind {name}")?),
        FaultKind::EmptyKind(name) => Ok(format!(in alloc; "empty-kind {name}")?),
        FaultKind::KindHasVariable(byte) => Ok(format!(in alloc; "kind-variable {byte}")?),
        FaultKind::UnknownComponent(name) => Ok(format!(in alloc; "unknown-component {name}")?),
        FaultKind::BadHole(byte) => Ok(format!(in alloc; "hole {byte}")?),
        FaultKind::HoleZero(byte) => Ok(format!(in alloc; "hole-zero {byte}")?),
        FaultKind::HoleOver16(byte) => Ok(format!(in alloc; "hole-over {byte}")?),
        FaultKind::CostOutOfRange(name) => Ok(format!(in alloc; "cost {name}")?),
        FaultKind::DuplicateVariance(name) => Ok(format!(in alloc; "duplicate-variance {name}")?),
        FaultKind::UnknownFilter(name) => Ok(format!(in alloc; "unknown-filter {name}")?),
        FaultKind::DuplicateFilter(name) => Ok(format!(in alloc; "duplicate-filter {name}")?),
        FaultKind::TooManyStates(name) => Ok(format!(in alloc; "states {name}")?),
        FaultKind::NoEnd => Ok(String::from_str(alloc, "no-end")?),
        FaultKind::Cycle(name) => Ok(format!(in alloc; "cycle {name}")?),
        FaultKind::VarianceMix(name) => Ok(format!(in alloc; "variance-mix {name}")?),
        FaultKind::TooManyComponents => Ok(String::from_str(alloc, "components")?),
        FaultKind::LibraryTooLarge => Ok(String::from_str(alloc, "library")?),
        FaultKind::UnknownVariable(name) => Ok(format!(in alloc; "variable {name}")?),
        FaultKind::TooManyInstances(name) => Ok(format!(in alloc; "instances {name}")?),
        FaultKind::InstanceTooLarge(name) => Ok(format!(in alloc; "instance {name}")?),
        FaultKind::ArityTooLarge(name) => Ok(format!(in alloc; "arity {name}")?),
        FaultKind::OutOfMemory => Ok(String::new(alloc)),
    }
}

impl From<OutOfMemory> for FaultKind {
    ghost from_gives = { λ _ kind. kind ≡ kinds.OutOfMemory };

    fn from(_: OutOfMemory) -> FaultKind {
        FaultKind::OutOfMemory
    }
}

impl From<AllocError> for FaultKind {
    ghost from_gives = { λ _ kind. kind ≡ kinds.OutOfMemory };

    fn from(_: AllocError) -> FaultKind {
        FaultKind::OutOfMemory
    }
}
