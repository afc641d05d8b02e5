//! The numbers that the language fixes, and behind them those by which the program bounds what it keeps, which change no reply.
//! Definitions have the former from `specs/Limits`, and the code has all from here.

/// The most bytes of an input that count. If more come, only the lines that end within these do.
pub const MAX_INPUT_BYTES: usize = 1_048_576;

/// The most bytes that a run reads at once.
pub const MAX_READ_BYTES: usize = 4_096;

/// The most bytes of a line, without its line feed.
pub const MAX_LINE_BYTES: usize = 65_536;

/// The most bytes of a name.
pub const MAX_NAME_BYTES: usize = 48;

/// The most components of a repository.
pub const MAX_COMPONENTS: u32 = 1_000;

/// The most component occurrences of a term that is listed.
pub const MAX_TERM_LENGTH: u64 = 64;

/// The greatest size that a listing may ask for.
pub const MAX_TERM_SIZE: u32 = 1_024;

/// The most terms that a listing may ask for.
pub const MAX_PAGE_TERMS: u32 = 10_000;

/// The most nodes of a type.
pub const MAX_TYPE_NODES: u64 = 1_024;

/// The greatest depth of a type, which is the most parentheses that are open at once in its text.
pub const MAX_TYPE_DEPTH: u64 = 64;

/// The greatest spread of a type.
pub const MAX_TYPE_SPREAD: u64 = 16_384;

/// The most choices of a schema, which are as many as its instances.
pub const MAX_INSTANCES: usize = 4_096;

/// The most nodes of an instance.
pub const MAX_INSTANCE_NODES: u64 = 4_096;

/// The most leading arrows of a path of a component.
pub const MAX_ARITY: usize = 32;

/// The most that the sum of spread + 1 over a library's instances may be.
pub const MAX_LIBRARY_WEIGHT: u64 = 1_000_000;

/// The most bytes of a term's text.
pub const MAX_TEXT_BYTES: usize = 65_536;

/// The greatest number of a hole in a template.
pub const MAX_HOLE: u8 = 16;

/// The most minimal covers of the first paths of a goal by the arrows of a component with one number of arguments. If there
/// are more, the goal is wide.
pub const MAX_COVERS: u32 = 1_024;

/// The greatest cost of a component.
pub const MAX_COST: u32 = 255;

/// The most states of a filter.
pub const MAX_STATES: u32 = 16;

/// The greatest size of a term that is told as a number.
pub const MAX_FINITE_SIZE: u64 = 1_000_000_000;

/// Paths and spreads are counted up to this number, which no library has room for.
pub const SPREAD_CAP: u64 = MAX_LIBRARY_WEIGHT + 1;

/// The greatest number that a generator of test inputs takes.
pub const MAX_GENERATED: u32 = 300;

/// The most goals that a memo holds.
pub const MAX_MEMO_GOALS: usize = 20_000;

/// The most rules of goals together that a memo holds.
pub const MAX_MEMO_RULES: u64 = 1_000_000;

/// The most grammars that are kept for later queries.
pub const MAX_KEPT_GRAMMARS: usize = 64;

/// The most bytes that the kept grammars take together, if there are several: 64 MiB.
pub const MAX_KEPT_BYTES: u64 = 67_108_864;

/// The most goals whose outcomes are kept for later queries.
pub const MAX_KEPT_OUTCOMES: usize = 64;
