//! From bytes to lines and tokens, and the numbers of names.
//!
//! - [`LineReader`] cuts a text that comes in [`Piece`]s into its [`Line`]s, the same however it was cut.
//! - [`tokens`] gives the [`Token`]s of a line, each with its text and its place. [`Numeral`] is a number as it is written.
//! - [`Names`] numbers texts in the order in which they first came.
//! - [`laws`] holds what is true of every text, line and token.
//!
//! Inside, `piece` tests bytes that came together for UTF-8 once, and finds their line feeds. `line_reader` keeps what
//! came since the last line feed, and `line` says whether a line can be read, is skipped, or is a text. `scan` cuts a
//! line into tokens in one pass, by the `characters` that a token begins and goes on with; `token` and `numeral` are
//! what it gives. `names` has the texts of names in one column, `texts`, and looks them up by a `text_key`, which is a
//! number for a short text.
#![tactic(auto)]

mod characters;
pub mod laws;
mod line;
mod line_reader;
mod names;
mod numeral;
mod piece;
mod scan;
mod text_key;
mod texts;
mod token;

pub use line::{Line, TextFault};
pub use line_reader::LineReader;
pub use names::Names;
pub use numeral::Numeral;
pub use piece::Piece;
pub use scan::{byte_at, first_token, tokens, tokens_into};
pub use token::{Token, TokenKind};
