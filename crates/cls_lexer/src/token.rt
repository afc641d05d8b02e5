ghost use Rattle.std.specs.Prelude.{◌≡◌, IsTrue};
ghost use Rattle.cls_lexer.specs.declared.token.TokenKind.TheVariants.{Number};
ghost use Rattle.cls_lexer.specs.Numerals.{is_numeral};

/// What a token is.
#[derive(Clone, Copy, Debug, PartialEq, Eq)]
pub enum TokenKind {
    /// An ASCII letter or `_`, then letters, digits or `_`: at most [`MAX_NAME_BYTES`](cls_base::limits::MAX_NAME_BYTES) bytes.
    Name,
    /// A run of decimal digits, however long.
    Number,
    /// `->`
    To,
    /// `&`
    And,
    /// `*`
    Times,
    /// `(`
    Open,
    /// `)`
    Close,
    /// `,`
    Comma,
    /// `$`
    Dollar,
    /// `:`
    Colon,
    /// `=`
    Equals,
    /// `|`
    Bar,
    /// `<=`
    AtMost,
    /// A run of name characters that is too long for a name, or any other single character.
    Bad,
}

/// A token of a line.
#[derive(Clone, Copy, Debug)]
pub struct Token<'a> {
    /// Its bytes.
    pub text: &'a str,
    /// How many bytes of the line stand in front of the token.
    pub start: u32,
    /// What the token is.
    pub kind: TokenKind,
    // A number's text is decimal digits, at least one.
    pub ghost digits: { kind ≡ Number → IsTrue (is_numeral text.now) },
}
