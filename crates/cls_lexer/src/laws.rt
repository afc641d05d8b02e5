ghost use Rattle.std.specs.Prelude.{◌≡◌, []};
ghost use Rattle.cls_lexer.specs.Lines.{lines_of, ended_lines};
ghost use Rattle.cls_lexer.specs.LineLaws.{CutIsFirst, CutStays, NoneEnded, HeldIsLast, EndedAreFront, EndedStay};
ghost use Rattle.cls_lexer.specs.Spelling.{SpelledOnce, TokensAreLongest, TokensAscend, TokensCover, TokensAreCut};

/// Law: the line that a line feed cuts off is the first line, and stays it whatever follows.
pub fn cut_line_is_first()
    ensures lines { CutIsFirst lines_of }
    ensures ended { CutIsFirst ended_lines }
    ensures stays { CutStays }
{}

/// Law: bytes without a line feed are no ended line, and one line if there are any.
pub fn held_bytes_are_the_last_line()
    ensures none { lines_of [] ≡ [] }
    ensures ended { NoneEnded }
    ensures last { HeldIsLast }
{}

/// Law: the lines are those that a line feed ended, and at most one more. Those that ended stay, whatever follows.
pub fn ended_lines_come_first()
    ensures front { EndedAreFront }
    ensures ended { EndedStay ended_lines }
    ensures lines { EndedStay lines_of }
{}

/// Law: each token of a line is spelled by its kind and by no other, and no longer one begins where it does.
pub fn tokens_are_longest()
    ensures longest { TokensAreLongest }
    ensures once { SpelledOnce }
{}

/// Law: the tokens of a line follow one another, and hold its bytes that aren't blank and no others. Those of a text
/// split no character.
pub fn tokens_cover_the_line()
    ensures ascending { TokensAscend }
    ensures covered { TokensCover }
    ensures cut { TokensAreCut }
{}
