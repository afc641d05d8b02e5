//! What is true of every line, as calls that do nothing and promise the law.
ghost use Rattle.cls_query.specs.ChangeLaws.{ChangeErrorsAreDetermined, ChangesAreReadOnce, ChangesAreDecided};
ghost use Rattle.cls_query.specs.Laws.{ErrorsAreDetermined, LinesAreReadOnce, LinesAreDecided};

/// Law: a line has one error at most.
pub fn errors_are_determined()
    ensures { ErrorsAreDetermined }
{}

/// Law: words are a line of the table in one way at most, so they are one query at most.
pub fn lines_are_read_once()
    ensures { LinesAreReadOnce }
{}

/// Law: each line has an error or is a query.
pub fn lines_are_decided()
    ensures { LinesAreDecided }
{}

/// Law: the line of a change has one error at most.
pub fn change_errors_are_determined()
    ensures { ChangeErrorsAreDetermined }
{}

/// Law: words are one change at most.
pub fn changes_are_read_once()
    ensures { ChangesAreReadOnce }
{}

/// Law: each line has an error of a change or is a change.
pub fn changes_are_decided()
    ensures { ChangesAreDecided }
{}
