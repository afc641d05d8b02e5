//! What holds of the language, as calls that do nothing and promise the law.
ghost use Rattle.cls_session.specs.Commands.{CommandsAreOne};
ghost use Rattle.cls_session.specs.Laws.{FaultsAgree, RepositoriesAreAnswered};

/// Words ask for at most one command, and its numbers are within their ranges.
pub fn commands_are_one()
    ensures { CommandsAreOne }
{}

/// Law: a repository with the line `end` and lines after it, of at most 1,048,576 bytes, is answered with the status `Done`.
pub fn repositories_are_answered()
    ensures { RepositoriesAreAnswered }
{}

/// Law: the fault that a session says of lines is the first one that the reader of repositories finds in them.
pub fn faults_agree()
    ensures { FaultsAgree }
{}
