//! What is true of all lines of repositories, as calls that do nothing and promise the law.
ghost use Rattle.cls_repo.specs.Laws.{LinesSayOneThing, ReadingsAreDetermined, FaultsAreDetermined, RepositoriesHaveNoFault};

/// Law: a line says one thing at most.
pub fn lines_say_one_thing()
    ensures { LinesSayOneThing }
{}

/// Law: lines that are taken in turn are taken in one way.
pub fn readings_are_determined()
    ensures { ReadingsAreDetermined }
{}

/// Law: lines have one first fault at most.
pub fn faults_are_determined()
    ensures { FaultsAreDetermined }
{}

/// Law: lines that are a repository have no first fault.
pub fn repositories_have_no_fault()
    ensures { RepositoriesHaveNoFault }
{}
