//! What holds of every filter, as calls that do nothing and promise the law.
ghost use Rattle.cls_filter.specs.Laws.{FirstLeavesCount, FirstAppsCount, NamedStatesAccept, OthersKeepTheirStates};

/// Of the lines that match, the first one counts.
pub fn first_lines_count()
    ensures leaves { FirstLeavesCount }
    ensures apps { FirstAppsCount }
{}

/// The accepting states are those that a line names.
pub fn named_states_accept()
    ensures { NamedStatesAccept }
{}

/// Where a component is taken out, each other one keeps its state under its new number.
pub fn others_keep_their_states()
    ensures { OthersKeepTheirStates }
{}
