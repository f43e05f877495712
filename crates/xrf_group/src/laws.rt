//! What holds of every run of a group.

ghost use Rattle.xrf_group.specs.Theorem.{GroupsKeep, PlacesOne};

/// The trace of each pair of a group is the run of its own choices, safe, and keeps the promises. An alternate of a
/// dependent starts its takeover by command only behind an order that was given to its job, and that stands behind a line
/// of the command list of pair 1, which stands behind the takeover of pair 1. No more orders are given than placed. A
/// pair in COMMAND mode starts by command alone. A line of the command list places an order for one pair at most.
pub fn groups_keep()
    ensures keep { GroupsKeep }
    ensures one { PlacesOne }
{}
