//! That a takeover comes where the alternate is served, and by when.

ghost use Rattle.xrf_progress.specs.Alone.{AreAccepted, TakeoversAreReached, ThroughsAreReached};
ghost use Rattle.xrf_progress.specs.Blocking.{RestsWhere, StepsNeverBlock};
ghost use Rattle.xrf_progress.specs.InPlace.{StartsAreAtOnce, StartsRestart};
ghost use Rattle.xrf_progress.specs.Operator.{ConfirmsFollow, TakeoversFollow, TakeoversFollowEnd, TakingsFollow};
ghost use Rattle.xrf_progress.specs.Pausing.{SignOffsFollow, TakeoversAreSeen};
ghost use Rattle.xrf_progress.specs.Staying.{AlternatesStay, WhoRestsStays};
ghost use Rattle.xrf_progress.specs.Takeovers.{AsksCome, TakeoversCome, TakeoversEnd, TakingsCome, ThroughsCome, ThroughsEnd};
ghost use Rattle.xrf_progress.specs.Working.{ItemsAreAnswered, ItemsAreTaken};

/// Of every run: a job that has a next act may make it, but for a RESERVE while the other site holds the reserve, and
/// then that site may make its next act. A job has no next act only where it waits for what is named.
pub fn steps_never_block()
    ensures steps { StepsNeverBlock }
    ensures rests { RestsWhere }
{}

/// While the record names a tracking alternate, beside an owner that did not sign off normally, it does not decide to leave,
/// unless its shutdown was commanded; and an alternate that rests does not leave.
pub fn alternates_stay()
    ensures named { AlternatesStay }
    ensures resting { WhoRestsStays }
{}

/// Of every run, and of every part after it that serves an alternate, from any moment on: one that can start a takeover
/// has written its taking before TICK ADI + 2 of the part, and under MANUAL the operator was asked by then; one that can go
/// through has declared its restart before TICK 2; and one that can start beside an owner that is over has declared it
/// before TICK ADI + 3. And so many acts of its own are enough for it.
pub fn takeovers_come()
    ensures takings { TakingsCome }
    ensures asks { AsksCome }
    ensures throughs { ThroughsCome }
    ensures takeovers { TakeoversCome }
    ensures throughs_end { ThroughsEnd }
    ensures takeovers_end { TakeoversEnd }
{}

/// What the operator says is done: of a part that serves an alternate that was told to start, by a command or by GO, its
/// taking is written before TICK 2, and beside an owner that is over its restart is declared before TICK 3. And after a
/// CONFIRM that comes late it is declared before the second TICK.
pub fn operators_are_followed()
    ensures takings { TakingsFollow }
    ensures takeovers { TakeoversFollow }
    ensures takeovers_end { TakeoversFollowEnd }
    ensures confirms { ConfirmsFollow }
{}

/// Where the other site has no job, each choice of a list is accepted in which each is a STEP where the site has a next act,
/// and else a TICK; and so many of them reach the restart.
pub fn takeovers_are_reached()
    ensures accepted { AreAccepted }
    ensures throughs { ThroughsAreReached }
    ensures takeovers { TakeoversAreReached }
{}

/// Of every run, however often a region was stopped before, also within a restart: a START as active that the record grants,
/// with the site served from there on, comes to its restart within so many acts, and before the first TICK.
pub fn starts_restart()
    ensures restarts { StartsRestart }
    ensures at_once { StartsAreAtOnce }
{}

/// An owner that goes on beside a taking sees it with the five acts of its next round; and told to end by the exit, it has
/// signed off with three acts more, so that an alternate that waits can go through.
pub fn owners_give_way()
    ensures seen { TakeoversAreSeen }
    ensures sign_offs { SignOffsFollow }
{}

/// Work goes on: an owner between two sequences, with work left, and room in the ring where it has an alternate, takes its
/// next item within ten acts, and four of a message; and an item that is taken is answered at once or within the acts of its
/// plan.
pub fn work_goes_on()
    ensures taken { ItemsAreTaken }
    ensures answered { ItemsAreAnswered }
{}
