//! Laws of runs.

ghost use Rattle.xrf_trace.specs.Laws.{RunsAreRuns, TicksAreCounted, TickIsAccepted, RefusalsAreFirst, JournalsTell, BooksAreAtEach, ActsAreAnswered, ActivesAreOne, CommittedStay, BooksGrow, StartsAreWritten};

/// The trace that a list of choices comes to is that of a run, with an entry for each choice. The tick of an
/// entry is the number of ticks up to and with it.
pub fn runs_are_runs()
    ensures runs { RunsAreRuns }
    ensures ticks { TicksAreCounted }
{}

/// A tick is always accepted. A refused choice adds nothing: the choices before it run to the trace at which it
/// is refused.
pub fn refusals_change_nothing()
    ensures tick { TickIsAccepted }
    ensures first { RefusalsAreFirst }
{}

/// The journal of a run determines its choices.
pub fn journals_tell_choices()
    ensures { JournalsTell }
{}

/// The file is the book, said of all its records at once, exactly where it is said of each.
pub fn books_are_at_each()
    ensures { BooksAreAtEach }
{}

/// What an act hands a job is an answer that fits it, and the event in the job's history is that of the answer.
pub fn acts_are_answered()
    ensures { ActsAreAnswered }
{}

/// What is safe and promised comes to: at most one active at every moment; what is committed stays so, and the book
/// grows by committed units alone; and each START of an alternate is by its cause, and where a cause stands it is a START.
pub fn promises_come_to()
    ensures one { ActivesAreOne }
    ensures stay { CommittedStay }
    ensures grow { BooksGrow }
    ensures starts { StartsAreWritten }
{}
