//! That service is back where an alternate, or a start in place, is served: by when, and with what.

ghost use Rattle.xrf_service.specs.Service.{RestartsBringBack, StartsBringBack, TakeoversBringBack, TakeoversBringBackBy};

/// Of every run of at most 8,192 entries: where a part of it has the restart of an incarnation, at that moment the file holds
/// exactly what the committed units put, no unit is in flight, and the terminals are those that the messages of the
/// incarnation's epoch track, settled. A part that serves an alternate which can start a takeover, beside an owner that is over, has it before
/// TICK ADI + 3, and within so many acts; one that serves a start in place has it before its first TICK.
pub fn service_is_back()
    ensures restarts { RestartsBringBack }
    ensures takeovers { TakeoversBringBack }
    ensures takeovers_by { TakeoversBringBackBy }
    ensures starts { StartsBringBack }
{}
