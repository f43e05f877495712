//! The law of the messages: the ring of message slots, its sender and its reader, in every run.

ghost use Rattle.xrf_trace.specs.TableIsTracked.{TableIsTracked};
ghost use Rattle.xrf_trace.specs.TerminalsAreTold.{TerminalsAreTold};
ghost use Rattle.xrf_owner_law.specs.Laws.{OfRuns};
ghost use Rattle.xrf_message_law.specs.LastOpened.{OpenHoldLast};
ghost use Rattle.xrf_message_law.specs.MayLand.{SlotsMayLand};
ghost use Rattle.xrf_message_law.specs.Laws.{ListsMayLand, SlotsStand};

/// Of every run of a scenario in its ranges with at most 8,192 entries: the table after each RESTARTED is the one that
/// the messages of its epoch track; what an owner sends tells its terminals, also after a takeover; an open message
/// slot holds the message that was last opened there; and the writes of message slots may land.
pub fn message_law()
    ensures tables { OfRuns TableIsTracked }
    ensures terminals { OfRuns TerminalsAreTold }
    ensures slots { OfRuns (λ s t. OpenHoldLast t) }
    ensures lands { OfRuns SlotsMayLand }
    ensures lists { OfRuns ListsMayLand }
    ensures stand { SlotsStand }
{}
