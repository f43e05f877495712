//! The acts of jobs, as they are made.

ghost use Rattle.std.specs.Prelude.{◌≡◌, ◌∷◌, List, Some};
ghost use Rattle.xrf_history.specs.declared.answer.Answer.{Answer as Told};
ghost use Rattle.xrf_history.specs.declared.settings.Settings.{Settings};
ghost use Rattle.xrf_history.specs.Events.{Event};
ghost use Rattle.xrf_history.specs.Reserving.{last_decision};
ghost use Rattle.xrf_trace.specs.declared.entry.Entry.{Entry as Made};
ghost use Rattle.xrf_trace.specs.Words.{who_at};
ghost use Rattle.xrf_world.specs.Making.{IsHanded, MayMake, inc_of_want};
ghost use Rattle.xrf_world.specs.Seats.{SeatIs, after_want};
ghost use Rattle.xrf_world.specs.Standing.{StandsAt};
ghost use Rattle.xrf_world.specs.Wants.{act_of_want, decide_act};

use crate::middle::Middle;
use crate::place::Place;
use crate::seat::Seat;
use crate::wants::act_of_want;
use xrf_base::{Inc, ItemAnswer, Site};
use xrf_cavm::Decided;
use xrf_history::{Answer, Want};
use xrf_trace::{Act, Entry, Land, Who};

pub(crate) fn who_at(site: Site) -> Who
    ensures { result ≡ who_at site }
{
    match site {
        Site::A => Who::A,
        Site::B => Who::B,
    }
}

pub(crate) fn inc_of_want(want: &Want, inc: Inc) -> Inc
    ensures { result ≡ inc_of_want want.now inc }
{
    match want {
        Want::CtlWrite(written) => { if inc == 0 { written.last() } else { inc } }
        _ => inc,
    }
}

fn decide_act(decided: Option<Decided>) -> Act
    ensures { result ≡ decide_act decided }
{
    match decided {
        Some(decision) => Act::Decide(decision),
        None => Act::NoAct,
    }
}

// the act that is wanted, of the job in a seat: an ITEM takes the item of this number
fn act_of(seat: &Seat, number: u32, want: &Want) -> Act
    ensures { (p : Settings) (h : List Event) → SeatIs seat.now p (Some h) → result ≡ act_of_want number (last_decision h) want.now }
{
    match want {
        Want::Decide => decide_act(seat.decided()),
        Want::Item => Act::Item(number),
        other => act_of_want(other),
    }
}

// a job that has ended is gone
fn vacate_if_ended(seat: &mut Seat, want: &Want)
    ensures { (p : Settings) (h : List Event) → SeatIs seat.old p (Some h) → SeatIs seat.new p (after_want want.now h) }
{
    match want {
        Want::Ended(_) => seat.vacate(),
        _ => {}
    }
}

/// Makes the act of a job that was handed the answer to it: its entry, of this incarnation, joins the journal, and what
/// is to land of it lands. The job gave the item taken last this answer.
#[inline(always)]
pub(crate) fn enter(
    middle: &mut Middle,
    place: &mut Place,
    site: Site,
    want: &Want,
    land: &Land,
    inc: Inc,
    given: Option<ItemAnswer>,
)
    requires { (t : List Made) × (a : Told) × (m : MayMake middle.old.scenario t site want.now land.now a)
        × IsHanded middle.old place.old t site want.now m.job a inc given }
    ensures made { (t : List Made) (a : Told) (m : MayMake middle.old.scenario t site want.now land.now a)
        → IsHanded middle.old place.old t site want.now m.job a inc given → StandsAt middle.new place.new (m.entry ∷ t) site }
    ensures scenario { middle.new.scenario ≡ middle.old.scenario }
{
    let number = place.kept.items.next();
    let entry = Entry {
        tick: middle.counts.tick,
        who: who_at(site),
        inc,
        act: act_of(&place.seat, number, want),
        land: *land,
    };
    vacate_if_ended(&mut place.seat, want);
    middle.follow(&entry);
    place.kept.follow(&entry, given);
}

/// Makes an act that the job at a site wants, lands what is to land of it, and hands the job an answer.
#[inline(always)]
pub(crate) fn make_act(
    answer: &Answer,
    middle: &mut Middle,
    place: &mut Place,
    site: Site,
    want: &Want,
    land: &Land,
)
    requires { (t : List Made) × StandsAt middle.old place.old t site × MayMake middle.old.scenario t site want.now land.now answer.now }
    ensures made { (t : List Made) (m : MayMake middle.old.scenario t site want.now land.now answer.now) → StandsAt middle.old place.old t site
        → StandsAt middle.new place.new (m.entry ∷ t) site }
    ensures scenario { middle.new.scenario ≡ middle.old.scenario }
{
    let inc = inc_of_want(want, place.seat.inc());
    let given = place.seat.take(answer);
    enter(middle, place, site, want, land, inc, given);
}
