//! The choices that reach a job: ABEND, REPLY, CEBT and EXIT.

ghost use Rattle.std.specs.Prelude.{◌≡◌, List, None, Ok};
ghost use Rattle.xrf_setup.specs.declared.choice.Choice.{Choice as Chosen};
ghost use Rattle.xrf_setup.specs.declared.choice.Choice.TheVariants as choice;
ghost use Rattle.xrf_trace.specs.declared.entry.Entry.{Entry as Made};
ghost use Rattle.xrf_trace.specs.Refusals.{refusal};
ghost use Rattle.xrf_world.specs.Making.{MakesAt, IsReached};
ghost use Rattle.xrf_world.specs.Standing.{StandsAt, Goes};

use crate::making::who_at;
use crate::middle::Middle;
use crate::place::Place;
use crate::refused::exit_refused;
use xrf_base::Site;
use xrf_cebt::Cebt;
use xrf_exit::ExitAnswer;
use xrf_history::Answer;
use xrf_trace::{Act, Entry, Land, Refused};

// the job at a site is handed the answer of a choice
fn reach(middle: &mut Middle, place: &mut Place, site: Site, act: Act, answer: &Answer)
    requires { (t : List Made) × (c : Chosen) × StandsAt middle.old place.old t site × IsReached middle.old.scenario t site act answer.now c }
    ensures { (t : List Made) (c : Chosen) → StandsAt middle.old place.old t site → IsReached middle.old.scenario t site act answer.now c
        → MakesAt middle.old place.old t site c (Ok tt) middle.new place.new }
{
    let entry = Entry {
        tick: middle.counts.tick,
        who: who_at(site),
        inc: place.seat.inc(),
        act,
        land: Land::Full,
    };
    place.seat.take(answer);
    middle.follow(&entry);
    place.kept.follow(&entry, None);
}

/// ABEND.
pub(crate) fn abend(middle: &mut Middle, place: &mut Place, site: Site) -> Result<(), Refused>
    requires { (t : List Made) × StandsAt middle.old place.old t site × Goes middle.old.scenario t }
    ensures { (t : List Made) → StandsAt middle.old place.old t site → Goes middle.old.scenario t
        → MakesAt middle.old place.old t site (choice.Abend site) result middle.new place.new }
{
    if !place.seat.may_abend() {
        return Err(Refused::NotEnabled);
    }
    reach(middle, place, site, Act::Abend, &Answer::Abend);
    Ok(())
}

/// REPLY: GO, or IGNORE.
pub(crate) fn reply(
    middle: &mut Middle,
    place: &mut Place,
    site: Site,
    go: bool,
) -> Result<(), Refused>
    requires { (t : List Made) × StandsAt middle.old place.old t site × Goes middle.old.scenario t }
    ensures { (t : List Made) → StandsAt middle.old place.old t site → Goes middle.old.scenario t
        → MakesAt middle.old place.old t site (choice.Reply site go) result middle.new place.new }
{
    if !place.seat.may_reply() {
        return Err(Refused::NotEnabled);
    }
    let at = middle.counts.tick;
    reach(middle, place, site, Act::Reply(go), &Answer::Reply(go, at));
    Ok(())
}

/// CEBT.
pub(crate) fn command(
    middle: &mut Middle,
    place: &mut Place,
    site: Site,
    command: Cebt,
) -> Result<(), Refused>
    requires { (t : List Made) × StandsAt middle.old place.old t site × Goes middle.old.scenario t }
    ensures { (t : List Made) → StandsAt middle.old place.old t site → Goes middle.old.scenario t
        → MakesAt middle.old place.old t site (choice.Cebt site command) result middle.new place.new }
{
    if !place.seat.may_command() {
        return Err(Refused::NotEnabled);
    }
    let at = middle.counts.tick;
    let reply = place.seat.reply(command);
    reach(
        middle,
        place,
        site,
        Act::Cebt(command, reply),
        &Answer::Cebt(command, at),
    );
    Ok(())
}

/// An EXIT that is not refused.
pub(crate) fn exit_said(middle: &mut Middle, place: &mut Place, site: Site, said: ExitAnswer)
    requires { (t : List Made) × StandsAt middle.old place.old t site × Goes middle.old.scenario t
        × (refusal middle.old.scenario t (choice.Exit site said) ≡ None) }
    ensures { (t : List Made) → StandsAt middle.old place.old t site → Goes middle.old.scenario t
        → refusal middle.old.scenario t (choice.Exit site said) ≡ None
        → MakesAt middle.old place.old t site (choice.Exit site said) (Ok tt) middle.new place.new }
{
    let at = middle.counts.tick;
    reach(
        middle,
        place,
        site,
        Act::Exit(said),
        &Answer::Exit(said, at),
    );
}

/// EXIT.
pub(crate) fn exit(
    middle: &mut Middle,
    place: &mut Place,
    site: Site,
    said: ExitAnswer,
) -> Result<(), Refused>
    requires { (t : List Made) × StandsAt middle.old place.old t site × Goes middle.old.scenario t }
    ensures { (t : List Made) → StandsAt middle.old place.old t site → Goes middle.old.scenario t
        → MakesAt middle.old place.old t site (choice.Exit site said) result middle.new place.new }
{
    match exit_refused(place.seat.notice(), said) {
        Some(reason) => Err(reason),
        None => {
            exit_said(middle, place, site, said);
            Ok(())
        }
    }
}
