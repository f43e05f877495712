//! STEP, LOSE and FAIL: a job makes its next act, in full, with a signal that is lost, or with a device that fails.

ghost use Rattle.std.specs.Prelude.{◌≡◌, false, List, Ok};
ghost use Rattle.xrf_history.specs.declared.answer.Answer.TheVariants as answers;
ghost use Rattle.xrf_history.specs.declared.want.Want.TheVariants as wants;
ghost use Rattle.xrf_history.specs.Events.{Event};
ghost use Rattle.xrf_setup.specs.declared.choice.Choice.{Choice};
ghost use Rattle.xrf_setup.specs.declared.choice.Choice.TheVariants as choice;
ghost use Rattle.xrf_trace.specs.declared.entry.Entry.{Entry as Made};
ghost use Rattle.xrf_trace.specs.Handing.{answer_of};
ghost use Rattle.xrf_trace.specs.Words.{now, reserve_is_free};
ghost use Rattle.xrf_world.specs.Making.{MakesAt, IsMade};
ghost use Rattle.xrf_world.specs.Standing.{StandsAt, Goes};
ghost use Rattle.xrf_world.specs.Wants.{reads_block};

use crate::making::{enter, make_act};
use crate::middle::Middle;
use crate::place::Place;
use crate::reading::{block_answer, is_only_done};
use crate::refused::fail_refused;
use crate::wants::{is_signal, may_make};
use xrf_base::Site;
use xrf_history::{Answer, Want};
use xrf_setup::Landing;
use xrf_trace::{Land, Refused};

// a block of the log is read
fn make_block_read(middle: &mut Middle, place: &mut Place, site: Site, block: u32, land: &Land)
    requires { (t : List Made) × (c : Choice) × StandsAt middle.old place.old t site × IsMade middle.old.scenario t site (wants.LogRead block) land.now c }
    ensures { (t : List Made) (c : Choice) → StandsAt middle.old place.old t site → IsMade middle.old.scenario t site (wants.LogRead block) land.now c
        → MakesAt middle.old place.old t site c (Ok tt) middle.new place.new }
{
    let want = Want::LogRead(block);
    let bytes = &mut middle.block;
    let answer = block_answer(&middle.data_sets, block, place.seat.has_read, bytes);
    let inc = place.seat.inc();
    let given = place.seat.take(&answer);
    enter(middle, place, site, &want, land, inc, given);
}

// an act is made of which its job is told that it is done
#[inline(always)]
fn make_done(middle: &mut Middle, place: &mut Place, site: Site, want: &Want, land: &Land)
    requires { (t : List Made) × (c : Choice) × StandsAt middle.old place.old t site × IsMade middle.old.scenario t site want.now land.now c
        × ((h : List Event) → answer_of middle.old.scenario t site h want.now ≡ answers.Done (now t)) }
    ensures { (t : List Made) (c : Choice) → StandsAt middle.old place.old t site → IsMade middle.old.scenario t site want.now land.now c
        → ((h : List Event) → answer_of middle.old.scenario t site h want.now ≡ answers.Done (now t)) → MakesAt middle.old place.old t site c (Ok tt) middle.new place.new }
{
    let at = middle.counts.tick;
    make_act(&Answer::Done(at), middle, place, site, want, land);
}

// an act is made of which its job is told more, and no block of the log
#[inline(always)]
fn make_told(middle: &mut Middle, place: &mut Place, site: Site, want: &Want, land: &Land)
    requires small { reads_block want.now ≡ false }
    requires made { (t : List Made) × (c : Choice) × StandsAt middle.old place.old t site × IsMade middle.old.scenario t site want.now land.now c }
    ensures { (t : List Made) (c : Choice) → StandsAt middle.old place.old t site → IsMade middle.old.scenario t site want.now land.now c
        → MakesAt middle.old place.old t site c (Ok tt) middle.new place.new }
{
    make_act(
        &middle.answer(place, site, want),
        middle,
        place,
        site,
        want,
        land,
    );
}

// the next act, in full or as a signal that is lost
#[inline(always)]
fn make_next(middle: &mut Middle, place: &mut Place, site: Site, want: &Want, land: &Land)
    requires { (t : List Made) × (c : Choice) × StandsAt middle.old place.old t site × IsMade middle.old.scenario t site want.now land.now c }
    ensures { (t : List Made) (c : Choice) → StandsAt middle.old place.old t site → IsMade middle.old.scenario t site want.now land.now c
        → MakesAt middle.old place.old t site c (Ok tt) middle.new place.new }
{
    if is_only_done(want) {
        return make_done(middle, place, site, want, land);
    }
    match want {
        Want::LogRead(block) => make_block_read(middle, place, site, *block, land),
        _ => make_told(middle, place, site, want, land),
    }
}

// STEP where a job is there
fn step_of_job(
    middle: &mut Middle,
    place: &mut Place,
    site: Site,
    is_free: bool,
) -> Result<(), Refused>
    requires { (t : List Made) × StandsAt middle.old place.old t site × Goes middle.old.scenario t × (is_free ≡ reserve_is_free t) }
    ensures { (t : List Made) → StandsAt middle.old place.old t site → Goes middle.old.scenario t → is_free ≡ reserve_is_free t
        → MakesAt middle.old place.old t site (choice.Step site) result middle.new place.new }
{
    let want = place.seat.job.want();
    if !may_make(is_free, place.has_left(&middle.scenario, site), &want) {
        return Err(Refused::NotEnabled);
    }
    make_next(middle, place, site, &want, &Land::Full);
    Ok(())
}

/// STEP, the reserve being free or not.
pub(crate) fn step(
    middle: &mut Middle,
    place: &mut Place,
    site: Site,
    is_free: bool,
) -> Result<(), Refused>
    requires { (t : List Made) × StandsAt middle.old place.old t site × Goes middle.old.scenario t × (is_free ≡ reserve_is_free t) }
    ensures { (t : List Made) → StandsAt middle.old place.old t site → Goes middle.old.scenario t → is_free ≡ reserve_is_free t
        → MakesAt middle.old place.old t site (choice.Step site) result middle.new place.new }
{
    if !place.seat.has_job() {
        return Err(Refused::NotEnabled);
    }
    step_of_job(middle, place, site, is_free)
}

/// LOSE.
pub(crate) fn lose(middle: &mut Middle, place: &mut Place, site: Site) -> Result<(), Refused>
    requires { (t : List Made) × StandsAt middle.old place.old t site × Goes middle.old.scenario t }
    ensures { (t : List Made) → StandsAt middle.old place.old t site → Goes middle.old.scenario t
        → MakesAt middle.old place.old t site (choice.Lose site) result middle.new place.new }
{
    let want = place.seat.job.want();
    if !is_signal(&want) {
        return Err(Refused::NotEnabled);
    }
    make_next(middle, place, site, &want, &Land::Lost);
    Ok(())
}

/// FAIL.
pub(crate) fn fail(
    middle: &mut Middle,
    place: &mut Place,
    site: Site,
    cut: &Landing,
) -> Result<(), Refused>
    requires { (t : List Made) × StandsAt middle.old place.old t site × Goes middle.old.scenario t }
    ensures { (t : List Made) → StandsAt middle.old place.old t site → Goes middle.old.scenario t
        → MakesAt middle.old place.old t site (choice.Fail site cut.now) result middle.new place.new }
{
    let want = place.seat.job.want();
    match fail_refused(cut, &want) {
        Some(reason) => Err(reason),
        None => {
            let at = middle.counts.tick;
            make_act(
                &Answer::Failed(at),
                middle,
                place,
                site,
                &want,
                &Land::Fail(*cut),
            );
            Ok(())
        }
    }
}
