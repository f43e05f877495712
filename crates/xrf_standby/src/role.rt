//! What a job that was started as standby is by now.

ghost use Rattle.std.specs.Prelude.{◌≡◌, ◌∷◌, true, false, List};
ghost use Rattle.xrf_history.specs.declared.settings.Settings.{Settings as Set};
ghost use Rattle.xrf_history.specs.Answers.{event};
ghost use Rattle.xrf_history.specs.Events.{Event};
ghost use Rattle.xrf_history.specs.Working.{item_answer};
ghost use Rattle.xrf_active.specs.Taking.{MayBeHanded};
ghost use Rattle.xrf_standby.specs.Standing.{RoleIs, WasHanded};

use crate::alternate::Alternate;
use crate::let_through::LetThrough;
use std::mem::replace;
use xrf_base::ItemAnswer;
use xrf_history::Answer;

/// An alternate, or an owner that was let through.
#[derive(Drop)]
pub enum Role {
    Alternate(Alternate),
    LetThrough(LetThrough),
    /// It is being changed into an owner.
    Moving,
}

// an alternate that has just been handed an answer, by which it may have been let through
fn gone_on(job: Alternate) -> Role
    requires { (p : Set) × (h : List Event) × WasHanded (Role.Alternate job) p h }
    ensures { (p : Set) (h : List Event) → WasHanded (Role.Alternate job) p h → RoleIs result p h }
{
    if job.is_through() {
        Role::LetThrough(job.promote())
    } else {
        Role::Alternate(job)
    }
}

impl Role {
    // it is handed an answer, and gives that of the item that it ends
    fn hand(&mut self, answer: &Answer) -> Option<ItemAnswer>
        requires { (p : Set) × (h : List Event) × RoleIs self.old p h × MayBeHanded p h answer.now }
        ensures stands { (p : Set) (h : List Event) → RoleIs self.old p h → MayBeHanded p h answer.now → WasHanded self.new p (event p h answer.now ∷ h) }
        ensures answer { (p : Set) (h : List Event) → RoleIs self.old p h → MayBeHanded p h answer.now → result ≡ item_answer p (event p h answer.now ∷ h) }
    {
        match self {
            Role::Alternate(job) => job.take(answer),
            Role::LetThrough(job) => job.take(answer),
            Role::Moving => None,
        }
    }

    // whether it is an alternate that was let through
    fn is_through(&self) -> bool
        ensures { (p : Set) (h : List Event) → WasHanded self.now p h → result ≡ false → RoleIs self.now p h }
    {
        match self {
            Role::Alternate(job) => job.is_through(),
            _ => false,
        }
    }

    // an alternate that was let through goes on as an owner
    fn go_on(&mut self)
        requires { (p : Set) × (h : List Event) × WasHanded self.old p h }
        ensures { (p : Set) (h : List Event) → WasHanded self.old p h → RoleIs self.new p h }
    {
        if !self.is_through() {
            return;
        }
        *self = match replace(self, Role::Moving) {
            Role::Alternate(job) => gone_on(job),
            other => other,
        };
    }

    /// Takes an answer, and gives that of the item that it ends.
    pub(crate) fn take(&mut self, answer: &Answer) -> Option<ItemAnswer>
        requires { (p : Set) × (h : List Event) × RoleIs self.old p h × MayBeHanded p h answer.now }
        ensures stands { (p : Set) (h : List Event) → RoleIs self.old p h → MayBeHanded p h answer.now → RoleIs self.new p (event p h answer.now ∷ h) }
        ensures answer { (p : Set) (h : List Event) → RoleIs self.old p h → MayBeHanded p h answer.now → result ≡ item_answer p (event p h answer.now ∷ h) }
    {
        let given = self.hand(answer);
        self.go_on();
        given
    }
}
