//! A job that was let through: that of an owner, and what its readers are told of the time before.

ghost use Rattle.std.specs.Prelude.{◌≡◌, ◌∷◌, List};
ghost use Rattle.xrf_history.specs.Answers.{event};
ghost use Rattle.xrf_history.specs.Events.{Event};
ghost use Rattle.xrf_history.specs.Working.{item_answer};
ghost use Rattle.xrf_active.specs.Taking.{MayBeHanded};
ghost use Rattle.xrf_standby.specs.LetThrough.{Stands, mode_after, leaves_after};

use xrf_active::Active;
use xrf_base::ItemAnswer;
use xrf_cavm::Mode;
use xrf_history::Answer;

/// The job of an owner that was an alternate.
#[derive(Drop)]
pub struct LetThrough {
    pub(crate) owner: Active,
    // what it went by as an alternate
    pub(crate) mode: Mode,
    // whether it left or had given up its start as an alternate, until it decides as an owner
    pub(crate) is_leaving: bool,
}

impl LetThrough {
    // what it goes by after an answer: a decision without loss of signal ends what the operator was asked
    fn mode_after(&self, answer: &Answer) -> Mode
        ensures { (h : List Event) → Stands self.now h → result ≡ mode_after self.now.owner.settings h answer.now self.now.mode }
    {
        match answer {
            Answer::Decide(_, at) => {
                let is_lost = at.saturating_sub(self.owner.last_change()) >= self.mode.adi;
                Mode {
                    asked: self.mode.asked && is_lost,
                    go: self.mode.go && is_lost,
                    ..self.mode
                }
            }
            _ => self.mode,
        }
    }

    // whether it leaves after an answer: an owner decides of no leave
    fn leaves_after(&self, answer: &Answer) -> bool
        ensures { result ≡ leaves_after answer.now self.now.is_leaving }
    {
        match answer {
            Answer::Decide(..) => false,
            _ => self.is_leaving,
        }
    }

    /// Takes an answer, and gives that of the item that it ends.
    pub(crate) fn take(&mut self, answer: &Answer) -> Option<ItemAnswer>
        requires { (h : List Event) × Stands self.old h × MayBeHanded self.old.owner.settings h answer.now }
        ensures settings { self.new.owner.settings ≡ self.old.owner.settings }
        ensures stands { (h : List Event) → Stands self.old h → MayBeHanded self.old.owner.settings h answer.now → Stands self.new (event self.old.owner.settings h answer.now ∷ h) }
        ensures answer { (h : List Event) → Stands self.old h → MayBeHanded self.old.owner.settings h answer.now → result ≡ item_answer self.old.owner.settings (event self.old.owner.settings h answer.now ∷ h) }
    {
        self.mode = self.mode_after(answer);
        self.is_leaving = self.leaves_after(answer);
        self.owner.take(answer)
    }
}
