//! How an alternate takes what its acts, ticks and choices give.

ghost use Rattle.std.specs.Prelude.{◌≡◌, ◌<◌, ◌≤◌, ◌∷◌, List, true, false, length};
ghost use Rattle.xrf_history.specs.declared.answer.Answer.{Answer as An};
ghost use Rattle.xrf_history.specs.Events.{Event, Looked1, Looked2};
ghost use Rattle.xrf_history.specs.Holding.{is_owner};
ghost use Rattle.xrf_history.specs.Looking.{change};
ghost use Rattle.xrf_history.specs.Answers.{is_plain, fits, made, event};
ghost use Rattle.xrf_history.specs.Working.{item_answer};
ghost use Rattle.xrf_history.specs.Next.{next};
ghost use Rattle.xrf_job.specs.declared.stage.Stage.{Stage as At};
ghost use Rattle.xrf_active.specs.Taking.{MayBeHanded};
ghost use Rattle.xrf_standby.specs.Alternate.{Stands};

use crate::alternate::Alternate;
use crate::due::Due;
use xrf_base::{ItemAnswer, Tick};
use xrf_ctl::{Control, Signal};
use xrf_history::Answer;
use xrf_job::Stage;

impl Alternate {
    /// Takes an answer. It ends no item, since an alternate takes none.
    pub(crate) fn take(&mut self, answer: &Answer) -> Option<ItemAnswer>
        requires { (h : List Event) × Stands self.old h × (is_owner h ≡ false) × MayBeHanded self.old.settings h answer.now }
        ensures settings { self.new.settings ≡ self.old.settings }
        ensures stands { (h : List Event) → Stands self.old h → is_owner h ≡ false → MayBeHanded self.old.settings h answer.now → Stands self.new (event self.old.settings h answer.now ∷ h) }
        ensures answer { (h : List Event) → Stands self.old h → is_owner h ≡ false → MayBeHanded self.old.settings h answer.now → result ≡ item_answer self.old.settings (event self.old.settings h answer.now ∷ h) }
    {
        self.handed(answer);
        None
    }

    // an answer is handed
    fn handed(&mut self, answer: &Answer)
        requires { (h : List Event) × Stands self.old h × (is_owner h ≡ false) × MayBeHanded self.old.settings h answer.now }
        ensures settings { self.new.settings ≡ self.old.settings }
        ensures stands { (h : List Event) → Stands self.old h → is_owner h ≡ false → MayBeHanded self.old.settings h answer.now → Stands self.new (event self.old.settings h answer.now ∷ h) }
    {
        match answer {
            Answer::Tick(_) => self.ticked(),
            Answer::Done(_) => self.done(),
            Answer::Ctl(held, known) => self.control_read(held, *known),
            Answer::Look1(held, signal) => self.look1_handed(held, signal),
            Answer::Look2(signal, at) => self.look2_handed(signal, *at),
            Answer::Decide(known, at) => self.decision_made(*known, *at),
            Answer::MsgSlot(slot) => self.slot_read(slot),
            Answer::Reply(go, at) => self.replied(*go, *at),
            Answer::Cebt(command, at) => self.commanded(*command, *at),
            Answer::Failed(_) => self.read_failed(),
            // answers of acts that an owner alone makes, and choices that reach an owner alone
            Answer::LogBlock(_) => {}
            Answer::Anchored(..) => {}
            Answer::Gate(_) => {}
            Answer::FileSlot(_) => {}
            Answer::Item(_) => {}
            Answer::Exit(..) => {}
            Answer::Abend => {}
        }
    }

    fn stage(&self) -> Stage
        ensures { result ≡ self.now.common.stage }
    {
        self.common.stage
    }

    // an act is made that is answered by the tick alone
    #[tactic(auto, using(crate::proofs::Acts::inside_act))]
    fn done(&mut self)
        requires { (h : List Event) × Stands self.old h × (is_owner h ≡ false) × (length h < 16385) × (is_plain (next self.old.settings h) ≡ true) }
        ensures settings { self.new.settings ≡ self.old.settings }
        ensures stands { (h : List Event) → Stands self.old h → is_owner h ≡ false → is_plain (next self.old.settings h) ≡ true → Stands self.new (made (next self.old.settings h) ∷ h) }
    {
        match self.stage() {
            Stage::Boundary => self.begun(),
            Stage::Reserve => self.reserved(),
            Stage::CtlWrite(written) => self.control_written(&written),
            Stage::Release => self.released(),
            Stage::Ended(why) => self.ended(why),
            Stage::Signal2(signal) => self.signalled2(&signal),
            Stage::CtlRead => {}
            Stage::Look1 => {}
            Stage::Look2 => {}
            Stage::Decide => {}
            Stage::MsgClose(..) => {}
            Stage::MsgBody(..) => {}
            Stage::MsgOpen(..) => {}
            Stage::LogLook(..) => {}
            Stage::LogClose(..) => {}
            Stage::LogBody(..) => {}
            Stage::LogOpen(..) => {}
            Stage::KpClose(..) => {}
            Stage::KpBody(..) => {}
            Stage::KpOpen(..) => {}
            Stage::FileRead(_) => {}
            Stage::FileWrite(..) => {}
            Stage::Undo(_) => {}
        }
    }

    // an act at a boundary is made that is answered by the tick alone
    fn begun(&mut self)
        requires stands { (h : List Event) × Stands self.old h × (is_owner h ≡ false) × (length h < 16385) × (is_plain (next self.old.settings h) ≡ true) }
        requires boundary { self.old.common.stage ≡ At.Boundary }
        ensures settings { self.new.settings ≡ self.old.settings }
        ensures stands { (h : List Event) → Stands self.old h → is_owner h ≡ false → is_plain (next self.old.settings h) ≡ true → Stands self.new (made (next self.old.settings h) ∷ h) }
    {
        match self.due() {
            Due::Line(line) => self.line_issued(line),
            Due::End(why) => self.ended(why),
            Due::Reserve => self.reserved(),
            Due::Round(signal) => self.signalled1(&signal),
            Due::Nothing => {}
            Due::Read(_) => {}
        }
    }

    // the first part of a look is handed
    fn look1_handed(&mut self, held: &Control, signal: &Option<Signal>)
        requires { (h : List Event) × Stands self.old h × (is_owner h ≡ false) × (fits self.old.settings h (next self.old.settings h) (An.Look1 held.now signal.now) ≡ true) }
        ensures settings { self.new.settings ≡ self.old.settings }
        ensures stands { (h : List Event) → Stands self.old h → is_owner h ≡ false → fits self.old.settings h (next self.old.settings h) (An.Look1 held.now signal.now) ≡ true → Stands self.new (Looked1 held.now signal.now ∷ h) }
    {
        match self.common.stage {
            Stage::Look1 => self.looked1(held, signal),
            Stage::Boundary => match self.due() {
                _ => {},
            },
            _ => {},
        }
    }

    // the second part of a look is handed
    fn look2_handed(&mut self, signal: &Option<Signal>, at: Tick)
        requires { (h : List Event) × Stands self.old h × (is_owner h ≡ false) × (fits self.old.settings h (next self.old.settings h) (An.Look2 signal.now at) ≡ true) × (change h ≤ at) }
        ensures settings { self.new.settings ≡ self.old.settings }
        ensures stands { (h : List Event) → Stands self.old h → is_owner h ≡ false → fits self.old.settings h (next self.old.settings h) (An.Look2 signal.now at) ≡ true → Stands self.new (Looked2 signal.now at ∷ h) }
    {
        match self.common.stage {
            Stage::Look2 => self.looked2(signal, at),
            Stage::Boundary => match self.due() {
                _ => {},
            },
            _ => {},
        }
    }
}
