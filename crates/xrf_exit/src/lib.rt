//! The status exit: what an active is told of its alternate, and what it may answer.
#![tactic(auto)]

ghost use Rattle.std.specs.Prelude.{◌≡◌, IsTrue};
ghost use Rattle.xrf_exit.specs.Exit.{is_allowed, AnswersAllowed};

/// What an active learns of its alternate.
#[derive(Clone, Copy, Debug, PartialEq, Eq)]
pub enum Notice {
    /// The alternate has started a takeover.
    TakeoverSeen,
    /// The alternate's signal has not changed for the time PDI.
    AlternateLost,
}

/// What the exit answers.
#[derive(Clone, Copy, Debug, PartialEq, Eq)]
pub enum ExitAnswer {
    /// The active ends.
    Abend,
    /// The alternate stays.
    Keep,
    /// The alternate is dropped.
    Drop,
}

/// Whether an answer is allowed for a notice: upon a takeover that was seen Abend alone, upon the
/// loss of the alternate Keep and Drop.
pub fn allowed(notice: Notice, answer: ExitAnswer) -> bool
    ensures { result ≡ is_allowed notice answer }
{
    match (notice, answer) {
        (Notice::TakeoverSeen, ExitAnswer::Abend) => true,
        (Notice::AlternateLost, ExitAnswer::Keep | ExitAnswer::Drop) => true,
        _ => false,
    }
}

/// A caller's closure, which answers notices. That it may be called with each notice, and that each answer it may give
/// is allowed, is asked where it is called.
#[derive(Drop)]
pub struct StatusExit<F> {
    pub closure: F,
}

impl<F: Fn(Notice) -> ExitAnswer> StatusExit<F> {
    /// The exit that answers as the closure does.
    pub fn new(closure: F) -> StatusExit<F>
        ensures { result.closure ≡ closure }
    {
        StatusExit { closure }
    }

    /// What the closure answers to the notice.
    pub fn ask(&self, notice: Notice) -> ExitAnswer
        requires callable { F.IsAlwaysCallable self.now.closure }
        requires allowed { AnswersAllowed (F.post self.now.closure) }
        ensures answered { F.post self.now.closure notice result }
        ensures allowed { IsTrue (is_allowed notice result) }
    {
        (self.closure)(notice)
    }
}

#[cfg(test)]
mod tests {
    use super::*;
    use std::test::Fail;

    /// The answer to the loss of the alternate of an exit that threads may share.
    fn upon_loss<F: Fn(Notice) -> ExitAnswer + Sync>(exit: &StatusExit<F>) -> ExitAnswer
        requires callable { F.IsAlwaysCallable exit.now.closure }
        requires allowed { AnswersAllowed (F.post exit.now.closure) }
        ensures { IsTrue (is_allowed Notice.AlternateLost result) }
    {
        exit.ask(Notice::AlternateLost)
    }

    #[test]
    fn an_exit_answers_by_the_notice(rt: HostRuntime) -> Result<(), Fail> {
        let keeps = true;
        let exit = StatusExit::new(|notice| match notice {
            Notice::TakeoverSeen => ExitAnswer::Abend,
            Notice::AlternateLost => {
                if keeps {
                    ExitAnswer::Keep
                } else {
                    ExitAnswer::Drop
                }
            }
        });
        assert_eq!(rt; exit.ask(Notice::TakeoverSeen), ExitAnswer::Abend);
        assert_eq!(rt; upon_loss(&exit), ExitAnswer::Keep);
        Ok(())
    }

    #[test]
    fn each_notice_allows_its_answers(rt: HostRuntime) {
        let table = [
            (Notice::TakeoverSeen, ExitAnswer::Abend, true),
            (Notice::TakeoverSeen, ExitAnswer::Keep, false),
            (Notice::TakeoverSeen, ExitAnswer::Drop, false),
            (Notice::AlternateLost, ExitAnswer::Abend, false),
            (Notice::AlternateLost, ExitAnswer::Keep, true),
            (Notice::AlternateLost, ExitAnswer::Drop, true),
        ];
        for (notice, answer, want) in table {
            assert_eq!(rt; allowed(notice, answer), want, "{notice:?} {answer:?}");
        }
    }
}
