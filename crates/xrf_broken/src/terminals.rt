//! Broken traces on terminals: each function says of which part its trace is none.

ghost use Rattle.xrf_trace.specs.TerminalsAreTold.{TerminalsAreTold};
ghost use Rattle.xrf_examples.specs.UsersAtATakeoverStayWithNoforce as users;
ghost use Rattle.xrf_examples.specs.AFullRingAndAnUnsentMessage as terminals;
ghost use Rattle.xrf_broken.specs.Terminals as broken;

/// A user signs on at a terminal, and the alternate is not told.
pub fn a_user_is_not_sent()
    ensures { TerminalsAreTold users.scenario broken.a_user_is_not_sent → ⊥ }
{}

/// The active catches its alternate up without its terminals.
pub fn a_catch_up_without_rows()
    ensures { TerminalsAreTold terminals.scenario broken.a_catch_up_without_rows → ⊥ }
{}

/// The active catches its alternate up with a terminal that it has not.
pub fn a_catch_up_tells_another_terminal()
    ensures { TerminalsAreTold terminals.scenario broken.a_catch_up_tells_another_terminal → ⊥ }
{}
