//! Broken traces on lines of the command list, and on what fails or is lost: each function says of which promise its trace is none.

ghost use Rattle.xrf_trace.specs.LinesAsListed.{LinesAsListed};
ghost use Rattle.xrf_trace.specs.CutsAsMay.{CutsAsMay};
ghost use Rattle.xrf_trace.specs.Safe.{Safe};
ghost use Rattle.xrf_broken.specs.Conduct.{scenario};
ghost use Rattle.xrf_broken.specs.Others.{AllBut, Listed, Cut};
ghost use Rattle.xrf_broken.specs.Lines as broken;

/// An alternate cancels a healthy active as it signs on.
pub fn an_alternate_cancels_the_active_as_it_signs_on()
    ensures refused { LinesAsListed scenario broken.an_alternate_cancels_the_active_as_it_signs_on → ⊥ }
    ensures others { AllBut Listed scenario broken.an_alternate_cancels_the_active_as_it_signs_on }
{}

/// A waiting alternate issues its one line twice.
pub fn the_command_list_is_issued_twice()
    ensures refused { LinesAsListed scenario broken.the_command_list_is_issued_twice → ⊥ }
    ensures others { AllBut Listed scenario broken.the_command_list_is_issued_twice }
{}

/// An active issues a line of the command list.
pub fn an_active_issues_a_line()
    ensures refused { LinesAsListed scenario broken.an_active_issues_a_line → ⊥ }
    ensures others { AllBut Listed scenario broken.an_active_issues_a_line }
{}

/// A waiting alternate takes its taking back, since a line of the command list failed.
pub fn a_takeover_is_given_up_since_a_line_failed()
    ensures refused { CutsAsMay broken.a_takeover_is_given_up_since_a_line_failed → ⊥ }
    ensures safe { Safe scenario broken.a_takeover_is_given_up_since_a_line_failed }
{}

/// An active signs off, and the record does not have it.
pub fn a_sign_off_is_lost()
    ensures refused { CutsAsMay broken.a_sign_off_is_lost → ⊥ }
    ensures others { AllBut Cut scenario broken.a_sign_off_is_lost }
{}
