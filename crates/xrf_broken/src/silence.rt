//! Broken traces on silence and the format: each function says of which part its trace is none.

ghost use Rattle.xrf_trace.specs.FormatByLevel.{FormatByLevel};
ghost use Rattle.xrf_trace.specs.SilentOnceSeen.{SilentOnceSeen};
ghost use Rattle.xrf_examples.specs.CommandWaitsForCebt as pair;
ghost use Rattle.xrf_examples.specs.MigrationOfAPairToFormat2 as levels;
ghost use Rattle.xrf_broken.specs.Silence as broken;

/// An owner looks at a record with a taking and goes on to write.
pub fn an_owner_that_has_looked_at_a_taking_writes()
    ensures { SilentOnceSeen pair.scenario broken.an_owner_that_has_looked_at_a_taking_writes → ⊥ }
{}

/// An owner reads a record with a taking under the reserve and goes on to write.
pub fn an_owner_that_has_read_a_taking_for_a_drop_writes()
    ensures { SilentOnceSeen pair.scenario broken.an_owner_that_has_read_a_taking_for_a_drop_writes → ⊥ }
{}

/// A job of level 1 writes a record of format 2.
pub fn a_job_of_level_1_writes_format_2()
    ensures { FormatByLevel levels.scenario broken.a_job_of_level_1_writes_format_2 → ⊥ }
{}

/// A job of level 1 that was granted meets a record of format 2.
pub fn a_job_of_level_1_reads_format_2()
    ensures { FormatByLevel levels.scenario broken.a_job_of_level_1_reads_format_2 → ⊥ }
{}

/// A takeover by a job of level 2 keeps format 1.
pub fn a_through_of_level_2_leaves_format_1()
    ensures { FormatByLevel levels.scenario broken.a_through_of_level_2_leaves_format_1 → ⊥ }
{}

/// A job of level 2 signs on as alternate and sets format 2.
pub fn a_sign_on_of_an_alternate_of_level_2_sets_format_2()
    ensures { FormatByLevel levels.scenario broken.a_sign_on_of_an_alternate_of_level_2_sets_format_2 → ⊥ }
{}
