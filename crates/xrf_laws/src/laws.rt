//! That every run is safe and keeps the promises.

ghost use Rattle.xrf_trace.specs.Laws.{RunsAreSafe};

/// Of every scenario, every trace that is a run with at most 8,192 entries is safe and keeps the promises.
pub fn runs_are_safe()
    ensures { RunsAreSafe }
{}
