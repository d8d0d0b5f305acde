//! Laws of runs.
ghost use Rattle.run_step.specs.Laws.{OneNextState, OneRun, StepsAreRelated, SameUnboundedRuns};

/// A specification that passed its checks has exactly one initial state, and after each input that may
/// come in a state of a run exactly one next state.
pub fn one_next_state()
    ensures { OneNextState }
{}

/// Each valid list of inputs has exactly one run. All its states are typed and agree with the
/// condition tables.
pub fn one_run()
    ensures { OneRun }
{}

/// Each step of a run is a related pair for each variable.
pub fn steps_are_related()
    ensures { StepsAreRelated }
{}

/// Without NAT lines the runs and the valid inputs with and without bounds are the same.
pub fn same_unbounded_runs()
    ensures { SameUnboundedRuns }
{}
