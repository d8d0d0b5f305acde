//! Laws of script lines and of scripts.
ghost use Rattle.run_script.specs.Laws.{LinesHoldInputs, OneScript};

/// What a line holds is an input that may come in the state.
pub fn lines_hold_inputs()
    ensures { LinesHoldInputs }
{}

/// A script goes in one way: its inputs, its states, and its first fault. From the initial state on
/// its states are those of the run of its inputs.
pub fn one_script()
    ensures { OneScript }
{}
