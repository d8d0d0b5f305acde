//! The law of simulations.
ghost use Rattle.cmd_simulate.specs.Laws.{OneSimulation};

/// A specification that passed its checks has one answer to a script, and files have one answer of
/// `simulate`, and never none. One with Done tells the states of the run of the script's inputs, and one with
/// ScriptRefused those of the lines in front of the one at which the script stops, and the fault of that one.
pub fn one_simulation()
    ensures { OneSimulation }
{}
