//! Laws of histories.
ghost use Rattle.run_back.specs.Laws.{OneHistory};

/// What a history keeps after some lines are the last states of the run of the inputs that are held
/// then. A `BACK n` after n further inputs gives the state that was there before them.
pub fn one_history()
    ensures { OneHistory }
{}
