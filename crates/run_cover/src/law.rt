//! The law on tallies.
ghost use Rattle.run_cover.specs.Laws.{OneCover};

/// A tally of the states of a run tells for each cell at how many inputs it held.
pub fn one_cover()
    ensures { OneCover }
{}
