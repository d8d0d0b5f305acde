//! What a formula is answered on the store that a fault left.
ghost use Rattle.dd_build.specs.Again.{StoppedBuildsGoOn};

/// On what a build left that stopped, as without memory, the same formula is answered as on the store before: too much
/// for both or for neither, and a number with the same tree in a store with the same trees.
pub fn stopped_builds_go_on()
    ensures { StoppedBuildsGoOn }
{}
