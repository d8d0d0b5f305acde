//! The law of emitted units.
ghost use Rattle.cmd_emit.specs.Laws.{OneEmission};

/// A file has one answer of `emit`, and never none. Where that ends with `Done`, the file's text spells
/// a specification, and the answer is a text of a unit of C that runs as this one does, and is right
/// for every caller.
pub fn one_emission()
    ensures { OneEmission }
{}
