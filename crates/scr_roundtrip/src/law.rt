//! Laws of the canonical text.
ghost use Rattle.scr_roundtrip.specs.Laws.{SpacedLexes, CanonicalReads, CondsComeBack, CanonicalSpells};

/// The words of a spaced text are its tokens.
pub fn spaced_lexes()
    ensures { SpacedLexes }
{}

/// The canonical text of a specification is read, where it passes no limit of the reader.
pub fn canonical_reads()
    ensures { CanonicalReads }
{}

/// The words of a condition of a specification are read as one that resolves to this condition.
pub fn conds_come_back()
    ensures { CondsComeBack }
{}

/// The canonical text of a specification spells it and no other, where it passes no limit of the
/// reader; so what is formatted once is not changed by formatting it again.
pub fn canonical_spells()
    ensures { CanonicalSpells }
{}
