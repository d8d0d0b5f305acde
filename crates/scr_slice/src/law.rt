//! Laws of slices.
ghost use Rattle.scr_slice.specs.Laws.{SameTruth, SameRuns, KeptIsKeepable, SliceIsSound, SliceMeetsChecks, OneSlice};

/// A condition with new numbers for its variables has the truth of the old one.
pub fn same_truth()
    ensures { SameTruth }
{}

/// The runs of a slice are those of the whole on the kept variables, inputs to dropped variables left
/// out, and at such an input no kept variable changes.
pub fn same_runs()
    ensures { SameRuns }
{}

/// What is kept for declared names is declared, and holds all that the tables of its members mention.
pub fn kept_is_keepable()
    ensures { KeptIsKeepable }
{}

/// A slice of a sound specification is sound.
pub fn slice_is_sound()
    ensures { SliceIsSound }
{}

/// A slice of a specification that passed its checks is acyclic and passes them, too.
pub fn slice_meets_checks()
    ensures { SliceMeetsChecks }
{}

/// Named variables keep one list, and a list has one slice.
pub fn one_slice()
    ensures { OneSlice }
{}
