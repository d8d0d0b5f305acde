//! Laws of verdicts.
ghost use Rattle.prove_tables.specs.Laws.{OneVerdict, SomeVerdict, VerdictsTell};

/// A table has at most one verdict.
pub fn one_verdict()
    ensures { OneVerdict }
{}

/// Each table has a verdict, and the tables of a specification have one list of verdicts.
pub fn some_verdict()
    ensures { SomeVerdict }
{}

/// With a yes the table is disjoint, covering where that is required, and in range. With a no its
/// goal is the first that is not met at some pair at which the table is judged, and the witness shows
/// the least such pair. So it is of the verdicts on all tables of a specification.
pub fn verdicts_tell()
    ensures { VerdictsTell }
{}
