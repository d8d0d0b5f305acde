//! Laws of every specification.
ghost use Rattle.scr_spec.specs.Laws.{BoundedDepth};
ghost use Rattle.scr_spec.specs.Limits.{LimitsOfSpecifications};

/// Each condition of a specification has a depth of at most 195, so a walk over it takes little
/// stack.
pub fn bounded_depth()
    ensures { BoundedDepth }
{}

/// The limits of the language are the numbers that the specification of the language states.
pub fn limits_of_specifications()
    ensures { LimitsOfSpecifications }
{}
