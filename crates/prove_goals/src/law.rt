//! Laws of related pairs and of goals.
ghost use Rattle.prove_goals.specs.Laws.{SameUnbounded, GoalsDecide, GoalsTell};

/// Without NAT lines the related pairs with and without bounds are the same.
pub fn same_unbounded()
    ensures { SameUnbounded }
{}

/// No goal of a variable has a solution exactly where the cells of its table exclude each other, a
/// condition table covers all states, and each value of a cell that holds is in range.
pub fn goals_decide()
    ensures { GoalsDecide }
{}

/// A pair of typed states that makes the formula of a goal true shows a pair at which the table is
/// judged and this goal is not met; both give the same codes at the levels of the formula. Each pair
/// at which the goal is not met makes its formula true.
pub fn goals_tell()
    ensures { GoalsTell }
{}
