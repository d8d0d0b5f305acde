//! Reduced ordered decision trees, as definitions and laws alone.
//!
//! A tree has one child per code and no sharing. A level is known by how many codes it has, and a
//! valuation has the position of a code, from 0, for each level.
#![tactic(auto)]

ghost use Rattle.dd_tree.specs.Canonical.{OneTreePerFunction, TreeForEachFunction};

/// Reduced ordered trees with the same truth at every typed valuation are equal.
pub fn one_tree_per_function()
    ensures { OneTreePerFunction }
{}

/// The tree of a function is reduced and ordered, and has the function's truth.
pub fn tree_for_each_function()
    ensures { TreeForEachFunction }
{}
