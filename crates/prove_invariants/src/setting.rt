//! What tests have in common.

use prove_candidates::Candidate;
use prove_formula::Formula;
use scr_depend::Checked;
use scr_spec::State;

/// What the tests of the candidates of a class have in common.
#[derive(Drop)]
pub(crate) struct Setting<'a> {
    pub checked: &'a Checked,
    pub class: usize,
    /// What the class needs.
    pub need: &'a [usize],
    /// For the distinct splits of each test.
    pub limit: u32,
    /// The initial state.
    pub first: &'a State,
    /// The monitored variables, in order of declaration.
    pub monitored: &'a [usize],
}

/// What those of one round have in common. Rounds count from 1.
#[derive(Drop)]
pub(crate) struct Round<'a> {
    pub setting: &'a Setting<'a>,
    pub number: u64,
    /// The candidates that have passed in earlier rounds.
    pub known: &'a [Candidate],
    /// That each of these holds before.
    pub before: &'a [Formula],
}
