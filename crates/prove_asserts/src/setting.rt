//! What tests have in common.

use crate::lemma::Lemma;
use scr_depend::Checked;
use scr_spec::State;

/// What all tests have in common.
#[derive(Drop)]
pub(crate) struct Setting<'a> {
    pub checked: &'a Checked,
    /// What is taken for granted.
    pub lemmas: &'a [Lemma],
    /// For the distinct splits of each test.
    pub limit: u32,
    /// The initial state.
    pub first: &'a State,
    /// The monitored variables, in order of declaration.
    pub monitored: &'a [usize],
}
