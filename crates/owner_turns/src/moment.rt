//! The step in which an owner takes a turn.

use pipeline_lang::Config;

/// The file, the number of the owner that takes a turn, and the number of the step.
#[derive(Clone, Copy)]
pub struct Moment<'a> {
    pub config: &'a Config,
    pub number: u32,
    pub step: u32,
}
