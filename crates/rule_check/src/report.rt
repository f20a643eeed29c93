//! What a check reports.

use ak_trace::Verdict;
use block_store::Answer;

/// What a check reports.
#[derive(Drop)]
pub struct RuleReport {
    /// What was found.
    pub verdict: Verdict,
    /// The turns that were done, each with its thread and the answer that it was told.
    pub order: Vec<(u32, Answer)>,
    /// What was printed.
    pub output: Vec<u8>,
}
