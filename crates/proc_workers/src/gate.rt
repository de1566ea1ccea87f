//! What stands round the calls of a worker.
use crate::{Answer, Job};

/// Calls that a worker makes, in its own thread, before and after each job. A program gates its workers by them, as to count
/// their jobs.
pub trait Gate {
    /// The worker is about to answer this job.
    fn before(&self, job: &Job);

    /// The worker has this answer.
    fn after(&self, answer: &Answer);
}

/// A gate that is always open.
pub struct NoGate;

impl Gate for NoGate {
    fn before(&self, _job: &Job) {}

    fn after(&self, _answer: &Answer) {}
}
