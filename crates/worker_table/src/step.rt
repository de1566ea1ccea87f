//! What a worker makes of a call.

/// What comes of a call.
#[derive(Clone, Copy, Debug, PartialEq, Eq)]
pub enum Step {
    /// The next state, and the reply.
    Next(u32, u32),
    /// A normal end, with the last reply.
    Ends(u32),
    /// An abnormal end, without a reply.
    Crashes,
}
