//! What is known of a factor after some observations.

/// What is known of a factor, or a sum, after some observations.
#[derive(Clone, Copy)]
pub enum Growth {
    /// It is this one.
    Known(i128),
    /// Each daily rate so far is there, and a factor passes 10^4 in size.
    Passed,
    /// A daily rate is absent.
    Absent,
}
