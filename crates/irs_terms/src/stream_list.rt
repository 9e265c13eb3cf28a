//! Swaps: streams in order.
use crate::{Listed, Stream};

/// Streams in order.
pub type StreamList = Listed<Stream>;

/// The terms of a swap: 1 to 8 streams (FpML `Swap`).
#[derive(Drop)]
pub struct Swap {
    /// The streams, in the order of the document (FpML `swapStream`).
    pub streams: StreamList,
}
