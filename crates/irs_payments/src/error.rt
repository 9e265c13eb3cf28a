//! Why a stream has no payments or no principal exchanges.
use irs_base::Stopped;
use irs_terms::Fault;

/// Why there is no list: `Broken` with the first rule that is broken, its element and its index, or
/// `Memory` where memory ran out.
pub type PayErr = Stopped<Fault>;
