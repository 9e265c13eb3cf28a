//! Why a stream has no periods.
use irs_base::Stopped;
use irs_terms::Fault;

/// Why a stream has no periods: the first broken rule, or memory ran out.
pub type PerErr = Stopped<Fault>;
