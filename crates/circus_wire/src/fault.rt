// Why a call is not handed over.
use thiserror::Error;

/// Why a call is not handed over.
#[derive(Debug, Drop, Error)]
pub enum WireFault {
    /// The next number of the pair with this node is 4,294,967,295, which is never used.
    #[error("no number is left for node {0}")]
    Spent(u16),
    /// Memory ran out.
    #[error("out of memory")]
    NoMemory,
}
