// Why a call is not sent.
use thiserror::Error;

/// Why a call is not sent.
#[derive(Debug, Drop, Error)]
pub enum PairFault {
    /// The next number is 4,294,967,295, which is never used.
    #[error("no number is left")]
    Spent,
    /// Memory ran out.
    #[error("out of memory")]
    NoMemory,
}
