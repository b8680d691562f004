//! Why parsed arguments aren't a request.

use crate::options::NumberFault;
use thiserror::Error;

/// Why arguments that `clap` accepts aren't a request.
#[derive(Clone, Copy, Debug, Error)]
pub enum RequestFault {
    #[error("no command is named")]
    NoCommand,
    /// An option's text isn't a number in its range.
    #[error("{0}")]
    Number(NumberFault),
    #[error("two flags exclude each other")]
    Flags,
    #[error("the option reading names no reading")]
    Reading,
    #[error("no call has a number in the range")]
    Range,
}
