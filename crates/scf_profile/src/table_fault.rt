//! Why a text isn't a syscall table.

use thiserror::Error;

/// The first fault of the first faulty line. Lines count from 1.
#[derive(Clone, Copy, Debug, Error)]
pub enum TableFault {
    /// The line doesn't have two fields.
    #[error("line {line}: not a name and a number")]
    Form { line: usize },
    /// The first field isn't a letter or `_` followed by letters, digits and `_`.
    #[error("line {line}: no name of a call")]
    Name { line: usize },
    /// The second field isn't a decimal number below `X32_SYSCALL_BIT`.
    #[error("line {line}: no number of a call")]
    Number { line: usize },
    #[error("line {line}: the name stands on an earlier line")]
    Repeated { line: usize },
    #[error("out of memory")]
    Memory,
}
