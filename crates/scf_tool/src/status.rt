//! Exit statuses.

ghost use Rattle.std.specs.Prelude.{◌≡◌};
ghost use Rattle.scf_tool.specs.Statuses.{status_code};

/// The exit status of the program.
#[derive(Clone, Copy)]
pub(crate) enum Status {
    /// The verdict holds, the input is accepted, or what is asked for is printed.
    Success,
    /// A filter, text, table, profile or stack is refused, or a compiled filter would be too large.
    Refused,
    /// The relation that is asked for doesn't hold of two answers.
    Differs,
    /// A usage error.
    CommandLine,
    /// The input can't be read, the output can't be written, or memory ran out.
    Failed,
    /// It isn't known whether the answers differ.
    Unknown,
}

impl Status {
    /// The number of the status.
    pub(crate) fn code(self) -> u8
        ensures { result ≡ status_code self }
    {
        match self {
            Status::Success => 0,
            Status::Refused | Status::Differs => 1,
            Status::CommandLine => 2,
            Status::Failed => 3,
            Status::Unknown => 4,
        }
    }
}
