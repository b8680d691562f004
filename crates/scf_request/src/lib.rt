//! The program's inputs: its command line, and the parts of a bundle.
#![tactic(auto)]

mod bundle;
mod command_line;
mod contents;
mod interpretation;
mod options;
mod records;
mod request;
mod request_fault;

pub use bundle::{BundleFault, BundleForm, Part, PartKind, split};
pub use command_line::parse;
pub use contents::{Contents, PartReader, TableReader};
pub use interpretation::{Interpretation, Stub};
pub use options::{NumberFault, record_of};
pub use records::has_record;
pub use request::{Command, Comparison, Detail, Limits, Request, Scopes, request_of};
pub use request_fault::RequestFault;
