//! scf as a library for programs in C, and for whatever calls C. The header is library/scf.h.
//!
//! Each exported call is a function of what the caller hands in: it keeps nothing, and writes nothing but what it is
//! told to. Its contract reaches from the caller's bytes to what is handed out. Every result is set however the call
//! ends: where the status isn't OK, the fault says why, and everything else is 0.
#![tactic(auto)]

mod answers;
mod comparison;
mod ending;
mod filter;
mod layout;
mod profile;
mod question;
mod records;
mod side;
mod stack;
mod tables;
mod version;

pub use answers::scf_answers;
pub use comparison::scf_compare;
pub use filter::{scf_assemble, scf_check, scf_list, scf_run, scf_trace};
pub use layout::{
    Bytes, Call, Comparison, DecisionNumbers, Fault, FindingNumbers, LeftOutCounts, Listing,
    ProfileAnswer, ProfileInput, Question, RecordsComparison, RegionNumbers, SideInput, Table,
    WordFact,
};
pub use profile::{scf_ask, scf_compile};
pub use stack::scf_decide;
pub use version::scf_version;
