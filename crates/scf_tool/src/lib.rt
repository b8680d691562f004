//! The program `scf`: its commands, what they read and what they print.
#![tactic(auto)]

mod architecture_scope;
mod buffer;
mod command_line;
mod commands;
mod compilation;
mod compiled_filter;
mod exploration;
mod fault;
mod fault_line;
mod fault_row;
mod filter;
mod filter_stack;
mod findings;
mod inputs;
mod joint_findings;
mod left_out;
mod lines;
mod loading;
mod owned_table;
mod plan;
mod region_lines;
mod reply;
mod reporting;
mod sides;
mod stack_verification;
mod status;
mod verification;
mod verify_fault;

pub use architecture_scope::scope_of;
pub use buffer::{encoding_of, listing_of};
pub use command_line::report_usage_error;
pub use commands::run_command;
pub use compilation::filter_of_each;
pub use compiled_filter::compiled_is_same;
pub use exploration::none_differ;
pub use fault_row::{FaultRow, MEMORY, compile_row, side_row, text_row, verify_row};
pub use filter::read_filter;
pub use filter_stack::{read_stack, stack_of};
pub use findings::{CallFinding, ComparisonOutcome, Findings, pairings_of_calls};
pub use joint_findings::joint_finding;
pub use left_out::LeftOut;
pub use loading::load_with_tables;
pub use owned_table::{OwnedTable, read_tables};
pub use plan::{Pairing, compare_each, explore_each};
pub use region_lines::are_whole;
pub use reporting::{report, report_by};
pub use scf_request::{
    BundleFault, Comparison, Interpretation, Limits, NumberFault, Part, PartKind, PartReader,
    Scopes, Stub, TableReader, has_record, record_of, split,
};
pub use sides::SideInput;
pub use stack_verification::verify_stack;
pub use verification::{Outcome, verify};
pub use verify_fault::{SideFault, VerifyFault};
