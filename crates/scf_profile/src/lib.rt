//! Syscall tables and OCI seccomp profiles: how one is loaded from JSON, which records its rules meet, what it answers.
#![tactic(auto)]

mod action;
mod architecture_table;
mod args;
mod condition;
mod conflict;
mod effective;
mod entry;
mod expand;
mod forms;
mod json_members;
mod laws;
mod limits;
mod load_fault;
mod loaded;
mod name;
mod named_call;
mod number_rules;
mod number_set;
mod number_test;
mod object;
mod overlap;
mod profile;
mod profile_text;
mod profiles;
mod reading;
mod reason;
mod relation;
mod rule;
mod scope;
mod table;
mod table_fault;
mod table_line;
mod texts;

pub use architecture_table::ArchitectureTable;
pub use condition::{Condition, Conditions, Operator};
pub use laws::{
    answer_of_reason, calls_and_rest, condition_by_halves, one_answer, one_answer_among,
    same_disposition_is_no_more_and_no_less, some_answer,
};
pub use limits::{MAX_RULES, MAX_TEXT_LEN};
pub use load_fault::LoadFault;
pub use loaded::{Loaded, LoadedProfiles};
pub use named_call::NamedCall;
pub use number_rules::NumberRules;
pub use number_test::NumberTest;
pub use profile::{FOREIGN_ANSWER, Profile, STUB_ANSWER};
pub use profile_text::{load, load_profiles_as};
pub use profiles::{Profiles, profile_for};
pub use reading::Reading;
pub use reason::Reason;
pub use relation::Relation;
pub use rule::Rule;
pub use scope::Scope;
pub use table::CallTable;
pub use table_fault::TableFault;
pub use texts::Texts;
