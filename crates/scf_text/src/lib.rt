//! Filters as text: an assembler and a disassembler.
#![tactic(auto)]

mod assembler;
mod encoding;
mod fault;
mod label;
mod laws;
mod listing;
mod numbered_insn;
mod parsed_insn;
mod part;
mod statement;
mod symbols;
mod token;

pub use assembler::assemble;
pub use fault::TextFault;
pub use laws::{listing_spells, one_spelling, words_are_tokens};
pub use listing::disassemble;
pub use token::{Token, tokens};
