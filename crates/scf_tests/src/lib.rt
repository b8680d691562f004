//! Tests of what no contract says and no run of the program shows: the messages of errors, and what `AtomList` finds,
//! a store that the program doesn't use. The tests stand apart from the libraries, since the gate proves a crate that
//! has tests twice.
//!
//! A large table stands behind a call here: a proof looks into a constant, and not into what a call gives. What is
//! equal is asserted by `assert!`, and a result taken by `expect`: `assert_eq!` and `?` take twice the proof, the one
//! for what it prints, the other since what is owned is dropped on one way more. The body of a loop is a function: a
//! zip or a closure takes several times the proof.
#![tactic(auto)]

#[cfg(test)]
mod atom_list;
#[cfg(test)]
mod messages;
