//! The printed line of a fault.

ghost use Rattle.std.specs.Prelude.{Some, map};
ghost use Rattle.std.specs.List.{flat_map};
ghost use Rattle.scf_tool.specs.Faults.{fault_line, number_of, number_text, row_of};

use crate::fault_row::{FaultNumber, FaultRow};
use std::fmt;

/// Numbers, each behind its name if it has one.
#[derive(Clone, Copy)]
struct Numbers<'a>(&'a [FaultNumber]);

impl fmt::Display for Numbers<'_> {
    ghost output = { λ numbers. Some (flat_map number_text (map number_of numbers.0.now)) };

    fn fmt<W: fmt::Write>(&self, f: &mut fmt::Formatter<W>) -> fmt::Result {
        for number in self.0 {
            if let (Some(name), value) = *number {
                write!(f, " {name} {value}")?;
            }
        }
        Ok(())
    }
}

/// What is refused, why, and the numbers that say where.
impl fmt::Display for FaultRow {
    ghost output = { λ row. Some (fault_line (row_of row)) };

    fn fmt<W: fmt::Write>(&self, f: &mut fmt::Formatter<W>) -> fmt::Result {
        let numbers = Numbers(&self.numbers);
        write!(f, "fault {} {}{numbers}\n", self.source.0, self.kind.0)
    }
}
