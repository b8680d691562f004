//! How a call ends: its status, its fault, and what it hands out. A verdict is no status: whether filters answer as a
//! profile does is handed out beside it.

ghost use Rattle.std.specs.Prelude.{◌≡◌, ◌≢◌};
ghost use Rattle.scf_c.specs.Endings.{IsHandedOut, fault_of, ok, status_of, wrong_argument};
ghost use Rattle.scf_tool.specs.Faults.{row_of};

use crate::layout::Fault;
use scf_tool::{FaultRow, MEMORY};

/// All is well.
pub(crate) const OK: u32 = 0;

/// An input is refused.
const REFUSED: u32 = 1;

/// A number isn't one that the call takes.
pub(crate) const WRONG_ARGUMENT: u32 = 2;

/// An allocation failed.
const NO_MEMORY: u32 = 3;

/// Tells why there is no result, by the row of the fault. The answer is the status.
pub(crate) fn refuse(row: FaultRow, fault: &mut Fault) -> u32
    ensures of_row { fault.new ≡ fault_of (row_of row) }
    ensures status { result ≡ status_of fault.new }
    ensures failed { result ≢ ok }
    ensures asked { result ≢ wrong_argument }
{
    let [(_, first), (_, second), (_, third)] = row.numbers;
    *fault = Fault {
        source: row.source.1,
        kind: row.kind.1,
        numbers: [first, second, third],
        reserved: [0; 4],
    };
    if fault.kind == MEMORY.1 {
        NO_MEMORY
    } else {
        REFUSED
    }
}

/// The value of a result; its error ends the call with the fault of this row.
macro_rules! or_refuse {
    ($result:expr, $row:expr, $fault:expr) => {
        match $result {
            Ok(value) => value,
            Err(why) => return $crate::ending::refuse($row(why), $fault),
        }
    };
}

pub(crate) use or_refuse;

/// Hands a list out as snprintf does: as much of its front as there is room for, and how long it is.
pub(crate) fn hand_out<T: Copy>(items: &[T], room: &mut [T], needed: &mut usize)
    ensures { IsHandedOut items.now room.old room.new needed.new }
{
    *needed = items.len();
    let count = items.len().min(room.len());
    room[..count].copy_from_slice(&items[..count]);
}
