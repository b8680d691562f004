//! Texts that spell a filter.

ghost use Rattle.scf_tool.specs.Commands.{Assembles};

use crate::buffer::encoding_of;
use crate::fault::Fault;
use crate::reply::Reply;
use scf_text::{TextFault, assemble};
use std::alloc::Global;

/// `asm`: the filter that a text spells, which isn't checked.
pub(super) fn assemble_text(alloc: Global, text: &[u8]) -> Result<Reply, Fault>
    ensures { Assembles text.now result }
{
    let insns = assemble(alloc, text).map_err(Fault::Text)?;
    let bytes = encoding_of(alloc, &insns).map_err(|_| Fault::Text(TextFault::Memory))?;
    Ok(Reply::Bytes(bytes))
}
