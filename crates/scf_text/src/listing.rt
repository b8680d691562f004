//! The disassembler.
ghost use Rattle.std.specs.Prelude.{◌≡◌, ◌++◌, false, codes};
ghost use Rattle.std.specs.List.{flat_map};
ghost use Rattle.std.specs.Fmt.{digits};
ghost use Rattle.scf_insn.specs.Streams.{Writes};
ghost use Rattle.scf_text.specs.Encodings.{field_of};
ghost use Rattle.scf_text.specs.Listing.{number_text, piece_text, operands_text, line_of, text_of};
ghost use Rattle.scf_text.specs.declared.encoding.Style.TheVariants.{FourDigits};

use crate::encoding::{Encoding, Field, Piece, Style};
use scf_insn::{Insn, Sink, WriteFault, digit_byte, write_numeral, write_whole};

/// Writes `0x` and the hexadecimal digits, without leading zeros.
fn write_hexadecimal<S: Sink>(sink: &mut S, number: u32) -> Result<(), WriteFault>
    ensures { Writes S.contents S.failures sink.old (codes "0x" ++ digits 16 false number) result sink.new }
{
    write_whole(sink, &[b'0', b'x'])?;
    write_numeral(sink, u64::from(number), 16)
}

/// Writes a number in a style.
fn write_number<S: Sink>(sink: &mut S, style: Style, number: u32) -> Result<(), WriteFault>
    ensures { Writes S.contents S.failures sink.old (number_text style number) result sink.new }
{
    match style {
        Style::Decimal => write_numeral(sink, u64::from(number), 10),
        Style::Hexadecimal => write_hexadecimal(sink, number),
        Style::FourDigits => {
            let digits = [
                b'0',
                b'x',
                digit_byte(number / 4096 % 16),
                digit_byte(number / 256 % 16),
                digit_byte(number / 16 % 16),
                digit_byte(number % 16),
            ];
            write_whole(sink, &digits)
        }
    }
}

/// The field as a number.
fn value_of(insn: &Insn, field: Field) -> u32
    ensures { result ≡ field_of insn.now field }
{
    match field {
        Field::Code => insn.code as u32,
        Field::Jt => insn.jt as u32,
        Field::Jf => insn.jf as u32,
        Field::K => insn.k,
    }
}

/// Writes one piece.
fn write_piece<S: Sink>(sink: &mut S, insn: &Insn, piece: Piece) -> Result<(), WriteFault>
    ensures { Writes S.contents S.failures sink.old (piece_text insn.now piece) result sink.new }
{
    let text = match piece {
        Piece::Mark(b',') => ", ",
        Piece::Mark(byte) => return write_whole(sink, &[byte]),
        Piece::Len => "len",
        Piece::Accumulator => "a",
        Piece::Index => "x",
        Piece::Number(field, style) => return write_number(sink, style, value_of(insn, field)),
        Piece::Target(field) => return write_number(sink, Style::Decimal, value_of(insn, field)),
    };
    write_whole(sink, text.as_bytes())
}

/// Writes the pieces of an operand format.
#[tactic(auto, using(scf_insn::proofs::Written::takes_nothing))]
fn write_pieces<S: Sink>(sink: &mut S, insn: &Insn, pieces: &[Piece]) -> Result<(), WriteFault>
    ensures { Writes S.contents S.failures sink.old (flat_map (piece_text insn.now) pieces.now) result sink.new }
{
    for piece in pieces {
        write_piece(sink, insn, *piece)?;
    }
    Ok(())
}

/// Writes a blank and the operands, if there are any.
fn write_operands<S: Sink>(sink: &mut S, insn: &Insn, pieces: &[Piece]) -> Result<(), WriteFault>
    ensures { Writes S.contents S.failures sink.old (operands_text insn.now pieces.now) result sink.new }
{
    if pieces.is_empty() {
        return Ok(());
    }
    write_whole(sink, &[b' '])?;
    write_pieces(sink, insn, pieces)
}

/// Writes the line of an instruction, with its LF.
#[tactic(auto, using(scf_insn::proofs::Written::fails_first, scf_insn::proofs::Written::writes_then))]
fn write_line<S: Sink>(sink: &mut S, insn: &Insn) -> Result<(), WriteFault>
    ensures { Writes S.contents S.failures sink.old (line_of insn.now) result sink.new }
{
    let encoding = Encoding::of(insn);
    write_whole(sink, encoding.mnemonic.as_bytes())?;
    write_operands(sink, insn, encoding.pieces)?;
    write_whole(sink, &[b'\n'])
}

/// Writes the canonical text of any instructions, a line each; or a prefix of it, if writing fails. An instruction with
/// an unknown code, or with a non-zero field that its code doesn't use, is listed as `raw`. Never allocates.
#[tactic(auto, using(scf_insn::proofs::Written::takes_nothing))]
pub fn disassemble<S: Sink>(insns: &[Insn], sink: &mut S) -> Result<(), WriteFault>
    ensures { Writes S.contents S.failures sink.old (text_of insns.now) result sink.new }
{
    for insn in insns {
        write_line(sink, insn)?;
    }
    Ok(())
}
