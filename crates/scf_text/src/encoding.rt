//! Encodings: the mnemonic and operand format of each instruction code, for the assembler and the disassembler.
ghost use Rattle.std.specs.Prelude.{◌≡◌, ◌==◌, map};
ghost use Rattle.std.specs.List.{list_any};
ghost use Rattle.scf_text.specs.Encodings.{encodings, known_encodings, raw, names, tells_all, encoding_for};
ghost use Rattle.scf_text.specs.ParsedInsns.{has_mnemonic};
ghost use Rattle.scf_text.specs.internal.Views.{encoding_view};

use scf_insn::Insn;

/// A field of an instruction.
#[derive(Clone, Copy, PartialEq, Eq)]
pub(crate) enum Field {
    Code,
    Jt,
    Jf,
    K,
}

/// How a listing prints a number.
#[derive(Clone, Copy)]
pub(crate) enum Style {
    Decimal,
    /// `0x` and the digits, without leading zeros
    Hexadecimal,
    /// `0x` and four digits
    FourDigits,
}

/// One piece of an operand format.
#[derive(Clone, Copy)]
pub(crate) enum Piece {
    /// This byte.
    Mark(u8),
    Len,
    Accumulator,
    Index,
    /// A number: the field's value.
    Number(Field, Style),
    /// An offset, or the label to which it leads.
    Target(Field),
}

/// A mnemonic with an operand format, and the code of its instructions.
#[derive(Clone, Copy)]
pub(crate) struct Encoding {
    pub code: u16,
    pub mnemonic: &'static str,
    pub pieces: &'static [Piece],
}

const COMMA: Piece = Piece::Mark(b',');

const NOTHING: &[Piece] = &[];

const LENGTH: &[Piece] = &[Piece::Len];

const ACCUMULATOR: &[Piece] = &[Piece::Accumulator];

const INDEX: &[Piece] = &[Piece::Index];

const JUMP: &[Piece] = &[Piece::Target(Field::K)];

const CONSTANT: &[Piece] = &[
    Piece::Mark(b'#'),
    Piece::Number(Field::K, Style::Hexadecimal),
];

const ABSOLUTE: &[Piece] = &[
    Piece::Mark(b'['),
    Piece::Number(Field::K, Style::Decimal),
    Piece::Mark(b']'),
];

const SCRATCH: &[Piece] = &[
    Piece::Mark(b'M'),
    Piece::Mark(b'['),
    Piece::Number(Field::K, Style::Decimal),
    Piece::Mark(b']'),
];

const TEST_CONSTANT: &[Piece] = &[
    Piece::Mark(b'#'),
    Piece::Number(Field::K, Style::Hexadecimal),
    COMMA,
    Piece::Target(Field::Jt),
    COMMA,
    Piece::Target(Field::Jf),
];

const TEST_INDEX: &[Piece] = &[
    Piece::Index,
    COMMA,
    Piece::Target(Field::Jt),
    COMMA,
    Piece::Target(Field::Jf),
];

const RAW: &[Piece] = &[
    Piece::Number(Field::Code, Style::FourDigits),
    COMMA,
    Piece::Number(Field::Jt, Style::Decimal),
    COMMA,
    Piece::Number(Field::Jf, Style::Decimal),
    COMMA,
    Piece::Number(Field::K, Style::Hexadecimal),
];

/// A table of encodings: code, mnemonic, operands.
macro_rules! encodings {
    ($($code:literal $mnemonic:literal $pieces:ident;)*) => {
        [$(Encoding { code: $code, mnemonic: $mnemonic, pieces: $pieces }),*]
    };
}

/// `raw`, which fits every instruction, and then the encodings of the 41 codes. The code of `raw` is one of its
/// operands, so the 0 here is always replaced.
static FORMS: [Encoding; 42] = encodings! {
    0x00 "raw" RAW;
    0x20 "ld" ABSOLUTE; 0x80 "ld" LENGTH; 0x81 "ldx" LENGTH; 0x00 "ld" CONSTANT; 0x01 "ldx" CONSTANT;
    0x60 "ld" SCRATCH; 0x61 "ldx" SCRATCH; 0x02 "st" SCRATCH; 0x03 "stx" SCRATCH;
    0x04 "add" CONSTANT; 0x0c "add" INDEX; 0x14 "sub" CONSTANT; 0x1c "sub" INDEX;
    0x24 "mul" CONSTANT; 0x2c "mul" INDEX; 0x34 "div" CONSTANT; 0x3c "div" INDEX;
    0x44 "or" CONSTANT; 0x4c "or" INDEX; 0x54 "and" CONSTANT; 0x5c "and" INDEX;
    0x64 "lsh" CONSTANT; 0x6c "lsh" INDEX; 0x74 "rsh" CONSTANT; 0x7c "rsh" INDEX;
    0xa4 "xor" CONSTANT; 0xac "xor" INDEX; 0x84 "neg" NOTHING;
    0x05 "ja" JUMP;
    0x15 "jeq" TEST_CONSTANT; 0x1d "jeq" TEST_INDEX; 0x25 "jgt" TEST_CONSTANT; 0x2d "jgt" TEST_INDEX;
    0x35 "jge" TEST_CONSTANT; 0x3d "jge" TEST_INDEX; 0x45 "jset" TEST_CONSTANT; 0x4d "jset" TEST_INDEX;
    0x06 "ret" CONSTANT; 0x16 "ret" ACCUMULATOR; 0x07 "tax" NOTHING; 0x87 "txa" NOTHING;
};

impl Encoding {
    /// All encodings, `raw` first.
    #[tactic(auto, unfolding(crate::specs::Encodings::known_encodings))]
    pub(crate) fn all() -> &'static [Encoding]
        ensures { map encoding_view result.now ≡ encodings }
    {
        &FORMS
    }

    /// The encodings of the 41 codes.
    #[tactic(auto, unfolding(crate::specs::Encodings::known_encodings))]
    fn known() -> &'static [Encoding]
        ensures { map encoding_view result.now ≡ known_encodings }
    {
        &FORMS[1..]
    }

    /// The encoding that fits every instruction.
    pub(crate) fn raw() -> Encoding
        ensures { encoding_view result ≡ raw }
    {
        FORMS[0]
    }

    /// Whether this is its mnemonic.
    pub(crate) fn has_mnemonic(&self, word: &[u8]) -> bool
        ensures { result ≡ has_mnemonic word.now (encoding_view self.now) }
    {
        word == self.mnemonic.as_bytes()
    }

    /// Whether some operand is the field.
    fn names(&self, field: Field) -> bool
        ensures { result ≡ list_any (names field) self.now.pieces.now }
    {
        self.pieces.iter().any(|piece| match piece {
            Piece::Number(named, _) | Piece::Target(named) => *named == field,
            _ => false,
        })
    }

    /// Whether the encoding shows everything of an instruction: its code, and the fields that it doesn't name are 0.
    fn tells_all(&self, insn: &Insn) -> bool
        ensures { result ≡ tells_all insn.now (encoding_view self.now) }
    {
        self.code == insn.code
            && (self.names(Field::Jt) || insn.jt == 0)
            && (self.names(Field::Jf) || insn.jf == 0)
            && (self.names(Field::K) || insn.k == 0)
    }

    /// The encoding in which an instruction is listed.
    #[tactic(auto, unfolding(crate::specs::Encodings::encoding_for))]
    pub(crate) fn of(insn: &Insn) -> Encoding
        ensures { encoding_view result ≡ encoding_for insn.now }
    {
        for encoding in Encoding::known() {
            if encoding.tells_all(insn) {
                return *encoding;
            }
        }
        Encoding::raw()
    }
}
