//! Call records (Linux uapi seccomp.h, struct seccomp_data).

ghost use Rattle.std.specs.Prelude.{◌≡◌, ◌+◌, ◌<◌, ◌≤◌, ◌*◌, ◌^◌, ◌++◌, ℕ, length, take, drop, slice_index};
ghost use Rattle.std.specs.Int.{w32, to_le_bytes};
ghost use Rattle.scf_insn.specs.Words.{low, high, words_of, record_bytes, call_of, IsRecord};

use crate::kernel::{SECCOMP_DATA_ARGS, SECCOMP_DATA_LEN};

/// A syscall as a filter sees it, 64 bytes: the syscall number `nr`, the audit architecture `arch`, the instruction
/// pointer `ip`, and six 64-bit arguments `args`. The sixteen 32-bit words that a filter loads are `nr`, `arch`, and
/// the halves of the others, low half first.
#[derive(Clone, Copy)]
pub struct CallRecord {
    pub nr: u32,
    pub arch: u32,
    pub ip: u64,
    pub args: [u64; SECCOMP_DATA_ARGS],
}

/// The low 32 bits of a number.
pub fn low_half(n: u64) -> u32
    ensures { result ≡ low n }
{
    (n & 0xffff_ffff) as u32
}

/// The high 32 bits of a number.
pub fn high_half(n: u64) -> u32
    ensures { result ≡ high n }
{
    (n >> 32) as u32
}

/// The little-endian number in four bytes from an index.
fn word_at(bytes: &[u8], at: usize) -> u32
    requires { at + 4 ≤ length bytes.now }
    ensures { to_le_bytes w32 result ≡ take 4 (drop at bytes.now) }
{
    u32::from_le_bytes([bytes[at], bytes[at + 1], bytes[at + 2], bytes[at + 3]])
}

/// The number with these halves.
fn joined(low_word: u32, high_word: u32) -> u64
    ensures { result ≡ low_word + 2 ^ 32 * high_word }
{
    u64::from(low_word) + 0x1_0000_0000 * u64::from(high_word)
}

/// The little-endian number in eight bytes from an index.
fn number_at(bytes: &[u8], at: usize) -> u64
    requires { at + 8 ≤ length bytes.now }
    ensures { to_le_bytes w32 (low result) ++ to_le_bytes w32 (high result) ≡ take 8 (drop at bytes.now) }
{
    joined(word_at(bytes, at), word_at(bytes, at + 4))
}

fn recall_arguments(args: &[u64])
    ensures { (i : ℕ) → slice_index args.now i < 2 ^ 64 }
{}

fn recall_words(words: &[u32])
    ensures { (i : ℕ) → slice_index words.now i < 2 ^ 32 }
{}

impl CallRecord {
    /// A law for proofs: each field is within its width. Does nothing.
    pub fn within_widths(&self)
        ensures { IsRecord self.now }
    {
        let (_nr, _arch, _ip) = (self.nr, self.arch, self.ip);
        recall_arguments(&self.args);
    }

    /// The sixteen words: the low half of a 64-bit number, then the high one.
    ///
    /// May be inlined, so that a run doesn't begin with a call.
    #[inline]
    #[tactic(auto, using(std::proofs::lemmas::Grind::common_steps, crate::proofs::CallWords::halves_of_six))]
    pub fn words(&self) -> [u32; 16]
        ensures { result ≡ words_of self.now }
    {
        let [first, second, third, fourth, fifth, sixth] = self.args;
        [
            self.nr,
            self.arch,
            low_half(self.ip),
            high_half(self.ip),
            low_half(first),
            high_half(first),
            low_half(second),
            high_half(second),
            low_half(third),
            high_half(third),
            low_half(fourth),
            high_half(fourth),
            low_half(fifth),
            high_half(fifth),
            low_half(sixth),
            high_half(sixth),
        ]
    }

    /// The word with index `i`, 0 to 15: byte offset `4 * i`.
    pub fn word(&self, i: u8) -> u32
        requires { i < 16 }
        ensures { result ≡ slice_index (words_of self.now) i }
    {
        self.words()[i as usize]
    }

    /// The record with these words.
    pub fn from_words(words: &[u32; 16]) -> CallRecord
        ensures call { result ≡ call_of words.now }
        ensures words { words_of result ≡ words.now }
    {
        recall_words(words);
        CallRecord {
            nr: words[0],
            arch: words[1],
            ip: joined(words[2], words[3]),
            args: [
                joined(words[4], words[5]),
                joined(words[6], words[7]),
                joined(words[8], words[9]),
                joined(words[10], words[11]),
                joined(words[12], words[13]),
                joined(words[14], words[15]),
            ],
        }
    }

    /// The 64 bytes: the words in order, little-endian.
    pub fn to_bytes(&self) -> [u8; 64]
        ensures { result ≡ record_bytes self.now }
    {
        let words = self.words();
        let mut bytes = [0; SECCOMP_DATA_LEN];
        for (i, word) in words.iter().enumerate() {
            bytes[4 * i..4 * i + 4].copy_from_slice(&word.to_le_bytes());
        }
        bytes
    }

    /// The record with these bytes.
    pub fn from_bytes(bytes: [u8; 64]) -> CallRecord
        ensures { record_bytes result ≡ bytes }
    {
        CallRecord {
            nr: word_at(&bytes, 0),
            arch: word_at(&bytes, 4),
            ip: number_at(&bytes, 8),
            args: [
                number_at(&bytes, 16),
                number_at(&bytes, 24),
                number_at(&bytes, 32),
                number_at(&bytes, 40),
                number_at(&bytes, 48),
                number_at(&bytes, 56),
            ],
        }
    }
}
