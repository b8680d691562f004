//! What a profile's text says beside the profile, and its lines.

ghost use Rattle.std.specs.Prelude.{◌≡◌, Some, map, string_bytes, true};
ghost use Rattle.std.specs.List.{flat_map};
ghost use Rattle.scf_tool.specs.Inputs.{left_out_of_each};
ghost use Rattle.scf_tool.specs.Reports.{left_out_front, left_out_text, length_text, name_line};
ghost use Rattle.scf_tool.specs.Reports as spec;

use scf_profile::{LoadedProfiles, Texts};
use std::fmt;

/// What was left out of a profile.
#[derive(Drop)]
pub struct LeftOut {
    /// The names that the table lacks, each occurrence, in the order of the text.
    pub skipped: Texts,
    /// The architectures beside SCMP_ARCH_X86_64, each occurrence, in the order of the text.
    pub other_architectures: Texts,
}

/// A line for each name, behind a word.
#[derive(Clone, Copy)]
pub(crate) struct NameLines<'a>(pub &'static str, pub &'a [String]);

impl fmt::Display for NameLines<'_> {
    ghost output = { λ lines. Some (flat_map (name_line lines.0.now) (map string_bytes lines.1.now)) };

    fn fmt<W: fmt::Write>(&self, f: &mut fmt::Formatter<W>) -> fmt::Result {
        let word = self.0;
        for name in self.1 {
            write!(f, "{word} {}\n", name.as_str())?;
        }
        Ok(())
    }
}

/// The length of each name, behind a blank.
#[derive(Clone, Copy)]
struct Lengths<'a>(&'a [String]);

impl fmt::Display for Lengths<'_> {
    ghost output = { λ lengths. Some (flat_map length_text (map string_bytes lengths.0.now)) };

    fn fmt<W: fmt::Write>(&self, f: &mut fmt::Formatter<W>) -> fmt::Result {
        for name in self.0 {
            write!(f, " {}", name.len())?;
        }
        Ok(())
    }
}

/// What was left out of a profile, and a line that ends it.
#[derive(Clone, Copy)]
pub(crate) struct LeftOutFront<'a>(pub &'a LoadedProfiles);

impl fmt::Display for LeftOutFront<'_> {
    ghost output = { λ front. Some (left_out_front true (left_out_of_each front.0.now)) };

    fn fmt<W: fmt::Write>(&self, f: &mut fmt::Formatter<W>) -> fmt::Result {
        let skipped = self.0.skipped.as_slice();
        let others = self.0.other_architectures.as_slice();
        let skipped_lines = NameLines("skipped", skipped);
        let other_lines = NameLines("other", others);
        let skipped = Lengths(skipped);
        let others = Lengths(others);
        write!(
            f,
            "{skipped_lines}{other_lines}left-out skipped{skipped} other{others}\n"
        )
    }
}

/// What was left out of a side, if it is a profile, behind a word for skipped names and one for other architectures.
#[derive(Clone, Copy)]
pub(crate) struct LeftOutLines<'a>(pub &'static str, pub &'static str, pub &'a Option<LeftOut>);

impl fmt::Display for LeftOutLines<'_> {
    ghost output = { λ lines. Some (left_out_text (lines.0.now, lines.1.now) lines.2.now) };

    fn fmt<W: fmt::Write>(&self, f: &mut fmt::Formatter<W>) -> fmt::Result {
        match self.2 {
            Some(left_out) => {
                let skipped = NameLines(self.0, left_out.skipped.as_slice());
                let others = NameLines(self.1, left_out.other_architectures.as_slice());
                write!(f, "{skipped}{others}")
            }
            None => Ok(()),
        }
    }
}

/// The words for what was left out of a profile, beside another one words of its own.
pub(crate) fn words_of_left_out(left: &Option<LeftOut>) -> (&'static str, &'static str)
    ensures { (result.0.now, result.1.now) ≡ spec.words_of_left_out left.now }
{
    match left {
        Some(_) => ("beside-skipped", "beside-other"),
        None => ("skipped", "other"),
    }
}
