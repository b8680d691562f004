//! Lines of a syscall table.

ghost use Rattle.std.specs.Prelude.{◌≡◌, ◌<◌, ◌≤◌, [], ◌∷◌, length, nat_lt, if◌then◌else◌, slice_index, false};
ghost use Rattle.std.specs.Prelude.{option_and_then, option_map, pos, ◌≢◌, IfErr, IfOk, IfSome};
ghost use Rattle.std.specs.List.{list_all};
ghost use Rattle.std.specs.Str.Lines.{lines, strip_carriage_return as without_carriage_return};
ghost use Rattle.scf_insn.specs.Kernel.{x32_syscall_bit};
ghost use Rattle.scf_insn.specs.Numbers.{numeral};
ghost use Rattle.scf_profile.specs.declared.table_fault.TableFault.TheVariants.{Memory};
ghost use Rattle.scf_profile.specs.Limits.{number_below};
ghost use Rattle.scf_profile.specs.internal.Results.{result_map};
ghost use Rattle.scf_profile.specs.Table.{entry_in, fields, is_call_name, is_in_name as in_name, is_separator};

use crate::table_fault::TableFault;
use scf_insn::kernel::X32_SYSCALL_BIT;
use scf_insn::parse_numeral;

fn strip_carriage_return(line: &[u8]) -> &[u8]
    ensures { result.now ≡ without_carriage_return line.now }
{
    match line {
        [front @ .., b'\r'] => front,
        _ => line,
    }
}

/// The first line, and the text behind it.
pub(crate) fn first_line(text: &[u8]) -> (&[u8], &[u8])
    requires { 0 < length text.now }
    ensures lines { lines text.now ≡ result.0.now ∷ lines result.1.now }
    ensures shorter { length result.1.now < length text.now }
{
    for (i, byte) in text.iter().enumerate() {
        if *byte == b'\n' {
            return (strip_carriage_return(&text[..i]), &text[i + 1..]);
        }
    }
    (text, &[])
}

fn is_blank(byte: u8) -> bool
    ensures { result ≡ is_separator byte }
{
    byte == b' ' || byte == b'\t'
}

/// The text without its leading blanks.
fn trimmed(text: &[u8]) -> &[u8]
    ensures fields { fields result.now ≡ fields text.now }
    ensures shorter { length result.now ≤ length text.now }
    ensures begins { 0 < length result.now → is_separator (slice_index result.now 0) ≡ false }
{
    let mut remaining = text;
    while let [first, behind @ ..] = remaining {
        if !is_blank(*first) {
            return remaining;
        }
        remaining = behind;
    }
    remaining
}

/// The first field, empty if there is none, and the text behind it.
fn first_field(text: &[u8]) -> (&[u8], &[u8])
    ensures { fields text.now
        ≡ (if nat_lt 0 (length result.0.now) then result.0.now ∷ fields result.1.now else []) }
{
    let line = trimmed(text);
    for (i, byte) in line.iter().enumerate() {
        if is_blank(*byte) {
            return line.split_at(i);
        }
    }
    (line, &[])
}

fn is_in_name(byte: u8) -> bool
    ensures { result ≡ in_name byte }
{
    byte.is_ascii_alphanumeric() || byte == b'_'
}

fn are_in_name(text: &[u8]) -> bool
    ensures { result ≡ list_all in_name text.now }
{
    text.iter().all(|byte| is_in_name(*byte))
}

/// Letters, digits and underscores, of which the first is no digit.
fn is_name(text: &[u8]) -> bool
    ensures { result ≡ is_call_name text.now }
{
    !text.is_empty() && !text[0].is_ascii_digit() && are_in_name(text)
}

/// The value of decimal digits, if it is below 0x40000000.
fn call_number(digits: &[u8]) -> Option<u32>
    ensures value { result
        ≡ option_and_then (λ n. number_below x32_syscall_bit (pos n)) (numeral 10 digits.now) }
    ensures range { IfSome result (λ n. n < x32_syscall_bit) }
{
    match parse_numeral(digits, 10) {
        Ok(number) if number < u64::from(X32_SYSCALL_BIT) => Some(number as u32),
        _ => None,
    }
}

/// The name and number on a line, or its first fault.
#[tactic(auto, using(crate::proofs::NamesOf::names_are_text), unfolding(crate::specs::Table::pair_of))]
pub(crate) fn entry_on(line: usize, text: &[u8]) -> Result<Option<(&str, u32)>, TableFault>
    ensures value { result_map (option_map (λ e. (e.0.now, e.1))) result
        ≡ entry_in line (fields text.now) }
    ensures range { IfOk result (λ entry. IfSome entry (λ e. e.1 < x32_syscall_bit)) }
    ensures err { IfErr result (λ e. e ≢ Memory) }
{
    let (name, behind_name) = first_field(text);
    if name.is_empty() || name[0] == b'#' {
        return Ok(None);
    }
    let (digits, behind_digits) = first_field(behind_name);
    let (third, _) = first_field(behind_digits);
    if digits.is_empty() || !third.is_empty() {
        return Err(TableFault::Form { line });
    }
    if !is_name(name) {
        return Err(TableFault::Name { line });
    }
    let Some(number) = call_number(digits) else {
        return Err(TableFault::Number { line });
    };
    let Ok(name) = str::from_utf8(name) else {
        unreachable!()
    };
    Ok(Some((name, number)))
}
