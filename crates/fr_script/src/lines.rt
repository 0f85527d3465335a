//! Lines of a script as bytes: whether one is blank, and its fields.

ghost use Rattle.std.specs.Prelude.{◌≡◌, ◌≤◌, ◌||◌, ◌==◌, min, true, false, None, Some, MatchOption, IfSome, length};
ghost use Rattle.std.specs.Str.Parse.{digits_value};
ghost use Rattle.fr_value.specs.Grammar.{is_numeral};
ghost use Rattle.fr_script.specs.Limits.{greatest_number};
ghost use Rattle.fr_script.specs.Lines.{is_blank_line, past_spaces, field, past_field, has_more, fields, AreFields};

use fr_reader::is_blank;
use fr_value::symbol;

/// Whether a line holds only tabs, carriage returns and spaces, or these and then a `;`.
pub fn is_blank_line(line: &[u8]) -> bool
    ensures { result ≡ is_blank_line line.now }
{
    for b in line {
        if *b != b'\t' && *b != b'\r' && *b != b' ' {
            return *b == b';';
        }
    }
    true
}

fn is_gap(b: u8) -> bool
    ensures { result ≡ (b == 9 || b == 32) }
{
    b == b'\t' || b == b' '
}

/// What is left behind tabs and spaces.
fn past_spaces(bytes: &[u8]) -> &[u8]
    ensures { result.now ≡ past_spaces bytes.now }
{
    for (i, b) in bytes.iter().enumerate() {
        if !is_gap(*b) {
            return &bytes[i..];
        }
    }
    &[]
}

/// The bytes up to a tab, a space or the end, and what is left behind them.
fn field(bytes: &[u8]) -> (&[u8], &[u8])
    ensures value { result.0.now ≡ field bytes.now }
    ensures rest { result.1.now ≡ past_field bytes.now }
{
    for i in 0..bytes.len() {
        if is_gap(bytes[i]) {
            return bytes.split_at(i);
        }
    }
    bytes.split_at(bytes.len())
}

/// Whether some byte isn't blank.
fn has_more(bytes: &[u8]) -> bool
    ensures { result ≡ has_more bytes.now }
{
    for b in bytes {
        if !is_blank(*b) {
            return true;
        }
    }
    false
}

/// The number that these digits write, or the greatest of 64 bits where it is greater; None where they aren't digits alone.
fn number(digits: &[u8]) -> Option<u64>
    ensures { MatchOption result (is_numeral digits.now ≡ false)
        (λ n. (is_numeral digits.now ≡ true) × (n ≡ min (digits_value 10 digits.now) greatest_number)) }
{
    if digits.is_empty() {
        return None;
    }
    let mut value: u64 = 0;
    for b in digits {
        if *b < b'0' || *b > b'9' {
            return None;
        }
        value = value
            .saturating_mul(10)
            .saturating_add(u64::from(*b - b'0'));
    }
    Some(value)
}

/// The fields of a line.
#[derive(Clone, Copy)]
pub struct LineFields<'a> {
    /// The number of its time, or the greatest of 64 bits where it is greater.
    pub time: u64,
    pub name: &'a str,
    /// What its value is read from.
    pub rest: &'a [u8],
}

/// The fields of a line, or none where it isn't digits, a gap, a symbol, a gap and something that isn't blank.
#[tactic(auto, unfolding(crate::specs::Lines::fields))]
pub fn fields(line: &[u8]) -> Option<LineFields<'_>>
    ensures { MatchOption result (fields line.now ≡ None) (λ f. AreFields line.now f.time f.name.now f.rest.now) }
{
    let (digits, behind) = field(past_spaces(line));
    let (name, rest) = field(past_spaces(behind));
    let time = number(digits)?;
    let name = symbol(name)?;
    if has_more(rest) {
        Some(LineFields { time, name, rest })
    } else {
        None
    }
}
