ghost use Rattle.std.specs.Prelude.{◌≡◌, ◌≤◌, ◌+◌, ℕ, length, IfOk, IfSome, false};
ghost use Rattle.std.specs.Option.{option_map};
ghost use Rattle.fr_value.specs.Bytes.{is_blank, is_delimiter, past_gap, atom, past_atom, string, escape};

use std::alloc::{AllocError, Global};

/// Whether a byte is a space, a tab, a newline or a carriage return.
pub fn is_blank(b: u8) -> bool
    ensures { result ≡ is_blank b }
{
    b == 9 || b == 10 || b == 13 || b == 32
}

/// Whether a byte ends an atom.
pub fn is_delimiter(b: u8) -> bool
    ensures { result ≡ is_delimiter b }
{
    is_blank(b)
        || b == b'('
        || b == b')'
        || b == b'['
        || b == b']'
        || b == b'"'
        || b == b';'
        || b == b'\''
}

/// What is left behind blanks and comments.
#[tactic(auto, unfolding(fr_value::specs::Bytes::past_gap))]
pub fn past_gap(bytes: &[u8]) -> &[u8]
    ensures value { result.now ≡ past_gap bytes.now }
    ensures less { length result.now ≤ length bytes.now }
{
    let mut rest = bytes;
    let mut comment = false;
    while let Some((b, tail)) = rest.split_first() {
        if comment {
            comment = *b != b'\n';
        } else if *b == b';' {
            comment = true;
        } else if !is_blank(*b) {
            return rest;
        }
        rest = tail;
    }
    rest
}

/// The atom at the front, and what is left behind it.
pub fn atom(bytes: &[u8]) -> (&[u8], &[u8])
    ensures value { result.0.now ≡ atom bytes.now }
    ensures rest { result.1.now ≡ past_atom bytes.now }
    ensures cut { length result.0.now + length result.1.now ≡ length bytes.now }
{
    for i in 0..bytes.len() {
        if is_delimiter(bytes[i]) {
            return bytes.split_at(i);
        }
    }
    bytes.split_at(bytes.len())
}

/// What stands for an escape behind its backslash; None where it is no escape.
fn escape(b: u8) -> Option<u8>
    ensures { result ≡ escape b }
{
    match b {
        b'"' => Some(b'"'),
        b'\\' => Some(b'\\'),
        b'n' => Some(b'\n'),
        b't' => Some(b'\t'),
        b'r' => Some(b'\r'),
        _ => None,
    }
}

/// A string's bytes behind its first quotation mark, and what is left behind its last; None where it has no end or a
/// wrong escape.
pub fn string_bytes(alloc: Global, bytes: &[u8]) -> Result<Option<(Vec<u8>, &[u8])>, AllocError>
    ensures value { IfOk result (λ found. option_map (λ x. (x.0.items, x.1.now)) found ≡ string false bytes.now) }
    ensures less { IfOk result (λ found. IfSome found (λ x. length x.1.now + 1 ≤ length bytes.now)) }
{
    let mut out = Vec::new(alloc);
    let mut rest = bytes;
    while let Some((b, tail)) = rest.split_first() {
        match *b {
            b'"' => return Ok(Some((out, tail))),
            b'\\' => {
                let Some((e, after)) = tail.split_first() else {
                    return Ok(None);
                };
                let Some(c) = escape(*e) else {
                    return Ok(None);
                };
                out.push(c).map_err(AllocError::from)?;
                rest = after;
            }
            c => {
                out.push(c).map_err(AllocError::from)?;
                rest = tail;
            }
        }
    }
    Ok(None)
}
