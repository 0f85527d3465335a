//! Names as the texts of symbols.

ghost use Rattle.std.specs.Prelude.{◌≡◌, ◌||◌, ◌==◌, true, false, MatchOption};
ghost use Rattle.fr_value.specs.Bytes.{is_name, is_symbol_byte, are_symbol_bytes, begins_with_digit, without};

/// The text of a symbol, however long; None where the bytes are no symbol.
#[tactic(auto, using(crate::proofs::Ascii::no_name))]
pub fn symbol(bytes: &[u8]) -> Option<&str>
    ensures { MatchOption result (is_name bytes.now ≡ false) (λ name. (is_name bytes.now ≡ true) × (name.now ≡ bytes.now)) }
{
    if is_name(bytes) {
        str::from_utf8(bytes).ok()
    } else {
        None
    }
}

/// Whether bytes are a symbol.
fn is_name(bytes: &[u8]) -> bool
    ensures { result ≡ is_name bytes.now }
{
    let Some((b, tail)) = bytes.split_first() else {
        return false;
    };
    are_symbol_bytes(bytes)
        && !(*b == b'.' && tail.is_empty())
        && !begins_with_digit(without_point(without_sign(bytes)))
}

/// The bytes behind one sign, if there is one.
fn without_sign(bytes: &[u8]) -> &[u8]
    ensures { result.now ≡ without (λ b. b == 43 || b == 45) bytes.now }
{
    match bytes.split_first() {
        Some((b, tail)) if *b == b'+' || *b == b'-' => tail,
        _ => bytes,
    }
}

/// The bytes behind one point, if there is one.
fn without_point(bytes: &[u8]) -> &[u8]
    ensures { result.now ≡ without (λ b. b == 46) bytes.now }
{
    match bytes.split_first() {
        Some((b, tail)) if *b == b'.' => tail,
        _ => bytes,
    }
}

fn begins_with_digit(bytes: &[u8]) -> bool
    ensures { result ≡ begins_with_digit bytes.now }
{
    match bytes.first() {
        Some(b) => 48 <= *b && *b <= 57,
        None => false,
    }
}

fn are_symbol_bytes(bytes: &[u8]) -> bool
    ensures { result ≡ are_symbol_bytes bytes.now }
{
    for b in bytes {
        if !is_symbol_byte(*b) {
            return false;
        }
    }
    true
}

fn is_symbol_byte(b: u8) -> bool
    ensures { result ≡ is_symbol_byte b }
{
    matches!(b, b'a'..=b'z' | b'A'..=b'Z' | b'0'..=b':' | b'<'..=b'@' | b'$'..=b'&' | b'*'..=b'+' | b'-'..=b'/' | b'!' | b'^' | b'_' | b'~')
}
