ghost use Rattle.std.specs.Prelude.{◌≡◌, ℕ, List as PlainList, ◌++◌, ◌∷◌, [], OnOk, OnErr, map, drop};
ghost use Rattle.fr_value.specs.Data.{data_of, datum_of};
ghost use Rattle.fr_value.specs.Text.{datum_text, escaped, escaped_byte, spaced, behind_texts, behind_data, AppendsPart};

use crate::list::List;
use crate::value::Value;
use itoa::Buffer;
use std::alloc::AllocError;

/// Appends a value's printed text.
///
/// An integer is printed in decimal, with `-` where it is negative; a truth value as `#t` or `#f`; a symbol as it is;
/// a string in quotation marks, with escapes for these marks, the backslash, the newline, the tab and the carriage
/// return; a list in round brackets with one space between its items. Where memory is wanting a first part of the
/// text was appended.
#[cycle(text)]
#[tactic(auto, using(crate::proofs::Parts::text_of))]
pub fn text_into(v: &Value, out: &mut Vec<u8>) -> Result<(), AllocError>
    ensures whole { OnOk result (out.new.items ≡ out.old.items ++ datum_text (datum_of v.now)) }
    ensures part { OnErr result (AppendsPart out.old.items out.new.items (datum_text (datum_of v.now))) }
{
    match v {
        Value::Int(n) => out.extend_from_slice(Buffer::new().format(*n).as_bytes()),
        Value::Bool(true) => out.extend_from_slice(b"#t"),
        Value::Bool(false) => out.extend_from_slice(b"#f"),
        Value::Sym(s) => out.extend_from_slice(s.as_str().as_bytes()),
        Value::Str(s) => string_into(s.as_str().as_bytes(), out),
        Value::List(l) => list_into(l, out),
    }
}

/// Appends a list's text.
#[cycle(text)]
fn list_into(list: &List, out: &mut Vec<u8>) -> Result<(), AllocError>
    ensures whole { OnOk result (out.new.items ≡ out.old.items ++ (40 ∷ spaced (map datum_text list.now) ++ 41 ∷ [])) }
    ensures part { OnErr result (AppendsPart out.old.items out.new.items (40 ∷ spaced (map datum_text list.now) ++ 41 ∷ [])) }
{
    out.extend_from_slice(b"(")?;
    if let Some(first) = list.get(0) {
        text_into(first, out)?;
        behind_into(list, out)?;
    }
    out.extend_from_slice(b")")
}

/// Appends a space and the text of each item behind the first.
#[cycle(text)]
fn behind_into(list: &List, out: &mut Vec<u8>) -> Result<(), AllocError>
    ensures whole { OnOk result (out.new.items ≡ out.old.items ++ behind_data (drop 1 list.now)) }
    ensures part { OnErr result (AppendsPart out.old.items out.new.items (behind_data (drop 1 list.now))) }
{
    let mut at = 1;
    while at < list.len() {
        let (first, others) = list.run(at);
        run_into(first, others, out)?;
        at += 1 + others.len();
    }
    Ok(())
}

/// Appends a space and the text of each of these items.
#[cycle(text)]
fn run_into(first: &Value, others: &[Value], out: &mut Vec<u8>) -> Result<(), AllocError>
    ensures whole { OnOk result (out.new.items ≡ out.old.items ++ behind_texts (first.now ∷ others.now)) }
    ensures part { OnErr result (AppendsPart out.old.items out.new.items (behind_texts (first.now ∷ others.now))) }
{
    out.extend_from_slice(b" ")?;
    text_into(first, out)?;
    others_into(others, out)
}

/// Appends a space and the text of each item.
#[cycle(text)]
fn others_into(items: &[Value], out: &mut Vec<u8>) -> Result<(), AllocError>
    ensures whole { OnOk result (out.new.items ≡ out.old.items ++ behind_texts items.now) }
    ensures part { OnErr result (AppendsPart out.old.items out.new.items (behind_texts items.now)) }
{
    for item in items {
        out.extend_from_slice(b" ")?;
        text_into(item, out)?;
    }
    Ok(())
}

/// Appends a string's text.
fn string_into(bytes: &[u8], out: &mut Vec<u8>) -> Result<(), AllocError>
    ensures whole { OnOk result (out.new.items ≡ out.old.items ++ (34 ∷ escaped bytes.now ++ 34 ∷ [])) }
    ensures part { OnErr result (AppendsPart out.old.items out.new.items (34 ∷ escaped bytes.now ++ 34 ∷ [])) }
{
    out.extend_from_slice(b"\"")?;
    escaped_into(bytes, out)?;
    out.extend_from_slice(b"\"")
}

/// Appends bytes with their escapes.
fn escaped_into(bytes: &[u8], out: &mut Vec<u8>) -> Result<(), AllocError>
    ensures whole { OnOk result (out.new.items ≡ out.old.items ++ escaped bytes.now) }
    ensures part { OnErr result (AppendsPart out.old.items out.new.items (escaped bytes.now)) }
{
    for b in bytes {
        byte_into(*b, out)?;
    }
    Ok(())
}

/// Appends a byte, or its escape.
fn byte_into(b: u8, out: &mut Vec<u8>) -> Result<(), AllocError>
    ensures whole { OnOk result (out.new.items ≡ out.old.items ++ escaped_byte b) }
    ensures part { OnErr result (out.new.items ≡ out.old.items) }
{
    match b {
        b'"' => out.extend_from_slice(b"\\\""),
        b'\\' => out.extend_from_slice(b"\\\\"),
        b'\n' => out.extend_from_slice(b"\\n"),
        b'\t' => out.extend_from_slice(b"\\t"),
        b'\r' => out.extend_from_slice(b"\\r"),
        b => out.extend_from_slice(&[b]),
    }
}
