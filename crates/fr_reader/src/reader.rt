ghost use Rattle.std.specs.Prelude.{◌≡◌, ◌+◌, ◌*◌, ◌≤◌, ◌<◌, ℕ, List as PlainList, length, map, IfOk, IfErr, Err};
ghost use Rattle.fr_value.specs.declared.value.Datum.{Datum};
ghost use Rattle.fr_value.specs.Data.{datum_of, data_of, total, datum_size};
ghost use Rattle.fr_value.specs.Grammar.{Reads, ReadsOne, IsRefused};
ghost use Rattle.fr_value.specs.Limits.{text_bound};
ghost use Rattle.fr_value.specs.Text.{datum_text};
ghost use Rattle.fr_reader.specs.declared.reader.OneStop.TheVariants as OneStop;
ghost use Rattle.fr_reader.specs.declared.reader.ReadStop.TheVariants as ReadStop;

use crate::bytes::past_gap;
use crate::front::{datum, push};
use fr_value::Value;
use std::alloc::{AllocError, Global};
use thiserror::Error;

/// Why a text was not read as one datum.
#[derive(Debug, Drop, Error)]
pub enum OneStop {
    /// Memory is wanting.
    #[error("memory is wanting")]
    Memory(AllocError),
    /// The text reads as no datum, or as more than one.
    #[error("the text is not one datum")]
    Refused,
}

impl From<AllocError> for OneStop {
    ghost use Rattle.std.specs.Prelude.{◌≡◌};
    ghost use Rattle.fr_reader.specs.declared.reader.OneStop.TheVariants as OneStop;

    ghost from_gives = { λ e r. r ≡ OneStop.Memory e };

    fn from(e: AllocError) -> OneStop {
        OneStop::Memory(e)
    }
}

/// Why a text was not read.
#[derive(Debug, Drop, Error)]
pub enum ReadStop {
    /// Memory is wanting.
    #[error("memory is wanting")]
    Memory(AllocError),
    /// The text does not read. The number, which counts from 1, is that of the first datum that does not read.
    #[error("datum {0} of the text does not read")]
    Refused(u32),
}

impl From<AllocError> for ReadStop {
    ghost use Rattle.std.specs.Prelude.{◌≡◌};
    ghost use Rattle.fr_reader.specs.declared.reader.ReadStop.TheVariants as ReadStop;

    ghost from_gives = { λ e r. r ≡ ReadStop.Memory e };

    fn from(e: AllocError) -> ReadStop {
        ReadStop::Memory(e)
    }
}

/// The levels that data nest at most: a leaf in as many lists as are allowed.
const LEVELS: u32 = 65;

/// The data of a text, whose sizes are together at most 8 times the number of its bytes.
///
/// `Refused` comes exactly where no list of data reads as the text. Its number is one more than the greatest number
/// of data that the front of the text reads as, where an atom ends before a delimiter or at the end.
pub fn read_all(alloc: Global, bytes: &[u8]) -> Result<Vec<Value>, ReadStop>
    requires { length bytes.now < text_bound }
    ensures reads { IfOk result (λ vs. Reads bytes.now (data_of vs.items)) }
    ensures sizes { IfOk result (λ vs. total (map datum_size (data_of vs.items)) ≤ 8 * length bytes.now) }
    ensures refused { IfErr result (λ e. (k : ℕ) → e ≡ ReadStop.Refused k → IsRefused bytes.now k) }
{
    let mut items = Vec::new(alloc);
    let mut rest = past_gap(bytes);
    while !rest.is_empty() {
        match datum(alloc, LEVELS, rest) {
            Ok((item, after)) => {
                push(&mut items, item)?;
                rest = past_gap(after);
            }
            Err(OneStop::Memory(e)) => return Err(ReadStop::Memory(e)),
            Err(OneStop::Refused) => return Err(ReadStop::Refused(items.len() as u32 + 1)),
        }
    }
    Ok(items)
}

/// The datum of a text that reads as one.
///
/// `Refused` comes exactly where the text does not read as one datum.
pub fn read_one(alloc: Global, bytes: &[u8]) -> Result<Value, OneStop>
    ensures reads { IfOk result (λ v. ReadsOne bytes.now (datum_of v)) }
    ensures refused { result ≡ Err OneStop.Refused → (d : Datum) → ReadsOne bytes.now d → ⊥ }
{
    let (item, after) = datum(alloc, LEVELS, past_gap(bytes))?;
    if past_gap(after).is_empty() {
        Ok(item)
    } else {
        Err(OneStop::Refused)
    }
}

/// A law: the printed text of a value reads as exactly that value.
pub fn printed_text_reads(v: &Value)
    ensures { ReadsOne (datum_text (datum_of v.now)) (datum_of v.now) }
{
    // the proof learns that the value is valid and within the limits
    let _ = v.size();
    let _ = v.depth();
}

/// A law: a text has at most one reading.
pub fn one_reading()
    ensures { (text : PlainList ℕ) (ds es : PlainList Datum) → Reads text ds → Reads text es → ds ≡ es }
{}
