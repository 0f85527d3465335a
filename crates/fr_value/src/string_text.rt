ghost use Rattle.std.specs.Prelude.{◌≡◌, ℕ, List, ◌≤◌, IfOk, length, IsTrue, ◌↔◌, true};
ghost use Rattle.std.specs.Str.{is_utf8};
ghost use Rattle.std.specs.Rc.{rc_str_bytes};
ghost use Rattle.fr_value.specs.Limits.{most_bytes};

use std::alloc::{AllocError, Global};
use std::marker::Model;
use std::rc::RcStr;

/// A shared text of at most `MAX_TEXT_BYTES` bytes, as a string's content. Contracts see its bytes.
#[derive(Debug, Drop)]
pub struct Text {
    text: RcStr,
}

impl Model for Text {
    ghost Value = { List ℕ };

    ghost view = { λ t. rc_str_bytes t.text };

    ghost invariant = { λ t. length (rc_str_bytes t.text) ≤ most_bytes };
}

impl Text {
    /// A text that holds a copy of this one.
    pub fn from_str(alloc: Global, text: &str) -> Result<Text, AllocError>
        requires { length text.now ≤ most_bytes }
        ensures { IfOk result (λ t. t ≡ text.now) }
    {
        Ok(Text {
            text: RcStr::from_str(alloc, text)?,
        })
    }

    /// One more owner of the same text.
    pub fn share(&self) -> Result<Text, AllocError>
        ensures { IfOk result (λ t. t ≡ self.now) }
    {
        Ok(Text {
            text: self.text.clone()?,
        })
    }

    /// The number of its bytes, which are UTF-8 and at most `MAX_TEXT_BYTES`.
    pub fn len(&self) -> usize
        ensures value { result ≡ length self.now }
        ensures small { result ≤ most_bytes }
        ensures utf8 { is_utf8 self.now ≡ true }
    {
        self.text.as_str().len()
    }

    /// The text itself.
    pub fn as_str(&self) -> &str
        ensures { result.now ≡ self.now }
    {
        self.text.as_str()
    }

    /// Whether both hold the same bytes.
    pub fn same(&self, other: &Text) -> bool
        ensures { IsTrue result ↔ (self.now ≡ other.now) }
    {
        self.text == other.text
    }
}
