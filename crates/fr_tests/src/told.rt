//! Texts in which tests tell what a call answered.
use fr_value::{Bad, Value, text_into};
use itoa::Buffer;
use std::alloc::Global;

/// A text that is told to. Where memory lacked once it is no longer whole: that is kept here and not handed on at
/// each call, since an early end at each of the many calls is dear to prove.
#[derive(Drop)]
pub(crate) struct Told {
    text: Vec<u8>,
    is_whole: bool,
}

impl Told {
    pub(crate) fn new(alloc: Global) -> Told {
        Told {
            text: Vec::new(alloc),
            is_whole: true,
        }
    }

    /// Whether the text is whole and is this one.
    pub(crate) fn is(&self, want: &str) -> bool {
        self.is_whole && self.text.as_slice() == want.as_bytes()
    }

    /// Memory lacked for what was to be told.
    pub(crate) fn lacks(&mut self) {
        self.is_whole = false;
    }

    /// Bytes right behind what stands before.
    pub(crate) fn bytes(&mut self, bytes: &[u8]) {
        self.is_whole &= self.text.extend_from_slice(bytes).is_ok();
    }

    /// A text right behind what stands before.
    pub(crate) fn end(&mut self, text: &str) {
        self.bytes(text.as_bytes());
    }

    /// A text behind a space, where something stands before.
    pub(crate) fn word(&mut self, text: &str) {
        if !self.text.is_empty() {
            self.end(" ");
        }
        self.end(text);
    }

    /// A number right behind what stands before.
    pub(crate) fn digits(&mut self, number: u64) {
        self.end(Buffer::new().format(number));
    }

    /// A number behind a space, where something stands before.
    pub(crate) fn number(&mut self, number: u64) {
        self.word("");
        self.digits(number);
    }

    /// A value behind a space, where something stands before.
    pub(crate) fn value(&mut self, value: &Value) {
        self.word("");
        self.is_whole &= text_into(value, &mut self.text).is_ok();
    }

    /// The name of an error's kind behind a space, where something stands before.
    pub(crate) fn bad(&mut self, bad: Bad) {
        self.word(bad_word(bad));
    }
}

fn bad_word(bad: Bad) -> &'static str {
    match bad {
        Bad::WrongType => "WrongType",
        Bad::Range => "Range",
        Bad::Zero => "Zero",
        Bad::Empty => "Empty",
        Bad::Arity => "Arity",
        Bad::TooBig => "TooBig",
        Bad::NotData => "NotData",
        Bad::NotEvent => "NotEvent",
        Bad::Deep => "Deep",
        Bad::Raised => "Raised",
    }
}
