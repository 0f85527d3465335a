//! The shows of a program: what an instant prints of their values, and the last plain text of each.

ghost use Rattle.std.specs.Prelude.{◌≡◌, ◌<◌, ◌++◌, ◌∷◌, [], List, ℕ, None, Some, Ok, length, slice_set, map, IfOk, OnOk, OnErr, MatchOption};
ghost use Rattle.std.specs.List.{flat_map, range_with_len};
ghost use Rattle.fr_meaning.specs.Texts.{line, value_text, unless_last, shown_text, instant_text, next_each};
ghost use Rattle.fr_show.specs.Output.{shows_of};
ghost use Rattle.fr_show.specs.Shows.{plain_text, kept, last_at, RiseFrom, show_at, value_at, text_at, kept_at, AreAllPrinted};

use fr_core::{Item, Program};
use fr_value::{Now, Symbol, Value, text_into};
use itoa::Buffer;
use std::alloc::{AllocError, Global};
use std::marker::Model;

/// A printed text. Contracts see its bytes.
#[derive(Drop)]
struct Text {
    bytes: Vec<u8>,
}

impl Model for Text {
    ghost use Rattle.std.specs.Prelude.{List, ℕ};

    ghost Value = { List ℕ };

    ghost view = { λ t. t.bytes.items };
}

/// A show: its name, and the last plain text that it had, if it had one.
#[derive(Drop)]
struct Show {
    name: Symbol,
    last: Option<Text>,
}

impl Model for Show {
    ghost use Rattle.fr_meaning.specs.Texts.{Shown};
    ghost use Rattle.fr_show.specs.Shows.{shown_code};

    ghost Value = { Shown };

    ghost coded = { shown_code };

    ghost view = { λ s. record { name = s.name; last = s.last } };
}

/// The shows of a program and the last plain text of each. Contracts see the list of these.
#[derive(Drop)]
pub struct Shows {
    alloc: Global,
    shows: Vec<Show>,
}

impl Model for Shows {
    ghost use Rattle.std.specs.Prelude.{List};
    ghost use Rattle.std.specs.Coded.{coded_list};
    ghost use Rattle.fr_meaning.specs.Texts.{Shown};
    ghost use Rattle.fr_show.specs.Shows.{shown_code};

    ghost Value = { List Shown };

    ghost coded = { coded_list shown_code };

    ghost view = { λ s. s.shows.items };
}

/// What an instant prints of some shows, and the texts that are kept of it.
#[derive(Drop)]
struct Printed {
    bytes: Vec<u8>,
    // for each of these shows, the text of its value where that is plain
    texts: Vec<Option<Text>>,
}

impl Text {
    fn of(alloc: Global, value: &Value) -> Result<Text, AllocError>
        ensures { IfOk result (λ t. t ≡ value_text value.now) }
    {
        let mut bytes = Vec::new(alloc);
        text_into(value, &mut bytes)?;
        Ok(Text { bytes })
    }

    fn as_bytes(&self) -> &[u8]
        ensures { result.now ≡ self.now }
    {
        self.bytes.as_slice()
    }
}

fn push_line(out: &mut Vec<u8>, time: u64, name: &Symbol, text: &Text) -> Result<(), AllocError>
    ensures { OnOk result (out.new.items ≡ out.old.items ++ line time name.now text.now) }
{
    out.extend_from_slice(Buffer::new().format(time).as_bytes())?;
    out.push(b' ')?;
    out.extend_from_slice(name.as_str().as_bytes())?;
    out.push(b' ')?;
    out.extend_from_slice(text.as_bytes())?;
    out.push(b'\n')?;
    Ok(())
}

/// A line of a plain text, unless it is the last that the show had.
fn push_unless_last(
    out: &mut Vec<u8>,
    time: u64,
    show: &Show,
    text: &Text,
) -> Result<(), AllocError>
    ensures { OnOk result (out.new.items ≡ out.old.items ++
        unless_last show.now.last text.now (line time show.now.name text.now)) }
{
    match &show.last {
        Some(last) => {
            if last.as_bytes() == text.as_bytes() {
                Ok(())
            } else {
                push_line(out, time, &show.name, text)
            }
        }
        None => push_line(out, time, &show.name, text),
    }
}

/// What is printed of a plain value, and its text.
fn push_plain(
    alloc: Global,
    out: &mut Vec<u8>,
    time: u64,
    show: &Show,
    value: &Value,
) -> Result<Option<Text>, AllocError>
    ensures text { IfOk result (λ t. t ≡ Some (value_text value.now)) }
    ensures printed { OnOk result (out.new.items ≡ out.old.items ++
        unless_last show.now.last (value_text value.now)
        (line time show.now.name (value_text value.now))) }
{
    let text = Text::of(alloc, value)?;
    push_unless_last(out, time, show, &text)?;
    Ok(Some(text))
}

/// What is printed of an occurrence, of which no text is kept.
fn push_occurrence(
    alloc: Global,
    out: &mut Vec<u8>,
    time: u64,
    name: &Symbol,
    payload: &Value,
) -> Result<Option<Text>, AllocError>
    ensures text { IfOk result (λ t. t ≡ None) }
    ensures printed { OnOk result (out.new.items ≡ out.old.items ++
        line time name.now (value_text payload.now)) }
{
    let text = Text::of(alloc, payload)?;
    push_line(out, time, name, &text)?;
    Ok(None)
}

/// What is printed of a show's value, and the text that is kept of it.
fn push_show(
    alloc: Global,
    out: &mut Vec<u8>,
    time: u64,
    show: &Show,
    value: &Now,
) -> Result<Option<Text>, AllocError>
    ensures text { IfOk result (λ t. t ≡ plain_text value.now) }
    ensures printed { OnOk result (out.new.items ≡ out.old.items ++
        shown_text time show.now (Ok value.now)) }
{
    match value {
        Now::Plain(v) => push_plain(alloc, out, time, show, v),
        Now::Occ(Some(v)) => push_occurrence(alloc, out, time, &show.name, v),
        Now::Occ(None) => Ok(None),
    }
}

/// Adds what is printed of the show with a number, and the text that is kept of it.
fn print_show(
    alloc: Global,
    printed: &mut Printed,
    time: u64,
    shows: &[Show],
    values: &[Now],
    number: usize,
) -> Result<(), AllocError>
    requires one_each { length values.now ≡ length shows.now }
    requires within { number < length shows.now }
    ensures bytes { OnOk result (printed.new.bytes.items ≡ printed.old.bytes.items ++
        text_at time shows.now values.now number) }
    ensures texts { OnOk result (printed.new.texts.items ≡ printed.old.texts.items ++
        plain_text (value_at values.now number) ∷ []) }
{
    let show = &shows[number];
    let text = push_show(alloc, &mut printed.bytes, time, show, &values[number])?;
    printed.texts.push(text)?;
    Ok(())
}

/// What is printed of the shows with these numbers, each with its value.
fn print_shows(
    alloc: Global,
    time: u64,
    shows: &[Show],
    values: &[Now],
    numbers: &[usize],
) -> Result<Printed, AllocError>
    requires one_each { length values.now ≡ length shows.now }
    requires rising { RiseFrom 0 (length shows.now) numbers.now }
    ensures bytes { IfOk result (λ p. p.bytes.items ≡
        flat_map (text_at time shows.now values.now) numbers.now) }
    ensures texts { IfOk result (λ p. p.texts.items ≡
        map (λ n. plain_text (value_at values.now n)) numbers.now) }
{
    let mut printed = Printed {
        bytes: Vec::new(alloc),
        texts: Vec::new(alloc),
    };
    for number in numbers {
        print_show(alloc, &mut printed, time, shows, values, *number)?;
    }
    Ok(printed)
}

/// Keeps a text, if there is one, as the show's last.
fn keep(show: &mut Show, text: &mut Option<Text>)
    ensures { show.new ≡ kept show.old text.old }
{
    if let Some(text) = text.take() {
        show.last = Some(text);
    }
}

/// Keeps a text, if there is one, as the last of the show with a number.
fn keep_at(shows: &mut [Show], number: usize, text: &mut Option<Text>)
    requires within { number < length shows.old }
    ensures { shows.new ≡ slice_set shows.old number (kept (show_at shows.old number) text.old) }
{
    keep(&mut shows[number], text);
}

/// Keeps the texts as the last of the shows with these numbers. It takes no memory.
fn keep_each(shows: &mut [Show], numbers: &[usize], texts: &mut [Option<Text>])
    requires one_each { length texts.old ≡ length numbers.now }
    requires rising { RiseFrom 0 (length shows.old) numbers.now }
    ensures { shows.new ≡ kept_at shows.old numbers.now texts.old }
{
    for (at, number) in numbers.iter().enumerate() {
        keep_at(shows, *number, &mut texts[at]);
    }
}

/// The same for shows of a vector.
fn keep_all(shows: &mut Vec<Show>, numbers: &[usize], texts: &mut [Option<Text>])
    requires one_each { length texts.old ≡ length numbers.now }
    requires rising { RiseFrom 0 (length shows.old.items) numbers.now }
    ensures { shows.new.items ≡ kept_at shows.old.items numbers.now texts.old }
{
    keep_each(shows.as_mut_slice(), numbers, texts);
}

/// The numbers of so many shows, in rising order. It fails only for want of memory.
pub fn all_numbers(alloc: Global, count: usize) -> Result<Vec<usize>, AllocError>
    ensures { IfOk result (λ numbers. numbers.items ≡ range_with_len 0 count) }
{
    let mut numbers = Vec::new(alloc);
    for number in 0..count {
        numbers.push(number)?;
    }
    Ok(numbers)
}

/// Adds the show that an item is, if it is one.
fn push_item(shows: &mut Vec<Show>, item: &Item) -> Result<(), AllocError>
    ensures { OnOk result (shows.new.items ≡ shows.old.items ++ shows_of (item.now ∷ [])) }
{
    match item {
        Item::Define(_) => Ok(()),
        Item::Show(name, _) => {
            let name = name.share()?;
            shows.push(Show { name, last: None })?;
            Ok(())
        }
    }
}

fn shows_in(alloc: Global, items: &[Item]) -> Result<Vec<Show>, AllocError>
    ensures { IfOk result (λ shows. shows.items ≡ shows_of items.now) }
{
    let mut shows = Vec::new(alloc);
    for item in items {
        push_item(&mut shows, item)?;
    }
    Ok(shows)
}

fn last_of(show: &Show) -> Option<&[u8]>
    ensures { MatchOption result (show.now.last ≡ None) (λ t. show.now.last ≡ Some t.now) }
{
    match &show.last {
        Some(text) => Some(text.as_bytes()),
        None => None,
    }
}

impl Shows {
    /// The shows of a program, of which none was printed yet. It fails only for want of memory.
    pub fn new(alloc: Global, program: &Program) -> Result<Shows, AllocError>
        ensures { IfOk result (λ s. s ≡ shows_of program.now.body) }
    {
        let shows = shows_in(alloc, program.body.as_slice())?;
        Ok(Shows { alloc, shows })
    }

    /// The text of an instant at which the shows have these values, in the program's order. An
    /// occurrence is always printed, and a plain value where its text isn't the last plain text of
    /// its show, which it then is.
    ///
    /// Shows count from 0. Only those with these numbers are looked at, and it takes no time but for
    /// them: nothing is to be printed of any other. After want of memory the shows are unchanged.
    #[tactic(auto, using(crate::proofs::Numbered::text_is, crate::proofs::Keeping::kept_is))]
    pub fn text(
        &mut self,
        time: u64,
        values: &[Now],
        numbers: &[usize],
    ) -> Result<Vec<u8>, AllocError>
        requires one_each { length values.now ≡ length self.old }
        requires all { AreAllPrinted time self.old values.now numbers.now }
        ensures text { IfOk result (λ t. t.items ≡
            instant_text time self.old (map (λ v. Ok v) values.now)) }
        ensures after { OnOk result (self.new ≡ next_each self.old (map (λ v. Ok v) values.now)) }
        ensures err { OnErr result (self.new ≡ self.old) }
    {
        let mut printed = print_shows(self.alloc, time, &self.shows, values, numbers)?;
        keep_all(&mut self.shows, numbers, &mut printed.texts);
        Ok(printed.bytes)
    }

    /// The last plain text of the show at an index, which counts from 0; None where it had none yet.
    pub fn last(&self, k: usize) -> Option<&[u8]>
        requires there { k < length self.now }
        ensures { MatchOption result (last_at self.now k ≡ None)
            (λ t. last_at self.now k ≡ Some t.now) }
    {
        last_of(&self.shows[k])
    }

    /// The number of shows.
    pub fn len(&self) -> usize
        ensures { result ≡ length self.now }
    {
        self.shows.len()
    }
}
