//! What is known of the lines before a line.

ghost use Rattle.std.specs.Prelude.{◌≡◌, ◌+◌, ◌<◌, ◌≤◌, IfOk, OnErr, None, Some, true, false};
ghost use Rattle.fr_script.specs.Limits.{script_limit, instant_limit};
ghost use Rattle.fr_script.specs.Instants.{alone};
ghost use Rattle.fr_script.specs.Kinds.{is_long, is_beyond, is_time, is_full, is_wrong, begins, stands, last_time};
ghost use Rattle.fr_script.specs.Ahead.{none_before, passed, IsSetIn, CanJoin, MaySet, joins};

use fr_core::{Entry, Inputs, Sets};
use fr_value::SrcId;
use std::alloc::{AllocError, Global};
use std::marker::Model;

/// The most bytes of a line, without its newline.
const MAX_LINE: u64 = 65_536;

/// The most bytes of a script.
const MAX_SCRIPT: u64 = 1_099_511_627_776;

/// The greatest time.
const MAX_TIME: u64 = 9_223_372_036_854_775_807;

/// What is known of the lines before a line. Contracts see the numbers of lines, bytes and instants, and the last instant.
#[derive(Drop)]
pub struct Progress {
    lines: u64,
    bytes: u64,
    // the limit of instants is the type's own
    count: u32,
    // the last instant, which isn't whole yet
    last: Option<Inputs>,
}

impl Model for Progress {
    ghost use Rattle.std.specs.Prelude.{◌≤◌};
    ghost use Rattle.fr_script.specs.Limits.{script_limit};
    ghost use Rattle.fr_script.specs.Past.{Past, past_code};

    ghost Value = { Past };

    ghost coded = { past_code };

    ghost view = { λ p. record { lines = p.lines; bytes = p.bytes; count = p.count; last = p.last } };

    ghost invariant = { λ p. (p.lines ≤ p.bytes) × (p.bytes ≤ script_limit) };
}

fn time_of(last: &Option<Inputs>) -> u64
    ensures { result ≡ last_time last.now }
{
    match last {
        Some(inputs) => inputs.time,
        None => 0,
    }
}

fn is_before(last: &Option<Inputs>, time: u64) -> bool
    ensures { result ≡ begins last.now time }
{
    match last {
        Some(inputs) => inputs.time < time,
        None => true,
    }
}

/// Whether an instant of this time sets a source, which is sought by halving, and so takes little time among many.
fn sets(last: &Option<Inputs>, time: u64, source: SrcId) -> bool
    ensures { result ≡ stands last.now time source }
{
    match last {
        Some(inputs) => inputs.time == time && inputs.sets.value_of(source).is_some(),
        None => false,
    }
}

/// An instant of one line.
fn alone(alloc: Global, time: u64, entry: Entry) -> Result<Inputs, AllocError>
    ensures { IfOk result (λ inputs. inputs ≡ alone time entry) }
{
    let mut sets = Sets::new(alloc);
    sets.put(entry.source, entry.value)?;
    Ok(Inputs { time, sets })
}

/// One more line of the last instant's time. After want of memory nothing was added.
fn add(last: &mut Option<Inputs>, entry: Entry) -> Result<(), AllocError>
    requires { CanJoin last.old entry.source }
    ensures ok { IfOk result (λ _. last.new ≡ Some (joins last.old 0 entry)) }
    ensures err { OnErr result (last.new ≡ last.old) }
{
    match last {
        Some(inputs) => inputs.sets.put(entry.source, entry.value),
        None => unreachable!(),
    }
}

fn is_time(time: u64) -> bool
    ensures { result ≡ is_time time }
{
    0 < time && time <= MAX_TIME
}

impl Progress {
    /// Before the first line.
    pub fn new() -> Progress
        ensures { result ≡ none_before }
    {
        Progress {
            lines: 0,
            bytes: 0,
            count: 0,
            last: None,
        }
    }

    /// The number of the next line, which counts from 1.
    pub fn line(&self) -> u64
        ensures { result ≡ self.now.lines + 1 }
    {
        self.lines + 1
    }

    /// Whether more bytes of a line than it may have stand among those that a script may have.
    pub fn is_long(&self, line: &[u8]) -> bool
        ensures { result ≡ is_long self.now.bytes line.now }
    {
        MAX_LINE < (line.len() as u64).min(MAX_SCRIPT - self.bytes)
    }

    /// Whether so many bytes more are more than a script may have.
    pub fn is_beyond(&self, more: u64) -> bool
        ensures { result ≡ is_beyond self.now.bytes more }
    {
        MAX_SCRIPT - self.bytes < more
    }

    /// Whether a line of this time begins a further instant.
    pub fn begins(&self, time: u64) -> bool
        ensures { result ≡ begins self.now.last time }
    {
        is_before(&self.last, time)
    }

    /// Whether a line of this time begins an instant too many.
    pub fn is_full(&self, time: u64) -> bool
        ensures { result ≡ is_full self.now time }
    {
        is_time(time) && self.begins(time) && self.count == u32::MAX
    }

    /// Whether a time is out of range or below the last one.
    pub fn is_wrong(&self, time: u64) -> bool
        ensures { result ≡ is_wrong self.now time }
    {
        !(is_time(time) && time_of(&self.last) <= time)
    }

    /// Whether a source is set at this time already.
    pub fn stands(&self, time: u64, source: SrcId) -> bool
        ensures { result ≡ stands self.now.last time source }
    {
        sets(&self.last, time, source)
    }

    /// Goes behind one more line of so many bytes.
    pub fn pass(&mut self, n: u64)
        requires some { 0 < n }
        requires within { self.old.bytes + n ≤ script_limit }
        ensures { self.new ≡ passed self.old n }
    {
        self.bytes += n;
        self.lines += 1;
    }

    fn begin(
        &mut self,
        alloc: Global,
        time: u64,
        entry: Entry,
    ) -> Result<Option<Inputs>, AllocError>
        requires begins { begins self.old.last time ≡ true }
        requires room { self.old.count < instant_limit }
        ensures ok { IfOk result (λ closed. IsSetIn self.old time entry closed self.new) }
        ensures err { OnErr result (self.new ≡ self.old) }
    {
        let inputs = alone(alloc, time, entry)?;
        self.count += 1;
        Ok(self.last.replace(inputs))
    }

    fn join(&mut self, time: u64, entry: Entry) -> Result<(), AllocError>
        requires begins { begins self.old.last time ≡ false }
        requires free { CanJoin self.old.last entry.source }
        ensures ok { IfOk result (λ _. IsSetIn self.old time entry None self.new) }
        ensures err { OnErr result (self.new ≡ self.old) }
    {
        add(&mut self.last, entry)
    }

    /// Sets a value at a time, and gives the instant that the line makes whole. After want of memory nothing was set.
    pub fn set(
        &mut self,
        alloc: Global,
        time: u64,
        entry: Entry,
    ) -> Result<Option<Inputs>, AllocError>
        requires { MaySet self.old time entry.source }
        ensures ok { IfOk result (λ closed. IsSetIn self.old time entry closed self.new) }
        ensures err { OnErr result (self.new ≡ self.old) }
    {
        if self.begins(time) {
            self.begin(alloc, time, entry)
        } else {
            self.join(time, entry)?;
            Ok(None)
        }
    }

    /// Takes the last instant.
    pub fn take(&mut self) -> Option<Inputs>
        ensures value { result ≡ self.old.last }
        ensures rest { self.new ≡ record self.old { last = None } }
    {
        self.last.take()
    }
}
