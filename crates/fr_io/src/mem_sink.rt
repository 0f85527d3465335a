//! A sink in memory whose writes can be made to fail.
ghost use Rattle.std.specs.Prelude.{◌≡◌, ◌↔◌, ◌≤◌, ◌<◌, ◌-◌, [], Some, length, min, IsErr, IfOk, OnErr, OnOk, Vec, vec_capacity};

use crate::calls::Calls;
use crate::{Failed, Sink};
use std::alloc::{AllocError, Global};

/// Keeps what is written in memory, up to its room. The calls of `write` whose numbers, counted from
/// 1, are listed fail, and so does each write of a piece that isn't empty where no room is left.
///
/// The number of calls and the count of faults stand still at `u64::MAX`.
#[derive(Drop)]
pub struct MemSink {
    bytes: Vec<u8>,
    room: usize,
    faults: u64,
    calls: Calls,
    ghost has_room: { length bytes.items ≤ room },
    ghost kept: { room ≤ vec_capacity bytes },
}

impl MemSink {
    ghost use Rattle.fr_io.specs.MemSink.{sink_bytes, sink_room, fault_count, call_count, failing_calls};

    /// An empty sink with room for so many bytes, which it takes now. Fails only where that can't be
    /// had.
    pub fn new(alloc: Global, room: usize, failing: Vec<u64>) -> Result<MemSink, AllocError>
        ensures bytes { IfOk result (λ sink. sink_bytes sink ≡ []) }
        ensures room { IfOk result (λ sink. sink_room sink ≡ room) }
        ensures faults { IfOk result (λ sink. fault_count sink ≡ 0) }
        ensures calls { IfOk result (λ sink. call_count sink ≡ 0) }
        ensures failing { IfOk result (λ sink. failing_calls sink ≡ failing.items) }
    {
        let bytes = Vec::with_capacity(alloc, room)?;
        let calls = Calls::new(failing);
        Ok(MemSink {
            bytes,
            room,
            faults: 0,
            calls,
        })
    }

    /// All that was written.
    pub fn bytes(&self) -> &[u8]
        ensures { result.now ≡ sink_bytes self.now }
    {
        self.bytes.as_slice()
    }
}

impl Sink for MemSink {
    ghost use Rattle.std.specs.Io.KnownBytes.{WriteAppends};
    ghost use Rattle.fr_io.specs.Faults.{one_more, Rose};
    ghost use Rattle.fr_io.specs.MemSink.{sink_bytes, sink_room, room_left, fault_count, call_count, failing_calls, FailsNext};

    ghost written = { λ sink. Some (sink_bytes sink) };

    ghost faults = { fault_count };

    fn write(&mut self, bytes: &[u8]) -> Result<usize, Failed>
        ensures within { IfOk result (λ n. n ≤ length bytes.now) }
        ensures some { IfOk result (λ n. 0 < length bytes.now → 0 < n) }
        ensures written { WriteAppends (Some (sink_bytes self.old)) (Some (sink_bytes self.new)) result bytes.now }
        ensures counts { fault_count self.old ≤ fault_count self.new }
        ensures counts_stay { OnOk result (fault_count self.new ≡ fault_count self.old) }
        ensures cause { OnErr result (Rose (fault_count self.old) (fault_count self.new)) }

        // What this sink alone says: which calls fail, how much the others take, and what is counted.
        ensures fails { IsErr result ↔ FailsNext self.old bytes.now }
        ensures amount { IfOk result (λ n. n ≡ min (length bytes.now) (room_left self.old)) }
        ensures counts_one { OnErr result (fault_count self.new ≡ one_more (fault_count self.old)) }
        ensures calls { call_count self.new ≡ one_more (call_count self.old) }
        ensures failing { failing_calls self.new ≡ failing_calls self.old }
        ensures room { sink_room self.new ≡ sink_room self.old }
    {
        let fails = self.calls.begin();
        let n = bytes.len().min(self.room - self.bytes.len());
        let is_full = n == 0 && !bytes.is_empty();
        if fails || is_full || self.bytes.extend_from_slice(&bytes[..n]).is_err() {
            self.faults = self.faults.saturating_add(1);
            return Err(Failed);
        }
        Ok(n)
    }
}
