ghost use Rattle.std.specs.Prelude.{◌≡◌, ◌≤◌, ◌<◌, ◌+◌, [], ◌++◌, Some, take, length, false, true, if◌then◌else◌, OnOk, OnErr, IfOk};
ghost use Rattle.esql_types.specs.Counts.{Rose, next_count};
ghost use Rattle.esql_io.specs.Sinks.{with_more};
ghost use Rattle.esql_io.specs.MemorySinks.{is_failing, taken_of};

use crate::{Failed, Sink};
use esql_types::Seq;
use std::alloc::{AllocError, Global};
use std::marker::Model;

/// A sink in memory, with room for some bytes, that takes at most a piece at a time and fails at chosen calls.
#[derive(Drop)]
pub struct MemorySink {
    taken: Vec<u8>,
    room: usize,
    piece: usize,
    failing: Seq<u64>,
    calls: u64,
    faults: u64,
}

impl Model for MemorySink {
    ghost use Rattle.std.specs.Prelude.{◌≡◌, ◌<◌, ◌≤◌, vec_len, vec_capacity};
    ghost use Rattle.esql_io.specs.MemorySinks.{MemorySinkState};

    ghost Value = { MemorySinkState };

    ghost view = { λ s. record {
      taken = s.taken.items;
      room = s.room;
      piece = s.piece;
      failing = s.failing;
      calls = s.calls;
      faults = s.faults;
    } };

    ghost invariant = { λ s. (vec_len s.taken ≤ s.room) × (s.room ≤ vec_capacity s.taken) × (0 < s.piece) };
}

impl MemorySink {
    /// A sink that takes at most `room` bytes, at most `piece` of them in one write. Its writes are numbered from 0, and
    /// those whose number is in `failing` fail, as do all after `room` bytes were taken.
    pub fn new(
        alloc: Global,
        room: usize,
        piece: usize,
        failing: Seq<u64>,
    ) -> Result<MemorySink, AllocError>
        requires { 0 < piece }
        ensures { IfOk result (λ sink. sink ≡ record {
          taken = [];
          room = room;
          piece = piece;
          failing = failing;
          calls = 0;
          faults = 0;
        }) }
    {
        Ok(MemorySink {
            taken: Vec::with_capacity(alloc, room)?,
            room,
            piece,
            failing,
            calls: 0,
            faults: 0,
        })
    }

    /// What was taken so far.
    pub fn bytes(&self) -> &[u8]
        ensures { result.now ≡ self.now.taken }
    {
        self.taken.as_slice()
    }

    fn fails(&self) -> bool
        ensures { result ≡ is_failing self.now }
    {
        self.failing.as_slice().contains(&self.calls) || self.room <= self.taken.len()
    }
}

impl Sink for MemorySink {
    ghost taken = { λ sink. Some sink.taken };

    ghost faults = { λ sink. sink.faults };

    /// Takes as many bytes as a piece and the room allow. Takes no memory.
    fn write(&mut self, bytes: &[u8]) -> Result<usize, Failed>
        ensures count { IfOk result (λ count. count ≤ length bytes.now) }
        ensures some { IfOk result (λ count. 0 < length bytes.now → 0 < count) }
        ensures took { IfOk result (λ count. Some self.new.taken ≡ with_more (Some self.old.taken) (take count bytes.now)) }
        ensures kept { OnErr result (Some self.new.taken ≡ Some self.old.taken) }
        ensures uncounted { OnOk result (self.new.faults ≡ self.old.faults) }
        ensures rose { OnErr result (Rose self.old.faults self.new.faults) }
        ensures faults { self.old.faults ≤ self.new.faults }
        ensures failing { OnErr result (is_failing self.old ≡ true) }
        ensures exact { IfOk result (λ count. (is_failing self.old ≡ false) × (count ≡ taken_of self.old (length bytes.now))) }
        ensures after_ok { IfOk result (λ count. self.new ≡ record self.old {
          taken = self.old.taken ++ take count bytes.now;
          calls = next_count self.old.calls;
        }) }
        ensures after_err { OnErr result (self.new ≡ record self.old {
          calls = next_count self.old.calls;
          faults = next_count self.old.faults;
        }) }
    {
        let fails = self.fails();
        self.calls = self.calls.saturating_add(1);
        if fails {
            self.faults = self.faults.saturating_add(1);
            return Err(Failed);
        }
        let count = bytes
            .len()
            .min(self.piece)
            .min(self.room - self.taken.len());
        let (front, _) = bytes.split_at(count);
        match self.taken.extend_from_slice(front) {
            Ok(()) => Ok(count),
            Err(_) => unreachable!(),
        }
    }
}
