//! A sink in memory, for tests: it tells what it holds, has so much room, and fails at the calls that it is told to.

ghost use Rattle.std.specs.Prelude.{◌≡◌, ◌<◌, ◌≤◌, ℕ, Bool, length, Some, Ok, Err, IfOk, OnErr, if◌then◌else◌, []};
ghost use Rattle.wp_edge.specs.Faults.{Rose};
ghost use Rattle.wp_edge.specs.Put.{IsTaken};
ghost use Rattle.wp_edge.specs.Fakes.{refuses_next, taken_next, put_once};

use crate::calls::{count, count_call};
use crate::lists::numbers::Numbers;
use crate::sink::{Sink, SinkError};
use std::alloc::{AllocError, Global};
use std::marker::Model;

/// Bytes in memory, and room for so many more.
#[derive(Debug, Drop)]
pub struct MemSink {
    held: Vec<u8>,
    room: u64,
    most: u64,
    fails: Numbers,
    calls: u64,
    faults: u64,
}

impl Model for MemSink {
    ghost use Rattle.std.specs.Prelude.{◌+◌, ◌≤◌, ◌^◌, vec_len, vec_capacity};
    ghost use Rattle.wp_edge.specs.Fakes.{Taken};

    ghost Value = { Taken };

    ghost view = { λ a. record {
      held = a.held.items;
      room = a.room;
      most = a.most;
      fails = a.fails;
      calls = a.calls;
      faults = a.faults;
    } };

    ghost invariant = { λ a. (vec_len a.held + a.room ≤ vec_capacity a.held) × (1 ≤ a.most) };
}

impl MemSink {
    /// An empty sink with room for `room` bytes, whose memory is taken here, so that no put takes any. A put takes
    /// at most `most` bytes; the puts of the numbers in `fails`, from 1, are to fail.
    pub fn new(alloc: Global, room: u64, most: u64, fails: Numbers) -> Result<MemSink, AllocError>
        requires { 1 ≤ most }
        ensures { IfOk result (λ sink. sink ≡ record { held = []; room = room; most = most; fails = fails; calls = 0; faults = 0 }) }
    {
        let held = Vec::with_capacity(alloc, room as usize)?;
        Ok(MemSink {
            held,
            room,
            most,
            fails,
            calls: 0,
            faults: 0,
        })
    }

    /// All that was taken, in the order of the puts.
    pub fn held(&self) -> &[u8]
        ensures { result.now ≡ self.now.held }
    {
        self.held.as_slice()
    }
}

impl Sink for MemSink {
    ghost use Rattle.std.specs.Prelude.{Some};

    ghost held = { λ sink. Some sink.held };

    ghost faults = { λ sink. sink.faults };

    fn put(&mut self, piece: &[u8]) -> Result<u64, SinkError>
        requires { 0 < length piece.now }
        ensures ok { IfOk result (IsTaken (Some self.old.held) (Some self.new.held) piece.now) }
        ensures err { OnErr result (Some self.new.held ≡ Some self.old.held) }
        ensures cause { OnErr result (Rose self.old.faults self.new.faults) }
        ensures later { self.old.faults ≤ self.new.faults }

        // A listed call fails, and so does one that finds no room; both are counted.
        ensures sink { self.new ≡ put_once self.old piece.now }
        ensures count { result ≡ (if refuses_next self.old then Err SinkError.Failed else Ok (taken_next self.old piece.now)) }
    {
        if count_call(self.fails.as_slice(), &mut self.calls) || self.room == 0 {
            count(&mut self.faults);
            return Err(SinkError::Failed);
        }
        let count = self.most.min(self.room).min(piece.len() as u64);
        if self
            .held
            .extend_from_slice(&piece[..count as usize])
            .is_err()
        {
            unreachable!();
        }
        self.room -= count;
        Ok(count)
    }
}
