// A binary trace is written to a sink, in large pieces.
ghost use Rattle.std.specs.Prelude.{◌≡◌, ◌≤◌, ◌++◌, ℕ, List, length, Option, true, false, is_err, IsOk, IfOk, OnOk};
ghost use Rattle.std.specs.Io.KnownBytes.{Appends};
ghost use Rattle.ace_io.specs.Faults.{HasCause};
ghost use Rattle.ace_event.specs.Ports.{IsHeader};
ghost use Rattle.ace_event.specs.Range.{InRange};
ghost use Rattle.ace_bin.specs.Binary.{header_bytes};
ghost use Rattle.ace_bin.specs.Records.{event_bytes};

use crate::WriteErr;
use crate::byte_buf::{BYTE_ROOM, ByteBuf};
use ace_event::{Event, Header};
use ace_io::{Sink, give_all};

/// The most bytes of a record, with its tag.
const RECORD_LIMIT: usize = 79;

/// Writes a binary trace: its header, and a record for each event. The bytes wait until there are
/// about 4096 of them, or for a call of `flush`, and then go out in one piece. What waits when the
/// writer is dropped is never given.
#[derive(Drop)]
pub struct BinWriter<'a, K: Sink> {
    sink: &'a mut K,
    version: u8,
    bytes: ByteBuf,
    given: u64,
    failed: bool,
}

impl<'a, K: Sink> BinWriter<'a, K> {
    ghost use Rattle.ace_bin.specs.Given.{sink_of, version_of, in_hand, has_failed, given_of, GivesFront};

    /// A writer whose bytes are those of the header. Nothing is given yet, so it always succeeds:
    /// where the sink fails, a later call answers so.
    pub fn start(sink: &'a mut K, header: &Header) -> Result<BinWriter<'a, K>, WriteErr>
        requires { IsHeader header.now }
        ensures always { IsOk result }
        ensures same_sink { IfOk result (λ w. (sink_of w).ghost_name ≡ sink.entry.ghost_name) }
        ensures kept { IfOk result (λ w. (sink_of w).now ≡ sink.entry.now) }
        ensures bytes { IfOk result
            (λ w. GivesFront K.held (K.held sink.entry.now) (header_bytes header.now) w) }
        ensures version { IfOk result (λ w. version_of w ≡ header.now.version) }
        ensures whole { IfOk result (λ w. has_failed w ≡ false) }
    {
        let mut bytes = ByteBuf::empty();
        bytes.push_header(header);
        Ok(BinWriter {
            sink,
            version: header.version,
            bytes,
            given: 0,
            failed: false,
        })
    }

    /// The version of the trace, 1 or 2.
    pub fn version(&self) -> u8
        ensures { result ≡ version_of self.now }
    {
        self.version
    }

    /// Adds the record of an event in range. Some of the bytes before it may be given now.
    ///
    /// # Errors
    ///
    /// `WriteFault` where the sink's count of faults rose in this call, or where an earlier call of
    /// this writer answered it; then nothing is given. What was given is a front of the bytes in
    /// each case.
    pub fn put(&mut self, event: &Event) -> Result<(), WriteErr>
        requires { InRange (version_of self.old) event.now }
        ensures same_sink { (sink_of self.new).ghost_name ≡ (sink_of self.old).ghost_name }
        ensures same_version { version_of self.new ≡ version_of self.old }
        ensures bytes { (before : Option (List ℕ)) (bytes : List ℕ)
            → GivesFront K.held before bytes self.old
            → GivesFront K.held before (bytes ++ event_bytes event.now) self.new }
        ensures failed { has_failed self.new ≡ is_err result }
        ensures again { has_failed self.old ≡ true → self.new ≡ self.old }
        ensures cause { has_failed self.old ≡ false
            → HasCause (K.faults (sink_of self.old).now) (K.faults (sink_of self.new).now) result }
    {
        self.give_over(BYTE_ROOM - RECORD_LIMIT)?;
        self.bytes.push_event(event);
        Ok(())
    }

    /// Gives the bytes that wait: then all bytes so far are given.
    ///
    /// # Errors
    ///
    /// As those of `put`.
    pub fn flush(&mut self) -> Result<(), WriteErr>
        ensures same_sink { (sink_of self.new).ghost_name ≡ (sink_of self.old).ghost_name }
        ensures same_version { version_of self.new ≡ version_of self.old }
        ensures bytes { (before : Option (List ℕ)) (bytes : List ℕ)
            → GivesFront K.held before bytes self.old
            → GivesFront K.held before bytes self.new }
        ensures whole { OnOk result
            ((before : Option (List ℕ)) (bytes : List ℕ) → GivesFront K.held before bytes self.old
            → Appends before (K.held (sink_of self.new).now) bytes) }
        ensures failed { has_failed self.new ≡ is_err result }
        ensures again { has_failed self.old ≡ true → self.new ≡ self.old }
        ensures cause { has_failed self.old ≡ false
            → HasCause (K.faults (sink_of self.old).now) (K.faults (sink_of self.new).now) result }
    {
        self.give_over(0)
    }

    /// How many bytes were given, up to 18446744073709551615.
    pub fn given(&self) -> u64
        ensures { result ≡ given_of self.now }
    {
        self.given
    }

    /// Gives the bytes that wait where there are more than these. Its error is as those of `put`.
    fn give_over(&mut self, most: usize) -> Result<(), WriteErr>
        ensures same_sink { (sink_of self.new).ghost_name ≡ (sink_of self.old).ghost_name }
        ensures same_version { version_of self.new ≡ version_of self.old }
        ensures bytes { (before : Option (List ℕ)) (bytes : List ℕ)
            → GivesFront K.held before bytes self.old
            → GivesFront K.held before bytes self.new }
        ensures room { OnOk result (length (in_hand self.new) ≤ most) }
        ensures failed { has_failed self.new ≡ is_err result }
        ensures again { has_failed self.old ≡ true → self.new ≡ self.old }
        ensures cause { has_failed self.old ≡ false
            → HasCause (K.faults (sink_of self.old).now) (K.faults (sink_of self.new).now) result }
    {
        if self.failed {
            return Err(WriteErr::WriteFault);
        }
        if self.bytes.len() <= most {
            return Ok(());
        }
        let count = give_all(self.sink, self.bytes.bytes());
        self.given = self.given.saturating_add(count as u64);
        self.failed = count < self.bytes.len();
        self.bytes.clear();
        if self.failed {
            return Err(WriteErr::WriteFault);
        }
        Ok(())
    }
}
