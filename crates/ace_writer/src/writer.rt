// A trace is written to a sink, in large pieces.
ghost use Rattle.std.specs.Prelude.{◌≡◌, ◌≤◌, ◌++◌, ℕ, List, length, Option, true, false, is_err, IsOk, IfOk, OnOk, OnErr};
ghost use Rattle.std.specs.Io.KnownBytes.{Appends};
ghost use Rattle.ace_io.specs.Faults.{HasCause, Rose};
ghost use Rattle.ace_event.specs.Ports.{IsHeader};
ghost use Rattle.ace_event.specs.Range.{InRange};
ghost use Rattle.ace_event.specs.Text.{header_text, line_text, event_text};

use crate::WriteErr;
use crate::text_buf::{TEXT_ROOM, TextBuf};
use ace_event::{Event, Header};
use ace_io::{Sink, give_all};

/// The most bytes of a line, with its line feed.
const LINE_LIMIT: usize = 162;

/// Writes a trace: its header, and a line for each event. The text waits until there are about 4096
/// bytes of it, or for a call of `flush`, and then goes out in one piece. What waits when the
/// writer is dropped is never given.
#[derive(Drop)]
pub struct Writer<'a, K: Sink> {
    sink: &'a mut K,
    version: u8,
    text: TextBuf,
    given: u64,
    failed: bool,
}

impl<'a, K: Sink> Writer<'a, K> {
    ghost use Rattle.ace_writer.specs.Given.{sink_of, version_of, in_hand, has_failed, given_of, GivesFront};

    /// A writer whose text is the header's two lines. Nothing is given yet, so it always succeeds:
    /// where the sink fails, a later call answers so.
    pub fn start(sink: &'a mut K, header: &Header) -> Result<Writer<'a, K>, WriteErr>
        requires { IsHeader header.now }
        ensures always { IsOk result }
        ensures same_sink { IfOk result (λ w. (sink_of w).ghost_name ≡ sink.entry.ghost_name) }
        ensures kept { IfOk result (λ w. (sink_of w).now ≡ sink.entry.now) }
        ensures text { IfOk result (λ w. GivesFront K.held (K.held sink.entry.now)
            (header_text header.now) w) }
        ensures version { IfOk result (λ w. version_of w ≡ header.now.version) }
        ensures whole { IfOk result (λ w. has_failed w ≡ false) }
    {
        let mut text = TextBuf::empty();
        text.push_header(header);
        Ok(Writer {
            sink,
            version: header.version,
            text,
            given: 0,
            failed: false,
        })
    }

    /// Adds the line of the event, as the version of the header has it, to the text. Some of the
    /// text before it may be given now.
    ///
    /// # Errors
    ///
    /// `WriteFault` where the sink's count of faults rose in this call, or where an earlier call of
    /// this writer answered it; then nothing is given. What was given is a front of the text in
    /// each case.
    pub fn put(&mut self, event: &Event) -> Result<(), WriteErr>
        requires { InRange (version_of self.old) event.now }
        ensures same_sink { (sink_of self.new).ghost_name ≡ (sink_of self.old).ghost_name }
        ensures same_version { version_of self.new ≡ version_of self.old }
        ensures text { (before : Option (List ℕ)) (text : List ℕ)
            → GivesFront K.held before text self.old
            → GivesFront K.held before (text
            ++ line_text (event_text (version_of self.old) event.now)) self.new }
        ensures failed { has_failed self.new ≡ is_err result }
        ensures again { has_failed self.old ≡ true → self.new ≡ self.old }
        ensures cause { has_failed self.old ≡ false
            → HasCause (K.faults (sink_of self.old).now) (K.faults (sink_of self.new).now) result }
    {
        self.give_over(TEXT_ROOM - LINE_LIMIT)?;
        self.text.push_event(self.version, event);
        self.text.push(b'\n');
        Ok(())
    }

    /// Gives the text that waits: then the whole text so far is given.
    ///
    /// # Errors
    ///
    /// As those of `put`.
    pub fn flush(&mut self) -> Result<(), WriteErr>
        ensures same_sink { (sink_of self.new).ghost_name ≡ (sink_of self.old).ghost_name }
        ensures same_version { version_of self.new ≡ version_of self.old }
        ensures text { (before : Option (List ℕ)) (text : List ℕ)
            → GivesFront K.held before text self.old
            → GivesFront K.held before text self.new }
        ensures whole { OnOk result ((before : Option (List ℕ)) (text : List ℕ)
            → GivesFront K.held before text self.old
            → Appends before (K.held (sink_of self.new).now) text) }
        ensures failed { has_failed self.new ≡ is_err result }
        ensures again { has_failed self.old ≡ true → self.new ≡ self.old }
        ensures cause { has_failed self.old ≡ false
            → HasCause (K.faults (sink_of self.old).now) (K.faults (sink_of self.new).now) result }
    {
        self.give_over(0)
    }

    /// How many bytes were given, up to 18446744073709551615.
    pub fn given(&self) -> u64
        ensures { result ≡ given_of self.now }
    {
        self.given
    }

    /// Gives the text that waits where it has more bytes than these. Its error is as those of
    /// `put`.
    fn give_over(&mut self, most: usize) -> Result<(), WriteErr>
        ensures same_sink { (sink_of self.new).ghost_name ≡ (sink_of self.old).ghost_name }
        ensures same_version { version_of self.new ≡ version_of self.old }
        ensures text { (before : Option (List ℕ)) (text : List ℕ)
            → GivesFront K.held before text self.old
            → GivesFront K.held before text self.new }
        ensures room { OnOk result (length (in_hand self.new) ≤ most) }
        ensures failed { has_failed self.new ≡ is_err result }
        ensures again { has_failed self.old ≡ true → self.new ≡ self.old }
        ensures cause { has_failed self.old ≡ false
            → HasCause (K.faults (sink_of self.old).now) (K.faults (sink_of self.new).now) result }
    {
        if self.failed {
            return Err(WriteErr::WriteFault);
        }
        if self.text.len() <= most {
            return Ok(());
        }
        let count = give_all(self.sink, self.text.bytes());
        self.given = self.given.saturating_add(count as u64);
        self.failed = count < self.text.len();
        self.text.clear();
        if self.failed {
            return Err(WriteErr::WriteFault);
        }
        Ok(())
    }
}
