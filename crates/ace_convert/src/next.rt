// The next event of a trace, put in a place, or how its reading ends, in either form.
ghost use Rattle.std.specs.Prelude.{◌≡◌, ◌≢◌, ◌<◌, ◌+◌, ℕ, List, None, Err, IfErr, OnOk};
ghost use Rattle.ace_event.specs.declared.event.Event.{Event};
ghost use Rattle.ace_event.specs.Range.{InRange};
ghost use Rattle.ace_grammar.specs.Errors.{LeavesNothing};
ghost use Rattle.ace_grammar.specs.Reading.{most_events};
ghost use Rattle.ace_grammar.specs.Reader as text;
ghost use Rattle.ace_bin.specs.Reader as binary;
ghost use Rattle.ace_convert.specs.Form.{Text, Binary};
ghost use Rattle.ace_convert.specs.declared.end.TraceEnd.TheVariants.{Whole, NoMemory};
ghost use Rattle.ace_convert.specs.Ends.{HasReadCause, with_event};
ghost use Rattle.ace_convert.specs.Reading.{IsReading};

use crate::end::{TraceEnd, of_binary, of_text};
use ace_bin::BinReader;
use ace_event::Event;
use ace_grammar::Reader;
use ace_io::Source;

/// Puts the next event of a text in its place.
///
/// # Errors
///
/// How the reading ends where there is none.
#[tactic(auto, using(crate::proofs::ReaderLemmas::reading))]
pub fn next_in_text<S: Source>(reader: &mut Reader<S>, event: &mut Event) -> Result<(), TraceEnd>
    requires most { text.most_of reader.old ≡ most_events }
    requires reads_on { text.last_answer reader.old ≡ None }
    ensures same_source { (text.source_of reader.new).ghost_name
        ≡ (text.source_of reader.old).ghost_name }
    ensures same_header { text.header_of reader.new ≡ text.header_of reader.old }
    ensures same_most { text.most_of reader.new ≡ text.most_of reader.old }
    ensures in_range { OnOk result (InRange (text.header_of reader.old).version event.new) }
    ensures room { OnOk result (text.count_of reader.old < most_events) }
    ensures count { OnOk result (text.count_of reader.new ≡ text.count_of reader.old + 1) }
    ensures reads_on { OnOk result (text.last_answer reader.new ≡ None) }
    ensures reads { (bytes : List ℕ) (events : List Event)
        → text.HasRead S.left bytes events reader.old
        → IsReading Text (λ more. text.HasRead S.left bytes more reader.new) bytes
        (S.left (text.source_of reader.new).now) (text.header_of reader.old) events
        (with_event event.new result) }
    ensures memory { result ≢ Err NoMemory }
    ensures leaves_nothing { result ≡ Err Whole
        → LeavesNothing (text.unread S.left reader.old) (S.left (text.source_of reader.new).now) }
    ensures steady { OnOk result
        (S.faults (text.source_of reader.new).now ≡ S.faults (text.source_of reader.old).now) }
    ensures cause { IfErr result
        (HasReadCause (S.faults (text.source_of reader.old).now)
        (S.faults (text.source_of reader.new).now)) }
{
    of_text(reader.next_into(event))
}

/// The same of a binary trace.
///
/// # Errors
///
/// How the reading ends where there is none.
#[tactic(auto, using(crate::proofs::ReaderLemmas::reading))]
pub fn next_in_binary<S: Source>(
    reader: &mut BinReader<S>,
    event: &mut Event,
) -> Result<(), TraceEnd>
    requires { binary.last_answer reader.old ≡ None }
    ensures same_source { (binary.source_of reader.new).ghost_name
        ≡ (binary.source_of reader.old).ghost_name }
    ensures same_header { binary.header_of reader.new ≡ binary.header_of reader.old }
    ensures in_range { OnOk result (InRange (binary.header_of reader.old).version event.new) }
    ensures room { OnOk result (binary.count_of reader.old < most_events) }
    ensures count { OnOk result (binary.count_of reader.new ≡ binary.count_of reader.old + 1) }
    ensures reads_on { OnOk result (binary.last_answer reader.new ≡ None) }
    ensures reads { (bytes : List ℕ) (events : List Event)
        → binary.HasRead S.left bytes events reader.old
        → IsReading Binary (λ more. binary.HasRead S.left bytes more reader.new) bytes
        (S.left (binary.source_of reader.new).now) (binary.header_of reader.old) events
        (with_event event.new result) }
    ensures memory { result ≢ Err NoMemory }
    ensures leaves_nothing { result ≡ Err Whole
        → LeavesNothing (binary.unread S.left reader.old)
        (S.left (binary.source_of reader.new).now) }
    ensures steady { OnOk result
        (S.faults (binary.source_of reader.new).now ≡ S.faults (binary.source_of reader.old).now) }
    ensures cause { IfErr result
        (HasReadCause (S.faults (binary.source_of reader.old).now)
        (S.faults (binary.source_of reader.new).now)) }
{
    of_binary(reader.next_into(event))
}
