// The words for what an event is about.
ghost use Rattle.std.specs.Prelude.{◌≡◌, ◌+◌, ◌≤◌, ◌++◌, length};
ghost use Rattle.ace_event.specs.Text.{state_text};
ghost use Rattle.ace_words.specs.Kinds.{read_word, write_word, snoop_word, port_words};

use ace_codes::{ArKind, AwKind, LineState, SnoopKind};
use ace_writer::TextBuf;
use itoa::Buffer;

/// What a transaction on the read channel is called.
pub fn read_word(kind: ArKind) -> &'static [u8]
    ensures { result.now ≡ read_word kind }
{
    match kind {
        ArKind::ReadNoSnoop => b"ReadNoSnoop",
        ArKind::ReadOnce => b"ReadOnce",
        ArKind::ReadShared => b"ReadShared",
        ArKind::ReadClean => b"ReadClean",
        ArKind::ReadNotSharedDirty => b"ReadNotSharedDirty",
        ArKind::ReadUnique => b"ReadUnique",
        ArKind::CleanUnique => b"CleanUnique",
        ArKind::MakeUnique => b"MakeUnique",
        ArKind::CleanShared => b"CleanShared",
        ArKind::CleanInvalid => b"CleanInvalid",
        ArKind::MakeInvalid => b"MakeInvalid",
        ArKind::DvmComplete => b"DVM Complete",
        ArKind::DvmMessage => b"DVM Message",
        ArKind::Barrier => b"Barrier",
    }
}

/// What a transaction on the write channel is called.
pub fn write_word(kind: AwKind) -> &'static [u8]
    ensures { result.now ≡ write_word kind }
{
    match kind {
        AwKind::WriteNoSnoop => b"WriteNoSnoop",
        AwKind::WriteUnique => b"WriteUnique",
        AwKind::WriteLineUnique => b"WriteLineUnique",
        AwKind::WriteClean => b"WriteClean",
        AwKind::WriteBack => b"WriteBack",
        AwKind::Evict => b"Evict",
        AwKind::WriteEvict => b"WriteEvict",
        AwKind::Barrier => b"Barrier",
    }
}

/// What a snoop is called.
pub fn snoop_word(kind: SnoopKind) -> &'static [u8]
    ensures { result.now ≡ snoop_word kind }
{
    match kind {
        SnoopKind::ReadOnce => b"ReadOnce",
        SnoopKind::ReadShared => b"ReadShared",
        SnoopKind::ReadClean => b"ReadClean",
        SnoopKind::ReadNotSharedDirty => b"ReadNotSharedDirty",
        SnoopKind::ReadUnique => b"ReadUnique",
        SnoopKind::CleanShared => b"CleanShared",
        SnoopKind::CleanInvalid => b"CleanInvalid",
        SnoopKind::MakeInvalid => b"MakeInvalid",
        SnoopKind::DvmComplete => b"DVM Complete",
        SnoopKind::DvmMessage => b"DVM Message",
    }
}

/// What the state of a line is called: as in a trace.
pub fn state_word(state: LineState) -> &'static [u8]
    ensures { result.now ≡ state_text state }
{
    match state {
        LineState::I => b"I",
        LineState::UC => b"UC",
        LineState::UD => b"UD",
        LineState::SC => b"SC",
        LineState::SD => b"SD",
    }
}

/// Adds what a port is called, which has at most 8 bytes, at the end.
#[tactic(auto, using(crate::proofs::Ports::port_short))]
pub fn push_port(text: &mut TextBuf, port: u8)
    requires { length text.old + 8 ≤ 4096 }
    ensures value { text.new ≡ text.old ++ port_words port }
    ensures len { length text.new ≤ length text.old + 8 }
{
    text.append(b"port ");
    let mut digits = Buffer::new();
    text.append(digits.format(port).as_bytes());
}
