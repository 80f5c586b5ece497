// Files in memory.
ghost use Rattle.std.specs.Prelude.{◌<◌, None, length};
ghost use Rattle.ace_io.specs.Faults.{HasCause, Takes};

use ace_io::{Failed, MemSource, Source};
use ace_tool::{Folder, OpenErr};
use std::alloc::Global;

/// The bytes of a file, which it tells no contract.
#[derive(Drop)]
pub struct Opened {
    source: MemSource,
}

impl Source for Opened {
    ghost left = { λ _. None };

    ghost faults = { λ o. o.source.faults };

    fn take(&mut self, into: &mut [u8]) -> Result<usize, Failed>
        requires { 0 < length into.old }
        ensures bytes { Takes None None result into.new }
        ensures cause { HasCause self.old.source.faults self.new.source.faults result }
    {
        self.source.take(into)
    }
}

/// Files of some names, in pieces of three bytes, and side files beside some of them. Some fail at
/// their first byte, one later, and some may not be read.
#[derive(Drop)]
pub struct Shelf {
    pub alloc: Global,
}

/// The bytes of a trace, if there is one of this name.
fn trace_of(name: &str) -> Option<&'static [u8]> {
    match name {
        "good"
        | "-x"
        | "a=b"
        | "whole"
        | "goes_on"
        | "other"
        | "broken"
        | "mute"
        | "cut"
        | "cut_more"
        | "bad"
        | "headless"
        | "hidden"
        | "too_long"
        | "faulty" => { Some(b"ACE 1\nPORTS AA\nOP 0 0000 ok\n") }
        "line" => Some(b"ACE 1\nPORTS AA\nAR 0 0 00000040 1 1 0 0\n"),
        "two_lines" => Some(b"ACE 1\nPORTS AA\nAR 0 0 00000040 1 1 0 0\nAR 1 0 00000080 1 1 0 0\n"),
        "refused" => Some(b"ACE 1\nPORTS A\nRK 0 UC\n"),
        "malformed" => Some(b"ACE 1\nPORTS AA\nXX 0\n"),
        "empty" => Some(b""),
        "short" => Some(b"\x1f"),
        "gzip" => Some(b"\x1f\x8b"),
        "zstd" => Some(b"\x28\xb5\x2f\xfd\0"),
        "xz" => Some(b"\xfd7zXZ"),
        "failing" | "failing_later" => Some(b"ACE 1\nPORTS AA\n"),
        _ => None,
    }
}

/// The bytes of a side file, if there is one of this name.
fn side_of(name: &str) -> Option<&'static [u8]> {
    match name {
        "whole.side" | "faulty.side" => Some(b"ACE SIDE 1\nT 1 5\nEND 1\n"),
        "goes_on.side" => Some(b"ACE SIDE 1\nT 1 5\n"),
        "other.side" => Some(b"ACE SIDE 1\nEND 2\n"),
        "broken.side" => Some(b"ACE SIDE 1\nNOTE 0 one\nNOTE 1 X in a field\nT 1 5\nBROKEN 1\n"),
        "mute.side" | "malformed.side" => Some(b"ACE SIDE 1\nBROKEN 1\n"),
        "cut.side" => Some(b"ACE SIDE 1\nCUT 1\n"),
        "cut_more.side" => Some(b"ACE SIDE 1\nCUT 2\n"),
        "bad.side" | "refused.side" => Some(b"ACE SIDE 1\nT 1 5\nEND x\n"),
        "headless.side" => Some(b"END 1\n"),
        _ => None,
    }
}

/// The bytes of a file, if there is one of this name.
fn bytes_of(name: &str) -> Option<&'static [u8]> {
    match trace_of(name) {
        Some(bytes) => Some(bytes),
        None => side_of(name),
    }
}

/// Which of the takes of a file fail.
fn fails_of(name: &str) -> &'static [u32] {
    match name {
        "failing" | "faulty.side" => &[0],
        "failing_later" => &[5],
        _ => &[],
    }
}

/// Why a file that isn't there can't be opened.
fn reason_of(name: &str) -> OpenErr {
    match name {
        "secret" | "hidden.side" => OpenErr::NotAllowed,
        "too_long.side" => OpenErr::NoName,
        "odd" => OpenErr::Failed,
        _ => OpenErr::NotThere,
    }
}

impl Folder for Shelf {
    type File = Opened;

    ghost use Rattle.ace_tool.specs.Held.{Untold};

    ghost holds = { λ _ _. Untold };

    fn open(&self, name: &str) -> Result<Opened, OpenErr> {
        let Some(bytes) = bytes_of(name) else {
            return Err(reason_of(name));
        };
        match MemSource::new(self.alloc, bytes, &[3], fails_of(name)) {
            Ok(source) => Ok(Opened { source }),
            Err(_) => Err(OpenErr::Failed),
        }
    }
}
