// Results of some traces.
ghost use Rattle.std.specs.Prelude.{◌<◌};

use ace_batch::{Entry, Outcome};
use ace_io::NoMemory;
use std::alloc::Global;

/// What is told of a trace, without its path.
#[derive(Clone, Copy)]
pub struct Told {
    pub outcome: Outcome,
    pub events: u64,
    pub outstanding: Option<u64>,
    pub line: Option<u64>,
    pub signature: &'static str,
    pub message: &'static str,
    pub text: &'static str,
}

/// A refused trace.
fn refused(index: u64, signature: &'static str, message: &'static str) -> Told
    requires { index < 1000 }
{
    Told {
        outcome: Outcome::Refused,
        events: index,
        outstanding: None,
        line: Some(index + 2),
        signature,
        message,
        text: message,
    }
}

/// A trace that comes out otherwise.
fn other(outcome: Outcome, signature: &'static str, message: &'static str) -> Told {
    Told {
        outcome,
        events: 0,
        outstanding: None,
        line: None,
        signature,
        message,
        text: message,
    }
}

/// What is told of the trace of this path.
fn told_of(path: &str) -> Told {
    match path {
        "good" => Told {
            events: 123456,
            outstanding: Some(0),
            ..other(Outcome::Accepted, "", "accepted 123456")
        },
        "open" => Told {
            events: 12,
            outstanding: Some(3),
            ..other(Outcome::Accepted, "", "accepted 12")
        },
        "early" => refused(7, "K18c", "a transfer too many"),
        "late" => refused(70, "K18c", "a transfer too few"),
        "load" => refused(9, "K31a", "another word <&> \"than\" it has\t"),
        "nightly/bad" => Told {
            line: Some(3),
            ..other(Outcome::Malformed, "F5", "a field is wrong")
        },
        "cut" => other(Outcome::Unfinished, "unfinished", "unfinished: no END"),
        "long" => other(Outcome::Limited, "limit events", "limit events"),
        "full" => other(Outcome::NoMemory, "out of memory", "out of memory"),
        _ => other(
            Outcome::Unreadable,
            "cannot be opened",
            "No such file or directory",
        ),
    }
}

/// A text of its own.
fn bytes_of(alloc: Global, text: &str) -> Result<Vec<u8>, NoMemory> {
    match Vec::from_slice(alloc, text.as_bytes()) {
        Ok(bytes) => Ok(bytes),
        Err(_) => Err(NoMemory),
    }
}

/// The entry of this path.
fn entry_of(alloc: Global, path: &str) -> Result<Entry, NoMemory> {
    let told = told_of(path);
    let Ok(path) = String::from_str(alloc, path) else {
        return Err(NoMemory);
    };
    let signature = bytes_of(alloc, told.signature)?;
    let message = bytes_of(alloc, told.message)?;
    let text = bytes_of(alloc, told.text)?;
    Ok(Entry {
        path,
        outcome: told.outcome,
        events: told.events,
        outstanding: told.outstanding,
        line: told.line,
        signature,
        message,
        text,
    })
}

/// The results of the traces of these paths.
pub fn results(alloc: Global, paths: &[&str]) -> Result<Vec<Entry>, NoMemory> {
    let mut entries = Vec::new(alloc);
    for path in paths {
        let entry = entry_of(alloc, path)?;
        if entries.push(entry).is_err() {
            return Err(NoMemory);
        }
    }
    Ok(entries)
}
