// How far a batch is.
use crate::shown_line::{LINE, Progress};
use arrayvec::ArrayString;
use itoa::Buffer;
use std::io::Eprint;
use std::sync::atomic::{AtomicU64, Ordering};
use std::time::Clock;

/// How far a batch is: `batch: 812 traces, 3 failed`.
fn line_of(done: u64, failed: u64) -> ArrayString<LINE> {
    let mut digits = Buffer::new();
    let mut line = ArrayString::new();
    let _ = line.try_push_str("batch: ");
    let _ = line.try_push_str(digits.format(done));
    let _ = line.try_push_str(if done == 1 { " trace" } else { " traces" });
    if failed > 0 {
        let _ = line.try_push_str(", ");
        let _ = line.try_push_str(digits.format(failed));
        let _ = line.try_push_str(" failed");
    }
    line
}

/// How many traces of a batch are done in all threads, and how many of these have failed.
#[derive(Drop)]
pub struct Tally<'a, R> {
    progress: &'a Progress<'a, R>,
    done: AtomicU64,
    failed: AtomicU64,
}

impl<'a, R: Clock + Eprint> Tally<'a, R> {
    /// No trace so far.
    pub fn new(progress: &'a Progress<'a, R>) -> Tally<'a, R> {
        Tally {
            progress,
            done: AtomicU64::new(0),
            failed: AtomicU64::new(0),
        }
    }

    /// One more trace is done.
    pub fn add(&self, has_failed: bool) {
        let before = self.done.fetch_add(1, Ordering::SeqCst);
        if has_failed {
            self.failed.fetch_add(1, Ordering::SeqCst);
        }
        if self.progress.is_due() {
            let failed = self.failed.load(Ordering::SeqCst);
            self.progress
                .show(line_of(before.saturating_add(1), failed).as_str());
        }
    }
}
