// How far a call is, in a line on standard error.
use arrayvec::ArrayString;
use std::io::Eprint;
use std::sync::atomic::{AtomicBool, AtomicU64, Ordering};
use std::time::{Clock, Instant};

/// When the first line comes, and how long after a line the next may come, in milliseconds.
const FIRST: u64 = 1000;

const GAP: u64 = 100;

/// What goes back to the beginning of a line and clears it.
const WIPE: &str = "\r\x1b[K";

/// The most bytes of a line.
pub(crate) const LINE: usize = 80;

/// Shows how far a call is in a line on standard error, where that is a terminal: a second after
/// the beginning, and from then on ten times a second at most.
#[derive(Drop)]
pub struct Progress<'a, R> {
    rt: &'a R,
    start: Option<Instant>,
    due: AtomicU64,
    is_shown: AtomicBool,
}

impl<'a, R: Clock + Eprint> Progress<'a, R> {
    /// What shows lines from now on, if they are to be shown.
    pub fn new(rt: &'a R, shows: bool) -> Progress<'a, R> {
        let start = if shows { Instant::now(rt).ok() } else { None };
        Progress {
            rt,
            start,
            due: AtomicU64::new(FIRST),
            is_shown: AtomicBool::new(false),
        }
    }

    /// Whether lines are shown at all.
    pub fn shows(&self) -> bool {
        self.start.is_some()
    }

    /// How many milliseconds have passed, where a line is due.
    fn passed(&self) -> Option<u64> {
        let start = self.start?;
        let passed = start.elapsed(self.rt).ok()?;
        let now = u64::try_from(passed.as_millis()).ok()?;
        if now < self.due.load(Ordering::SeqCst) {
            return None;
        }
        Some(now)
    }

    /// Whether a line is due. The next one is due later.
    pub(crate) fn is_due(&self) -> bool {
        match self.passed() {
            Some(now) => {
                self.due.store(now.saturating_add(GAP), Ordering::SeqCst);
                true
            }
            None => false,
        }
    }

    /// Shows the line in the place of the one before.
    pub(crate) fn show(&self, line: &str) {
        let mut text: ArrayString<96> = ArrayString::new();
        if text.try_push_str(WIPE).is_ok() && text.try_push_str(line).is_ok() {
            self.is_shown.store(true, Ordering::SeqCst);
            let _ = self.rt.eprint(text.as_str());
        }
    }

    /// Clears the line that is shown, if one is.
    pub fn wipe(&self) {
        if self.is_shown.swap(false, Ordering::SeqCst) {
            let _ = self.rt.eprint(WIPE);
        }
    }
}
