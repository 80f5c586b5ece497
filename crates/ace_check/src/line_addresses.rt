//! What an AR and an AW of a line transaction have in common.

ghost use Rattle.std.specs.Prelude.{◌≡◌, ◌&&◌, ℕ, Some, not, nat_le, length};
ghost use Rattle.ace_codes.specs.Reads.{ar_kind_of};
ghost use Rattle.ace_event.specs.declared.header.Header.{Header};
ghost use Rattle.ace_model.specs.Kinds.{is_line_read};
ghost use Rattle.ace_model.specs.Lines.{is_known, known_lines};
ghost use Rattle.ace_model.specs.Trace.{Trace, option_filter};
ghost use Rattle.ace_lineck.specs.Stands.{place_on};
ghost use Rattle.ace_check.specs.Shares.{SharesTell};

use crate::shares::Shares;
use ace_codes::{ArKind, read_ar};
use ace_model::kinds::is_line_read;

/// The kind of a line read, by the fields of its AR.
#[inline(always)]
pub(crate) fn line_read_kind(snoop: u8, dom: u8, bar: u8) -> Option<ArKind>
    ensures { result ≡ option_filter is_line_read (ar_kind_of snoop dom bar) }
{
    match read_ar(snoop, dom, bar) {
        Some(kind) if is_line_read(kind) => Some(kind),
        _ => None,
    }
}

impl Shares {
    /// A transaction on the line whose record stands at the place names one line more than these
    /// shares let through.
    #[inline(always)]
    pub(crate) fn is_line_too_many(&self, place: Option<usize>) -> bool
        ensures { (h : Header) (past : Trace) (line : ℕ) → SharesTell self.now h past
            → place ≡ place_on self.now.lines (Some line)
            → result ≡ (not (is_known past line)
            && nat_le self.now.most (length (known_lines past))) }
    {
        !self.lines.knows(place) && self.lines.lines() >= self.most
    }
}
