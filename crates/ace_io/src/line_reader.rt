// A source of bytes is cut into lines: at each line feed, of at most 256 bytes with it.
ghost use Rattle.std.specs.Prelude.{◌≡◌, ◌<◌, ◌≤◌, [], List, ℕ, ◌+◌, length, take, drop, slice_index, IfOk, OnOk, OnErr, IfNone, MatchOption, IsTrue, IsOk, false};
ghost use Rattle.std.specs.Io.KnownBytes.{Consumes, IsAtEnd};
ghost use Rattle.ace_io.specs.Faults.{HasCause};
ghost use Rattle.ace_io.specs.Lanes.{first_set};
ghost use Rattle.ace_io.specs.Line.{HasNoLf, IsHeldLine, CutsHeld, CutsPiece, CutsLine, IsPending};
ghost use Rattle.ace_io.specs.declared.line_reader.TheConstants.{BUFFER_SIZE};

use crate::{Failed, LineBuf, LineEnd, NoMemory, Source};
use std::alloc::Global;
use std::simd::prelude::*;

/// The most bytes of a line, with its line feed.
const LINE_LIMIT: usize = 256;

/// How many bytes are asked of the source at once.
const BUFFER_SIZE: usize = 65536;

/// How many bytes are looked at together.
const LANES: usize = 64;

/// The lowest bit that is set, or `lanes`.
#[inline(always)]
fn first_set(mask: u64, lanes: usize) -> usize
    ensures { result ≡ first_set mask lanes }
{
    if mask == 0 {
        lanes
    } else {
        mask.trailing_zeros() as usize
    }
}

/// How many of the bytes that are looked at together stand before their first line feed.
#[inline(always)]
fn lf_among(piece: &[u8], at: usize) -> usize
    requires { at + 64 ≤ length piece.now }
    ensures within { result ≤ 64 }
    ensures no_lf { HasNoLf (take result (drop at piece.now)) }
    ensures lf { result < 64 → slice_index piece.now (at + result) ≡ 10 }
{
    let marks = u8x64::from_slice(&piece[at..])
        .simd_eq(u8x64::splat(b'\n'))
        .to_bitmask();
    first_set(marks, LANES)
}

/// Where the first line feed of a short piece is.
fn find_lf_short(piece: &[u8]) -> Option<usize>
    ensures { MatchOption result (HasNoLf piece.now)
        (λ at. (at < length piece.now) × HasNoLf (take at piece.now)
        × (slice_index piece.now at ≡ 10)) }
{
    piece.iter().position(|b| *b == b'\n')
}

/// Where the first line feed of the piece is, where none stands before `start`.
#[inline(always)]
#[tactic(auto, using(crate::proofs::LineFeeds::lf_free))]
fn find_lf_after(piece: &[u8], start: usize) -> Option<usize>
    requires within { start ≤ length piece.now }
    requires no_lf { HasNoLf (take start piece.now) }
    ensures { MatchOption result (HasNoLf piece.now)
        (λ at. (at < length piece.now) × HasNoLf (take at piece.now)
        × (slice_index piece.now at ≡ 10)) }
{
    match find_lf_short(&piece[start..]) {
        Some(more) => Some(start + more),
        None => None,
    }
}

/// Where the first line feed of the piece is.
#[inline(always)]
#[tactic(auto, using(crate::proofs::LineFeeds::lf_free))]
fn find_lf(piece: &[u8]) -> Option<usize>
    ensures { MatchOption result (HasNoLf piece.now)
        (λ at. (at < length piece.now) × HasNoLf (take at piece.now)
        × (slice_index piece.now at ≡ 10)) }
{
    let mut at = 0;
    while piece.len() - at >= LANES {
        let before = lf_among(piece, at);
        if before < LANES {
            return Some(at + before);
        }
        at += LANES;
    }
    find_lf_after(piece, at)
}

/// Cuts the bytes of a source into lines. It asks for up to 65,536 bytes at once, and keeps what no
/// line has yet.
#[derive(Drop)]
pub struct LineReader<'a, S: Source> {
    source: &'a mut S,
    buffer: [u8; BUFFER_SIZE],
    start: usize,
    end: usize,
    ghost start_in_range: { start ≤ end },
    ghost end_in_range: { end ≤ BUFFER_SIZE },
}

impl<'a, S: Source> LineReader<'a, S> {
    ghost use Rattle.ace_io.specs.Reader.{source_of, waiting, held, passed, line_at};

    /// A reader before the first byte that the source has left. Its buffer is a part of it, so
    /// there is always memory.
    pub fn start(_alloc: Global, source: &'a mut S) -> Result<LineReader<'a, S>, NoMemory>
        ensures always { IsOk result }
        ensures same_source { IfOk result (λ r. (source_of r).ghost_name
            ≡ source.entry.ghost_name) }
        ensures waiting { IfOk result (λ r. waiting S.left r ≡ S.left source.entry.now) }
        ensures faults { IfOk result (λ r. S.faults (source_of r).now ≡ S.faults source.entry.now) }
    {
        Ok(LineReader {
            source,
            buffer: [0; BUFFER_SIZE],
            start: 0,
            end: 0,
        })
    }

    /// Hands the source back. What was taken from it and stands in no line is let go.
    pub fn into_source(self) -> &'a mut S
        ensures same_source { result.ghost_name ≡ (source_of self.entry).ghost_name }
        ensures kept { result.now ≡ (source_of self.entry).now }
    {
        let LineReader {
            source,
            buffer: _,
            start: _,
            end: _,
        } = self;
        source
    }

    /// Asks the source for more, and says whether there was any.
    #[tactic(auto, using(crate::proofs::Held::held_steps))]
    fn fill(&mut self) -> Result<bool, Failed>
        requires { self.old.start ≡ self.old.end }
        ensures same_source { self.new.source.ghost_name ≡ self.old.source.ghost_name }
        ensures kept { OnOk result (Consumes (waiting S.left self.old)
            (waiting S.left self.new) []) }
        ensures some { IfOk result (λ more. IsTrue more → self.new.start < self.new.end) }
        ensures end { IfOk result (λ more. more ≡ false → IsAtEnd (waiting S.left self.new)) }
        ensures err { OnErr result (Consumes (waiting S.left self.old)
            (S.left self.new.source.now) []) }
        ensures cause { HasCause (S.faults self.old.source.now)
            (S.faults self.new.source.now) result }
    {
        match self.source.take(&mut self.buffer) {
            Ok(count) => {
                self.start = 0;
                self.end = count;
                Ok(count > 0)
            }
            Err(failed) => Err(failed),
        }
    }

    /// The next line, without its line feed, where all of it is held.
    #[inline(always)]
    fn held_line(&self) -> Option<&[u8]>
        ensures { MatchOption result (HasNoLf (take 256 (held self.now)))
            (λ line. IsHeldLine line.now (held self.now)) }
    {
        let held = &self.buffer[self.start..self.end];
        let most = LINE_LIMIT.min(held.len());
        match find_lf(&held[..most]) {
            Some(at) => Some(&held[..at]),
            None => None,
        }
    }

    /// The bytes that are held: the front of those that no line has.
    #[inline(always)]
    pub fn front(&self) -> &[u8]
        ensures { result.now ≡ held self.now }
    {
        &self.buffer[self.start..self.end]
    }

    /// Passes so many of the bytes that are held.
    #[inline(always)]
    pub fn pass(&mut self, count: usize)
        requires { count ≤ length (held self.old) }
        ensures same_source { self.new.source.ghost_name ≡ self.old.source.ghost_name }
        ensures source { self.new.source.now ≡ self.old.source.now }
        ensures buffer { self.new.buffer ≡ self.old.buffer }
        ensures start { self.new.start ≡ self.old.start + count }
        ensures passed { Consumes (waiting S.left self.old) (waiting S.left self.new)
            (take count (held self.old)) }
    {
        self.start += count;
    }

    /// Moves the front of what is held into the line, up to its line feed or its limit.
    #[inline(always)]
    #[tactic(auto, using(crate::proofs::Held::held_steps))]
    fn cut(&mut self, into: &mut LineBuf) -> Option<LineEnd>
        requires held { self.old.start < self.old.end }
        requires short { length into.old < 256 }
        requires no_lf { HasNoLf into.old }
        ensures same_source { self.new.source.ghost_name ≡ self.old.source.ghost_name }
        ensures source { self.new.source.now ≡ self.old.source.now }
        ensures no_lf { HasNoLf into.new }
        ensures moved { CutsHeld into.old (held self.old) into.new result (held self.new) }
        ensures more { IfNone result (self.new.start ≡ self.new.end) }
    {
        let room = LINE_LIMIT - into.len();
        let held = &self.buffer[self.start..self.end];
        let most = held.len().min(room);
        let piece = &held[..most];
        match find_lf(piece) {
            Some(at) => {
                into.append(&piece[..at]);
                self.start += at + 1;
                Some(LineEnd::Whole)
            }
            None => {
                into.append(piece);
                self.start += most;
                if most == room {
                    Some(LineEnd::NoLf)
                } else {
                    None
                }
            }
        }
    }

    /// Moves what is at hand into the line, after asking the source for more where nothing is. An
    /// answer ends the line.
    #[inline(always)]
    fn advance(&mut self, into: &mut LineBuf) -> Result<Option<LineEnd>, Failed>
        requires short { length into.old < 256 }
        requires no_lf { HasNoLf into.old }
        ensures same_source { self.new.source.ghost_name ≡ self.old.source.ghost_name }
        ensures no_lf { HasNoLf into.new }
        ensures moved { IfOk result (λ end. CutsPiece into.old
            (waiting S.left self.old) into.new end (waiting S.left self.new)) }
        ensures line_stays { OnErr result (into.new ≡ into.old) }
        ensures bytes_stay { OnErr result (Consumes (waiting S.left self.old)
            (S.left self.new.source.now) []) }
        ensures cause { HasCause (S.faults self.old.source.now)
            (S.faults self.new.source.now) result }
    {
        if self.start == self.end && !self.fill()? {
            return Ok(Some(if into.len() == 0 {
                LineEnd::End
            } else {
                LineEnd::NoLf
            }));
        }
        Ok(self.cut(into))
    }

    /// Puts the next line into the buffer, and says how it ends. After an `Err` nothing is promised
    /// of another call.
    ///
    /// # Errors
    ///
    /// `Failed` only where the source's count of faults rose in this call, or stood at its last
    /// value before. What was taken from the source and not given in a line then holds no line feed
    /// and is fewer than 256 bytes.
    #[inline(always)]
    pub fn next(&mut self, into: &mut LineBuf) -> Result<LineEnd, Failed>
        ensures same_source { (source_of self.new).ghost_name ≡ (source_of self.old).ghost_name }
        ensures no_lf { HasNoLf into.new }
        ensures line { IfOk result (λ end. CutsLine (waiting S.left self.old) into.new end
            (waiting S.left self.new)) }
        ensures pending { OnErr result (IsPending (waiting S.left self.old)
            (S.left (source_of self.new).now)) }
        ensures cause { HasCause (S.faults (source_of self.old).now)
            (S.faults (source_of self.new).now) result }
    {
        into.clear();
        'pieces: loop {
            if let Some(end) = self.advance(into)? {
                return Ok(end);
            }
        }
    }

    /// Cuts the next line as `next` does, but one that is held whole isn't copied: it is lent by
    /// `line_at`. The number beside its end is how many bytes it has with its line feed where it is
    /// lent, and 0 where it is copied.
    ///
    /// # Errors
    ///
    /// Those of `next`.
    #[inline(always)]
    pub fn next_in_place(&mut self, copy: &mut LineBuf) -> Result<(LineEnd, usize), Failed>
        ensures same_source { (source_of self.new).ghost_name ≡ (source_of self.old).ghost_name }
        ensures behind { IfOk result (λ cut. cut.1 ≤ passed self.new) }
        ensures no_lf { IfOk result (λ cut. HasNoLf (line_at self.new cut.1 copy.new)) }
        ensures line { IfOk result (λ cut. CutsLine (waiting S.left self.old)
            (line_at self.new cut.1 copy.new) cut.0 (waiting S.left self.new)) }
        ensures pending { OnErr result (IsPending (waiting S.left self.old)
            (S.left (source_of self.new).now)) }
        ensures cause { HasCause (S.faults (source_of self.old).now)
            (S.faults (source_of self.new).now) result }
    {
        if let Some(line) = self.held_line() {
            let lent = line.len() + 1;
            self.pass(lent);
            return Ok((LineEnd::Whole, lent));
        }
        match self.next(copy) {
            Ok(end) => Ok((end, 0)),
            Err(failed) => Err(failed),
        }
    }

    /// The line that `next_in_place` cut last, without its line feed, by the number that it
    /// answered and the copy that it made.
    #[inline(always)]
    pub fn line_at<'b>(&'b self, lent: usize, copy: &'b LineBuf) -> &'b [u8]
        requires { lent ≤ passed self.now }
        ensures { result.now ≡ line_at self.now lent copy.now }
    {
        if lent == 0 {
            copy.bytes()
        } else {
            let start = self.start - lent;
            &self.buffer[start..start + (lent - 1)]
        }
    }
}
