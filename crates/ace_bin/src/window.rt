// The bytes of a source, some of which are held.
ghost use Rattle.std.specs.Prelude.{◌≡◌, ◌<◌, ◌≤◌, ◌+◌, ◌-◌, [], List, Option, ℕ, length, take, drop, IfOk, OnErr, IsTrue, false};
ghost use Rattle.std.specs.Io.KnownBytes.{Consumes, IsAtEnd};
ghost use Rattle.ace_io.specs.Faults.{HasCause};
ghost use Rattle.ace_bin.specs.declared.window.TheConstants.{BUFFER_SIZE};

use ace_io::{Failed, Source};

/// How many bytes are held at most.
const BUFFER_SIZE: usize = 65536;

/// The most bytes of a record, with its tag.
const RECORD_LIMIT: usize = 79;

/// Moves the bytes from `start` to `end`, of which there are fewer than those of the longest
/// record, to the front.
fn move_to_front(buffer: &mut [u8; BUFFER_SIZE], start: usize, end: usize)
    requires order { start ≤ end }
    requires within { end ≤ BUFFER_SIZE }
    requires few { end - start < 79 }
    ensures { take (end - start) buffer.new ≡ take (end - start) (drop start buffer.old) }
{
    let count = end - start;
    let mut moved = [0; RECORD_LIMIT];
    moved[..count].copy_from_slice(&buffer[start..end]);
    buffer[..count].copy_from_slice(&moved[..count]);
}

/// The bytes of a source. It asks for as many as there is room for at once, and holds what wasn't
/// passed yet.
#[derive(Drop)]
pub struct Window<'a, S: Source> {
    source: &'a mut S,
    buffer: [u8; BUFFER_SIZE],
    start: usize,
    end: usize,
    ghost start_in_range: { start ≤ end },
    ghost end_in_range: { end ≤ BUFFER_SIZE },
}

impl<'a, S: Source> Window<'a, S> {
    ghost use Rattle.ace_bin.specs.Window.{source_of, waiting, held};

    /// A window before the first byte that the source has left.
    pub fn start(source: &'a mut S) -> Window<'a, S>
        ensures same_source { (source_of result).ghost_name ≡ source.entry.ghost_name }
        ensures waiting { waiting S.left result ≡ S.left source.entry.now }
        ensures faults { S.faults (source_of result).now ≡ S.faults source.entry.now }
    {
        Window {
            source,
            buffer: [0; BUFFER_SIZE],
            start: 0,
            end: 0,
        }
    }

    /// Hands the source back. What is held is let go.
    pub fn into_source(self) -> &'a mut S
        ensures same_source { result.ghost_name ≡ (source_of self.entry).ghost_name }
        ensures kept { result.now ≡ (source_of self.entry).now }
    {
        let Window {
            source,
            buffer: _,
            start: _,
            end: _,
        } = self;
        source
    }

    /// The bytes that are held.
    #[inline(always)]
    pub fn front(&self) -> &[u8]
        ensures { result.now ≡ held self.now }
    {
        &self.buffer[self.start..self.end]
    }

    /// Passes so many of the bytes that are held.
    #[inline(always)]
    pub fn pass(&mut self, count: usize)
        requires { count ≤ length (held self.old) }
        ensures same_source { (source_of self.new).ghost_name ≡ (source_of self.old).ghost_name }
        ensures source { (source_of self.new).now ≡ (source_of self.old).now }
        ensures passed { Consumes (waiting S.left self.old) (waiting S.left self.new)
            (take count (held self.old)) }
    {
        self.start += count;
    }

    /// Moves what is held to the front of the buffer.
    fn make_room(&mut self)
        requires { length (held self.old) < 79 }
        ensures same_source { (source_of self.new).ghost_name ≡ (source_of self.old).ghost_name }
        ensures source { (source_of self.new).now ≡ (source_of self.old).now }
        ensures held { held self.new ≡ held self.old }
        ensures start { self.new.start ≡ 0 }
        ensures end { self.new.end < 79 }
    {
        move_to_front(&mut self.buffer, self.start, self.end);
        self.end -= self.start;
        self.start = 0;
    }

    /// Asks the source for more, where fewer bytes are held than the longest record has, and says
    /// whether there was any.
    ///
    /// # Errors
    ///
    /// `Failed` only where the source's count of faults rose in this call, or stood at its last
    /// value before. What is held stays.
    #[cold]
    #[inline(never)]
    pub fn more(&mut self) -> Result<bool, Failed>
        requires { length (held self.old) < 79 }
        ensures same_source { (source_of self.new).ghost_name ≡ (source_of self.old).ghost_name }
        ensures kept { Consumes (waiting S.left self.old) (waiting S.left self.new) [] }
        ensures more { IfOk result
            (λ more. IsTrue more → length (held self.old) < length (held self.new)) }
        ensures same { IfOk result (λ more. more ≡ false → held self.new ≡ held self.old) }
        ensures end { IfOk result
            (λ more. more ≡ false → IsAtEnd (S.left (source_of self.new).now)) }
        ensures err { OnErr result (held self.new ≡ held self.old) }
        ensures cause { HasCause (S.faults (source_of self.old).now)
            (S.faults (source_of self.new).now) result }
    {
        self.make_room();
        match self.source.take(&mut self.buffer[self.end..]) {
            Ok(count) => {
                self.end += count;
                Ok(count > 0)
            }
            Err(failed) => Err(failed),
        }
    }

    /// Asks for more until so many bytes are held, fewer than the longest record has, and says
    /// whether there are so many.
    ///
    /// # Errors
    ///
    /// Those of `more`.
    pub fn fill(&mut self, count: usize) -> Result<bool, Failed>
        requires { count < 79 }
        ensures same_source { (source_of self.new).ghost_name ≡ (source_of self.old).ghost_name }
        ensures kept { Consumes (waiting S.left self.old) (waiting S.left self.new) [] }
        ensures whole { IfOk result (λ whole. IsTrue whole → count ≤ length (held self.new)) }
        ensures short { IfOk result (λ whole. whole ≡ false → length (held self.new) < count) }
        ensures end { IfOk result
            (λ whole. whole ≡ false → IsAtEnd (S.left (source_of self.new).now)) }
        ensures err { OnErr result (length (held self.new) < count) }
        ensures cause { HasCause (S.faults (source_of self.old).now)
            (S.faults (source_of self.new).now) result }
    {
        'pieces: while self.front().len() < count {
            match self.more() {
                Ok(true) => {}
                Ok(false) => return Ok(false),
                Err(failed) => return Err(failed),
            }
        }
        Ok(true)
    }
}
