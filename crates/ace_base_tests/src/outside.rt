// Lines cut in pieces of any size, what a failing take leaves, and sinks that are full or fail.
ghost use Rattle.std.specs.Prelude.{◌<◌};

use ace_io::{
    Failed, Free, Gate, HonestSource, LineBuf, LineEnd, LineReader, MemSink, MemSource, OpenSink,
    Sink, Source, StdSink, StdSource,
};
use std::alloc::Global;
use std::io;
use std::io::{Error, ErrorKind, Read};

/// The mark of an answer: `|` for a whole line, `~` for one without its line feed, `$` at the end
/// of the bytes and `!` at a failure.
fn mark_of(answer: Result<LineEnd, Failed>) -> u8 {
    match answer {
        Ok(LineEnd::Whole) => b'|',
        Ok(LineEnd::NoLf) => b'~',
        Ok(LineEnd::End) => b'$',
        Err(_) => b'!',
    }
}

/// What stands in a text behind this line and its mark, which have to be at its front. At a failure
/// there is no line.
fn behind<'a>(text: &'a [u8], line: &[u8], mark: u8) -> Option<&'a [u8]> {
    let marked = if mark == b'!' {
        Some(text)
    } else {
        text.strip_prefix(line)
    };
    match marked {
        Some(marked) => marked.strip_prefix(&[mark]),
        None => None,
    }
}

/// Whether the lines of a source, up to its end or a failure and each with its mark behind it, are
/// this text.
fn are_lines<S: Source>(alloc: Global, source: &mut S, marked: &[u8]) -> bool {
    match LineReader::start(alloc, source) {
        Ok(mut reader) => {
            let mut line = LineBuf::empty();
            let mut text = marked;
            for _ in 0..1000 {
                let mark = mark_of(reader.next(&mut line));
                match behind(text, line.bytes(), mark) {
                    Some(rest) => text = rest,
                    None => return false,
                }
                if mark == b'$' || mark == b'!' {
                    return text.is_empty();
                }
            }
            false
        }
        Err(_) => false,
    }
}

/// Whether a text, of which a source gives so many bytes at once, is cut into these lines.
fn is_cut_in_pieces(alloc: Global, text: &[u8], size: usize, marked: &[u8]) -> bool
    requires { 0 < size }
{
    match MemSource::new(alloc, text, &[size], &[]) {
        Ok(mut source) => are_lines(alloc, &mut source, marked),
        Err(_) => false,
    }
}

/// Whether a text is cut into these lines in pieces of each size.
fn is_cut(alloc: Global, text: &[u8], marked: &[u8]) -> bool {
    is_cut_in_pieces(alloc, text, 1, marked)
        && is_cut_in_pieces(alloc, text, 2, marked)
        && is_cut_in_pieces(alloc, text, 3, marked)
        && is_cut_in_pieces(alloc, text, 7, marked)
        && is_cut_in_pieces(alloc, text, 64, marked)
        && is_cut_in_pieces(alloc, text, 16384, marked)
}

/// Lines about as long as what is looked at together.
const LINES: &[u8] =
    b"aaaaaaaaaaaaaaaaaaaaaaaaaaaaaaaaaaaaaaaaaaaaaaaaaaaaaaaaaaaaaaa\nbbbbbbbbbbbbbbbbbbbbbbbbbbbbbbbbbbbbbbbbbbbbbbbbbbbbbbbbbbbbbbbb\nccccccccccccccccccccccccccccccccccccccccccccccccccccccccccccccccc\ndd\neeeeeeeeeeeeeeeeeeeeeeeeeeeeeeeeeeeeeeeeeeeeeeeeeeeeeeeeeeeeeeee";

/// The same lines with their marks.
const MARKED: &[u8] =
    b"aaaaaaaaaaaaaaaaaaaaaaaaaaaaaaaaaaaaaaaaaaaaaaaaaaaaaaaaaaaaaaa|bbbbbbbbbbbbbbbbbbbbbbbbbbbbbbbbbbbbbbbbbbbbbbbbbbbbbbbbbbbbbbbb|ccccccccccccccccccccccccccccccccccccccccccccccccccccccccccccccccc|dd|eeeeeeeeeeeeeeeeeeeeeeeeeeeeeeeeeeeeeeeeeeeeeeeeeeeeeeeeeeeeeeee~$";

#[test]
fn cuts_lines(rt: HostRuntime) {
    let alloc = rt.alloc();
    assert!(rt;
        is_cut(alloc, b"", b"$")
            && is_cut(alloc, b"\n", b"|$")
            && is_cut(alloc, b"a\n\nbc\n", b"a||bc|$")
            && is_cut(alloc, b"a", b"a~$")
            && is_cut(alloc, b"\n\na", b"||a~$")
            && is_cut(alloc, b"0123456\n89abcde\n", b"0123456|89abcde|$")
            && is_cut(alloc, LINES, MARKED)
    );
}

/// So many `x` and this text behind them, where there is memory for them.
fn behind_xs(alloc: Global, count: usize, text: &[u8]) -> Option<Vec<u8>> {
    match vec![in alloc; b'x'; count] {
        Ok(mut bytes) => match bytes.extend_from_slice(text) {
            Ok(()) => Some(bytes),
            Err(_) => None,
        },
        Err(_) => None,
    }
}

/// Whether a line of so many `x` is cut into a line of as many of them, or the first 256, and the
/// rest.
fn is_cut_long(alloc: Global, len: usize, rest: &[u8]) -> bool {
    match behind_xs(alloc, len, b"\n") {
        Some(text) => match behind_xs(alloc, len.min(256), rest) {
            Some(marked) => is_cut(alloc, &text, &marked),
            None => false,
        },
        None => false,
    }
}

#[test]
fn cuts_long_lines(rt: HostRuntime) {
    let alloc = rt.alloc();
    assert!(rt;
        is_cut_long(alloc, 255, b"|$")
            && is_cut_long(alloc, 256, b"~|$")
            && is_cut_long(alloc, 257, b"~x|$")
    );
}

/// Whether the next line of a reader, lent or copied, is this, and ends so.
fn is_next<S: Source>(
    reader: &mut LineReader<S>,
    copy: &mut LineBuf,
    line: &[u8],
    end: LineEnd,
) -> bool {
    match reader.next_in_place(copy) {
        Ok((cut, lent)) => cut == end && reader.line_at(lent, copy) == line,
        Err(_) => false,
    }
}

/// Whether the lines of a source, some of them lent and some copied, are as they have to be.
fn lends<S: Source>(alloc: Global, source: &mut S) -> bool {
    match LineReader::start(alloc, source) {
        Ok(mut reader) => {
            let mut copy = LineBuf::empty();
            is_next(&mut reader, &mut copy, b"ab", LineEnd::Whole)
                && is_next(&mut reader, &mut copy, b"cde", LineEnd::Whole)
                && is_next(&mut reader, &mut copy, b"", LineEnd::Whole)
                && is_next(&mut reader, &mut copy, b"fg", LineEnd::Whole)
                && is_next(&mut reader, &mut copy, b"h", LineEnd::NoLf)
                && is_next(&mut reader, &mut copy, b"", LineEnd::End)
        }
        Err(_) => false,
    }
}

#[test]
fn lends_lines(rt: HostRuntime) {
    let alloc = rt.alloc();
    match MemSource::new(alloc, b"ab\ncde\n\nfg\nh", &[9], &[]) {
        Ok(mut source) => assert!(rt; lends(alloc, &mut source)),
        Err(_) => assert!(rt; false),
    }
}

/// Whether a source whose take of this number fails has these lines before it, and those of the
/// bytes that were not taken after it.
fn stops(alloc: Global, failing: u32, before: &[u8], after: &[u8]) -> bool {
    match MemSource::new(alloc, b"ab\ncd\nef", &[4], &[failing]) {
        Ok(mut source) => {
            are_lines(alloc, &mut source, before) && are_lines(alloc, &mut source, after)
        }
        Err(_) => false,
    }
}

#[test]
fn stops_at_a_failing_take(rt: HostRuntime) {
    let alloc = rt.alloc();
    assert!(rt;
        stops(alloc, 0, b"!", b"ab|cd|ef~$")
            && stops(alloc, 1, b"ab|!", b"d|ef~$")
            && stops(alloc, 2, b"ab|cd|!", b"$")
            && stops(alloc, 9, b"ab|cd|ef~$", b"$")
    );
}

/// Whether a give of these bytes is answered so.
fn gives<K: Sink>(sink: &mut K, bytes: &[u8], answer: Result<usize, Failed>) -> bool {
    sink.give(bytes) == answer
}

/// Whether four gives of three bytes are answered so, and these bytes are held then, where there is
/// so much room and the give of this number fails.
fn fills(
    alloc: Global,
    room: usize,
    failing: u32,
    answers: [Result<usize, Failed>; 4],
    held: &[u8],
) -> bool {
    match MemSink::new(alloc, room, &[failing]) {
        Ok(mut sink) => {
            let [first, second, third, fourth] = answers;
            gives(&mut sink, b"abc", first)
                && gives(&mut sink, b"abc", second)
                && gives(&mut sink, b"abc", third)
                && gives(&mut sink, b"abc", fourth)
                && sink.bytes() == held
        }
        Err(_) => false,
    }
}

/// A give that fails.
const ERR: Result<usize, Failed> = Err(Failed);

/// Whether an open sink takes all.
fn takes_all() -> bool {
    let mut open = OpenSink::new();
    gives(&mut open, b"abc", Ok(3)) && gives(&mut open, b"", Ok(0))
}

#[test]
fn fills_sinks(rt: HostRuntime) {
    let alloc = rt.alloc();
    assert!(rt;
        fills(alloc, 0, 9, [ERR, ERR, ERR, ERR], b"")
            && fills(alloc, 2, 9, [Ok(2), ERR, ERR, ERR], b"ab")
            && fills(alloc, 8, 9, [Ok(3), Ok(3), Ok(2), ERR], b"abcabcab")
            && fills(alloc, 8, 1, [Ok(3), ERR, Ok(3), Ok(2)], b"abcabcab")
            && takes_all()
    );
}

/// A reader whose reads all fail.
#[derive(Drop)]
struct Broken;

impl Read for Broken {
    fn read(&mut self, _buf: &mut [u8]) -> io::Result<usize> {
        Err(Error::from(ErrorKind::Other))
    }
}

/// Whether bytes that are lent, those of a reader and a reader that fails have their lines.
fn reads(alloc: Global) -> bool {
    let text: &[u8] = b"ab\ncd";
    are_lines(alloc, &mut HonestSource::new(text), b"ab|cd~$")
        && are_lines(alloc, &mut StdSource::new(text), b"ab|cd~$")
        && are_lines(alloc, &mut StdSource::new(Broken), b"!")
        && StdSource::new(Broken).take(&mut [0; 4]) == Err(Failed)
}

/// Whether a writer with room for four bytes takes four.
fn writes() -> bool {
    let mut room = [0; 4];
    let mut sink = StdSink::new(room.as_mut_slice());
    gives(&mut sink, b"abcdef", Ok(4))
        && gives(&mut sink, b"ef", Err(Failed))
        && gives(&mut sink, b"", Ok(0))
}

#[test]
fn reaches_readers_and_writers(rt: HostRuntime) {
    assert!(rt; reads(rt.alloc()) && writes());
    Free.pass(0, 0);
}
