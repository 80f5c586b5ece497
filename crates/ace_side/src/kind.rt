// The words with which lines begin.
ghost use Rattle.std.specs.Prelude.{◌≡◌};
ghost use Rattle.std.specs.Map.{lookup};
ghost use Rattle.std.specs.Str.{bytes_eq};
ghost use Rattle.ace_side.specs.Reasons.{words, last_words};

/// The word of a line.
#[derive(Clone, Copy)]
pub enum LineKind {
    TimeUnit,
    Port,
    Addr,
    Time,
    Id,
    Note,
    Word,
    End,
    Broken,
    Cut,
}

/// The line's kind, by its word.
pub fn kind_of(word: &[u8]) -> Option<LineKind>
    ensures { result ≡ lookup (bytes_eq word.now) words }
{
    if word == b"T".as_slice() {
        return Some(LineKind::Time);
    }
    if word == b"ID".as_slice() {
        return Some(LineKind::Id);
    }
    if word == b"NOTE".as_slice() {
        return Some(LineKind::Note);
    }
    if word == b"ADDR".as_slice() {
        return Some(LineKind::Addr);
    }
    if word == b"WORD".as_slice() {
        return Some(LineKind::Word);
    }
    if word == b"PORT".as_slice() {
        return Some(LineKind::Port);
    }
    if word == b"UNIT".as_slice() {
        return Some(LineKind::TimeUnit);
    }
    last_kind_of(word)
}

/// The same, of the words of last lines.
fn last_kind_of(word: &[u8]) -> Option<LineKind>
    ensures { result ≡ lookup (bytes_eq word.now) last_words }
{
    if word == b"END".as_slice() {
        Some(LineKind::End)
    } else if word == b"BROKEN".as_slice() {
        Some(LineKind::Broken)
    } else if word == b"CUT".as_slice() {
        Some(LineKind::Cut)
    } else {
        None
    }
}
