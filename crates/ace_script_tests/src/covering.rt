// Scripts that are made from a number to reach points of coverage, and the call that writes them.
use ace_cover_script::generate;
use ace_io::MemSink;
use std::alloc::Global;
use std::test::Fail;

/// The words as a program has them.
fn owned(alloc: Global, words: &str) -> Result<Vec<String>, Fail> {
    let mut owned = Vec::new(alloc);
    for word in words.split_whitespace() {
        owned.push(String::from_str(alloc, word)?)?;
    }
    Ok(owned)
}

/// What a call of these words answers where the output has so much room: its status, and the texts
/// of the output and of the notes.
#[derive(Drop)]
struct Answered {
    status: u8,
    out: Vec<u8>,
    notes: Vec<u8>,
}

fn call(alloc: Global, words: &str, room: usize) -> Result<Answered, Fail> {
    let words = owned(alloc, words)?;
    let mut out = MemSink::new(alloc, room, &[])?;
    let mut notes = MemSink::new(alloc, 999, &[])?;
    let status = generate(alloc, words.as_slice(), &mut out, &mut notes);
    drop(words);
    Ok(Answered {
        status,
        out: Vec::from_slice(alloc, out.bytes())?,
        notes: Vec::from_slice(alloc, notes.bytes())?,
    })
}

/// Whether the script of these words has this front and so many bytes, and is all that is told.
fn has_script(alloc: Global, words: &str, front: &[u8], count: usize) -> Result<bool, Fail> {
    let answered = call(alloc, words, 99_999)?;
    let has = answered.status == 0
        && answered.out.starts_with(front)
        && answered.out.len() == count
        && answered.notes.is_empty();
    drop(answered);
    Ok(has)
}

const TWO: &[u8] =
    b"ACE SCRIPT 1\nPORTS AAAAAAALLLLL\nCACHE 1\nPOLICY mixed 0000000000000002\n6 ld 00001000 0\n7 ci 00001000\n3 we 00001040\na ro 00001000\n";

const FIFTY_SEVEN: &[u8] =
    b"ACE SCRIPT 1\nPORTS AAALLLL\nCACHE 30\nPOLICY eager\n3 rn 000080c0\n2 cs 00001000\n2 cs 00001000\n1 we 000010c0\n";

const FORTY: &[u8] =
    b"ACE SCRIPT 1\nPORTS AAAAAAALLLLLL\nCACHE 1\nPOLICY keep\na mi 00001180\na mi 000010c0\n5 wc 000011c0\n6 pf 00001000 n\n";

#[test]
fn writes_scripts(rt: HostRuntime) -> Result<(), Fail> {
    assert!(rt; has_script(rt.alloc(), "--cover 2", TWO, 33371)?);
    assert!(rt; has_script(rt.alloc(), "--cover 57", FIFTY_SEVEN, 34211)?);
    assert!(rt; has_script(rt.alloc(), "--cover 40", FORTY, 35074)?);
    Ok(())
}

/// Whether these words are wrong: the usage is noted alone.
fn is_wrong(alloc: Global, words: &str) -> Result<bool, Fail> {
    let answered = call(alloc, words, 999)?;
    let wrong = answered.status == 2
        && answered.out.is_empty()
        && answered.notes.starts_with(b"usage: acetool gen ");
    drop(answered);
    Ok(wrong)
}

#[test]
fn refuses_other_words(rt: HostRuntime) -> Result<(), Fail> {
    for words in [
        "",
        "7",
        "--cover",
        "--cover 07",
        "--cover=7",
        "--cover 7 8",
        "--help 7",
    ] {
        assert!(rt; is_wrong(rt.alloc(), words)?, "{words}");
    }
    Ok(())
}

/// Where the output is full: the status, and whether it and the notes have what they should.
fn cut_off(alloc: Global) -> Result<(u8, bool), Fail> {
    let answered = call(alloc, "--cover 2", 20)?;
    let (status, given) = (answered.status, TWO.starts_with(&answered.out));
    let told = given && answered.notes.as_slice() == b"write fault\n".as_slice();
    drop(answered);
    Ok((status, told))
}

#[test]
fn tells_that_an_output_failed(rt: HostRuntime) -> Result<(), Fail> {
    let told = cut_off(rt.alloc())?;
    assert!(rt; told == (5, true));
    Ok(())
}
