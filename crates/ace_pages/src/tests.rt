// Pages that are read off the rules' own document.
use crate::pages_text;
use ace_io::NoMemory;
use std::alloc::Global;

/// What the word is told.
fn told_by(alloc: Global, word: &str) -> Result<Option<Vec<u8>>, NoMemory> {
    let word = word.to_string(alloc).map_err(|_| NoMemory)?;
    let words = [word];
    pages_text(alloc, &words)
}

/// The word is told this text, if it is told one.
fn tells(alloc: Global, word: &str, wanted: Option<&[u8]>) -> bool {
    match told_by(alloc, word) {
        Ok(Some(text)) => wanted == Some(text.as_slice()),
        Ok(None) => wanted.is_none(),
        Err(NoMemory) => false,
    }
}

#[test]
fn pages_have_their_texts(rt: HostRuntime) {
    let alloc = rt.alloc();
    let second = b"K10  updates and streaming writes keep apart
  K10b  a WriteUnique or WriteLineUnique is issued with no memory update or Evict of the port outstanding
        broken:  the port has a memory update or an Evict outstanding
";
    let whole = b"K7  what may be exclusive
  K7a  only ReadShared, ReadClean and CleanUnique are exclusive
        broken:  a transaction of this kind can't be exclusive
  K7b  only an ACE port issues an exclusive transaction
        broken:  an ACE-Lite port issues no exclusive transaction

  in a design    The lock bit comes from the instruction and the kind from the cache: an exclusive
                 load that a prefetch for stores has turned into a ReadUnique still carries it.
";
    assert!(rt; tells(alloc, "K7", Some(whole)) && tells(alloc, "K10b", Some(second)));
    assert!(rt;
        tells(alloc, "K41", None) && tells(alloc, "K0", None) && tells(alloc, "K010", None)
    );
    assert!(rt; tells(alloc, "K7c", None) && tells(alloc, "k7", None) && tells(alloc, "", None));
}

/// Without a word the lines of forty rules are told.
fn tells_titles(alloc: Global) -> bool {
    match pages_text(alloc, &[]) {
        Ok(Some(text)) => {
            let lines = text
                .as_slice()
                .iter()
                .filter(|byte| **byte == b'\n')
                .count();
            lines == 40
                && text
                    .as_slice()
                    .starts_with(b"K1  the port has this record\nK2  ")
        }
        _ => false,
    }
}

#[test]
fn forty_rules_have_titles(rt: HostRuntime) {
    assert!(rt; tells_titles(rt.alloc()));
}
