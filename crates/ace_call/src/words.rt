// The words of the command line.
use std::env;
use std::env::Env;
use std::io::ErrorKind;

/// The words of the command line behind the program's name, or None where there was no memory for
/// them. Where they can't be had as text there are none.
pub fn read_words<R: Env + AllocGlobal>(rt: &R) -> Option<Vec<String>> {
    let mut words = Vec::new(rt.alloc());
    let given = match env::args(rt) {
        Ok(given) => given,
        Err(error) => {
            if error.kind() == ErrorKind::OutOfMemory {
                return None;
            }
            return Some(words);
        }
    };
    for word in given.skip(1) {
        if words.push(word).is_err() {
            return None;
        }
    }
    Some(words)
}
