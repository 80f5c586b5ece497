// The words as a parser takes them: one command with two positional arguments, the second of which
// may be absent.
ghost use Rattle.std.specs.Prelude.{◌≡◌, false, map, option_map, IfOk};
ghost use Rattle.std.specs.String.{string_bytes};
ghost use Rattle.clap.specs.Words.{app_of};
ghost use Rattle.ace_top.specs.Parse.{any_hyphen, one_or_two, positionals, texts_of};

use ace_io::NoMemory;
use clap::error::ErrorKind;
use clap::{Arg, Command};
use std::alloc::{AllocError, Global};

/// One word, and perhaps one more.
#[derive(Clone, Copy, Debug, PartialEq, Eq)]
pub struct Positionals<'a> {
    pub first: &'a str,
    pub second: Option<&'a str>,
}

/// The parser. It fails where there is no memory for it.
fn parser<'a>(alloc: Global) -> Result<Command<'a>, AllocError>
    ensures { IfOk result (λ c. app_of c ≡ one_or_two) }
{
    Command::new(alloc, "ace")
        .no_binary_name(true)
        .arg(Arg::new(alloc, "first").required(true))?
        .arg(Arg::new(alloc, "second"))
}

/// The words, if they are one or two. There may be no memory to parse them.
pub fn parse_words<'a>(
    alloc: Global,
    words: &'a [String],
) -> Result<Option<Positionals<'a>>, NoMemory>
    requires { any_hyphen words.now ≡ false }
    ensures { IfOk result (λ given. option_map texts_of given
        ≡ positionals (map string_bytes words.now)) }
{
    let Ok(mut command) = parser(alloc) else {
        return Err(NoMemory);
    };
    match command.try_get_matches_from_mut(words) {
        Ok(matches) => match matches.get_str("first") {
            Some(first) => Ok(Some(Positionals {
                first,
                second: matches.get_str("second"),
            })),
            None => Ok(None),
        },
        Err(error) => {
            if error.kind() == ErrorKind::OutOfMemory {
                Err(NoMemory)
            } else {
                Ok(None)
            }
        }
    }
}
