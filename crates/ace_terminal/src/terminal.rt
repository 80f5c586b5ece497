// Whether an output is a terminal, and shows colours.
use std::env::{self, Env, VarError};
use std::io::IsTerminal;

/// Whether the variable of the environment is set, and not empty.
fn is_set<R: Env + AllocGlobal>(rt: &R, name: &str) -> bool {
    match env::var(rt, name) {
        Ok(value) => !value.is_empty(),
        Err(VarError::NotPresent) => false,
        Err(_) => true,
    }
}

/// Whether the variable of the environment has this value.
fn has_value<R: Env + AllocGlobal>(rt: &R, name: &str, wanted: &str) -> bool {
    match env::var(rt, name) {
        Ok(value) => value.as_str() == wanted,
        Err(_) => false,
    }
}

/// Whether the output is a terminal that does more than to write what it is given: not where
/// `TERM` is `dumb`.
pub fn is_screen<R: Env + AllocGlobal, T: IsTerminal>(rt: &R, output: &T) -> bool {
    output.is_terminal() && !has_value(rt, "TERM", "dumb")
}

/// Whether the output is such a terminal, and colours are wanted there: not where `NO_COLOR` is
/// set.
pub fn shows_colours<R: Env + AllocGlobal, T: IsTerminal>(rt: &R, output: &T) -> bool {
    is_screen(rt, output) && !is_set(rt, "NO_COLOR")
}
