// When texts are painted, as it is wished.
ghost use Rattle.std.specs.Prelude.{◌≡◌, ◌+◌, ◌&&◌, ◌≤◌, length, map, string_bytes, IfSome};
ghost use Rattle.ace_terminal.specs.Wishes.{is_wished, rest_of, tells_lines, when_joined, when_named, when_of, wish_behind, wish_in, wish_of};

/// When texts are painted.
#[derive(Clone, Copy)]
pub enum When {
    Always,
    Never,
    /// On a terminal that shows colours.
    Auto,
}

/// When texts are painted, as so many of the first words say.
#[derive(Clone, Copy)]
pub struct Wish {
    pub when: When,
    pub words: usize,
}

/// What the value of the option names.
fn when_named(word: &str) -> Option<When>
    ensures { result ≡ when_named word.now }
{
    if word == "always" {
        Some(When::Always)
    } else if word == "never" {
        Some(When::Never)
    } else if word == "auto" {
        Some(When::Auto)
    } else {
        None
    }
}

/// What the option with its value says.
fn when_joined(word: &str) -> Option<When>
    ensures { result ≡ when_joined word.now }
{
    if word == "--color=always" {
        Some(When::Always)
    } else if word == "--color=never" {
        Some(When::Never)
    } else if word == "--color=auto" {
        Some(When::Auto)
    } else {
        None
    }
}

/// So many words wish this.
fn wish_in(words: usize, when: Option<When>) -> Option<Wish>
    ensures { result ≡ wish_in words when }
{
    match when {
        Some(when) => Some(Wish { when, words }),
        None => None,
    }
}

/// The wish behind the name of the option.
fn wish_behind(words: &[String]) -> Option<Wish>
    ensures value { result ≡ wish_behind (map string_bytes words.now) }
    ensures within { IfSome result (λ w. w.words ≤ length words.now + 1) }
{
    match words.split_first() {
        Some((word, _)) => wish_in(2, when_named(word.as_str())),
        None => None,
    }
}

/// The wish in front of the words.
fn wish_of(words: &[String]) -> Option<Wish>
    ensures value { result ≡ wish_of (map string_bytes words.now) }
    ensures within { IfSome result (λ w. w.words ≤ length words.now) }
{
    match words.split_first() {
        Some((word, rest)) => {
            if word.as_str() == "--color" {
                wish_behind(rest)
            } else {
                wish_in(1, when_joined(word.as_str()))
            }
        }
        None => None,
    }
}

/// When texts are painted by the words, and the words behind those that say so. Where none say so
/// it is `Auto`, and all words are left.
pub fn split_wish<'a>(words: &'a [String]) -> (When, &'a [String])
    ensures when { result.0 ≡ when_of (map string_bytes words.entry.now) }
    ensures rest { map string_bytes result.1.now ≡ rest_of (map string_bytes words.entry.now) }
{
    match wish_of(words) {
        Some(wish) => (wish.when, &words[wish.words..]),
        None => (When::Auto, words),
    }
}

/// Whether the command tells of traces, in texts of lines.
fn tells_lines(words: &[String]) -> bool
    ensures { result ≡ tells_lines (map string_bytes words.now) }
{
    match words.split_first() {
        Some((word, _)) => {
            word.as_str() == "check"
                || word.as_str() == "batch"
                || word.as_str() == "explain"
                || word.as_str() == "rule"
        }
        None => false,
    }
}

/// Whether it is wished, where texts go to a terminal that shows colours or elsewhere.
fn is_wished(when: When, shows: bool) -> bool
    ensures { result ≡ is_wished when shows }
{
    match when {
        When::Always => true,
        When::Never => false,
        When::Auto => shows,
    }
}

/// Whether what the words ask is painted, where texts go to a terminal that shows colours or
/// elsewhere.
pub fn is_painted(when: When, words: &[String], shows: bool) -> bool
    ensures { result ≡ (is_wished when shows && tells_lines (map string_bytes words.now)) }
{
    is_wished(when, shows) && tells_lines(words)
}
