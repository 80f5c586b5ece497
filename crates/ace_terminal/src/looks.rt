// How a line is painted, by how it begins.
ghost use Rattle.std.specs.Prelude.{◌≡◌, ◌+◌, ◌≤◌, drop, length, true};
ghost use Rattle.ace_terminal.specs.Looks.{behind_name, has_failed, has_label, has_verdict, is_heading, is_part, is_rule, is_verdict, label_length, length_before, look_of, look_of_label, name_length, verdict_length, word_length};

/// A colour.
#[derive(Clone, Copy)]
pub enum Colour {
    Red,
    Blue,
}

/// How a line is painted: so many of its first bytes are bold, so many behind these are as they
/// are, so many behind these have the colour, and the others are as they are.
#[derive(Clone, Copy)]
pub struct Look {
    pub bold: usize,
    pub plain: usize,
    pub coloured: usize,
    pub colour: Colour,
}

/// How many bytes stand before the first place where the text goes on with the word, or before its
/// end.
fn length_before(word: &[u8], text: &[u8]) -> usize
    ensures value { result ≡ length_before word.now text.now }
    ensures within { result ≤ length text.now }
{
    for place in 0..text.len() {
        if text[place..].starts_with(word) {
            return place;
        }
    }
    text.len()
}

/// Whether a verdict on a trace begins here that wasn't accepted.
#[tactic(auto, unfolding(crate::specs::Looks::is_verdict))]
fn is_verdict(told: &[u8]) -> bool
    ensures value { result ≡ is_verdict told.now }
    ensures some { result ≡ true → 10 ≤ length told.now }
{
    told.starts_with(b"refused event ")
        || told.starts_with(b"malformed ")
        || told.starts_with(b"unfinished: ")
}

/// How long the verdict is that begins here.
#[tactic(auto, unfolding(crate::specs::Looks::verdict_length))]
fn verdict_length(told: &[u8]) -> usize
    ensures value { result ≡ verdict_length told.now }
    ensures within { result ≤ length told.now }
{
    let first = length_before(b": ", told);
    if told.len() - first <= 2 {
        return told.len();
    }
    first + 2 + length_before(b": ", &told[first + 2..])
}

/// How long the name is that the line begins with.
#[tactic(auto, unfolding(crate::specs::Looks::name_length))]
fn name_length(line: &[u8]) -> usize
    ensures value { result ≡ name_length line.now }
    ensures within { result ≤ length line.now }
{
    length_before(b": ", line)
}

/// What stands behind the name, a colon and a space.
#[tactic(auto, unfolding(crate::specs::Looks::behind_name))]
fn behind_name(line: &[u8]) -> &[u8]
    ensures value { result.now ≡ behind_name line.now }
{
    let name = name_length(line);
    if line.len() - name <= 2 {
        return &[];
    }
    &line[name + 2..]
}

/// Whether a verdict stands behind the name that the line begins with.
#[tactic(auto, unfolding(crate::specs::Looks::has_verdict, crate::specs::Looks::behind_name))]
fn has_verdict(line: &[u8]) -> bool
    ensures value { result ≡ has_verdict line.now }
    ensures within { result ≡ true → name_length line.now + 2 ≤ length line.now }
{
    !line.starts_with(b"{") && is_verdict(behind_name(line))
}

/// The look of a line with a verdict behind the name.
fn look_of_named(line: &[u8]) -> Look
    requires { name_length line.now + 2 ≤ length line.now }
    ensures name { result.bold ≡ name_length line.now }
    ensures gap { result.plain ≡ 2 }
    ensures verdict { result.coloured ≡ verdict_length (behind_name line.now) }
    ensures colour { result.colour ≡ Colour.Red }
    ensures within { result.bold + result.plain + result.coloured ≤ length line.now }
{
    let bold = name_length(line);
    Look {
        bold,
        plain: 2,
        coloured: verdict_length(&line[bold + 2..]),
        colour: Colour::Red,
    }
}

/// Whether the line begins as `batch` tells of a trace that wasn't accepted.
#[tactic(auto, unfolding(crate::specs::Looks::has_failed))]
fn has_failed(line: &[u8]) -> bool
    ensures { result ≡ has_failed line.now }
{
    line.starts_with(b"FAIL  ")
        || line.starts_with(b"BAD   ")
        || line.starts_with(b"CUT   ")
        || line.starts_with(b"LIMIT ")
        || line.starts_with(b"ERROR ")
}

/// How long the words are before a gap.
#[tactic(auto, unfolding(crate::specs::Looks::word_length))]
fn word_length(line: &[u8]) -> usize
    ensures value { result ≡ word_length line.now }
    ensures within { result ≤ length line.now }
{
    length_before(b"  ", line)
}

/// Whether the name of a rule or of a clause begins here.
#[tactic(auto, unfolding(crate::specs::Looks::is_rule))]
fn is_rule(line: &[u8]) -> bool
    ensures { result ≡ is_rule line.now }
{
    line.starts_with(b"K") && word_length(line) <= 4
}

/// Whether a label begins here that has its text behind it.
#[tactic(auto, unfolding(crate::specs::Looks::is_part))]
fn is_part(line: &[u8]) -> bool
    ensures { result ≡ is_part line.now }
{
    line.starts_with(b"expected  ")
        || line.starts_with(b"got  ")
        || line.starts_with(b"note  ")
        || line.starts_with(b"note: ")
}

/// Whether a heading begins here, or a label of what to look at first.
#[tactic(auto, unfolding(crate::specs::Looks::is_heading))]
fn is_heading(line: &[u8]) -> bool
    ensures { result ≡ is_heading line.now }
{
    line.starts_with(b"Before event ")
        || line.starts_with(b"What led here")
        || line.starts_with(b"in a design  ")
        || line.starts_with(b"in a recorder  ")
}

/// Whether a label stands two spaces behind the beginning of the line.
#[tactic(auto, unfolding(crate::specs::Looks::has_label))]
fn has_label(line: &[u8]) -> bool
    ensures value { result ≡ has_label line.now }
    ensures within { result ≡ true → 2 ≤ length line.now }
{
    if !line.starts_with(b"  ") {
        return false;
    }
    let told = &line[2..];
    is_rule(told) || is_part(told) || is_heading(told)
}

/// How long the label is that begins here.
#[tactic(auto, unfolding(crate::specs::Looks::label_length))]
fn label_length(line: &[u8]) -> usize
    ensures value { result ≡ label_length line.now }
    ensures within { result ≤ length line.now }
{
    word_length(line).min(name_length(line))
}

/// How a line without a verdict is painted.
#[tactic(auto, unfolding(crate::specs::Looks::look_of_label))]
fn look_of_label(line: &[u8]) -> Look
    ensures value { result ≡ look_of_label line.now }
    ensures within { result.bold + result.plain + result.coloured ≤ length line.now }
{
    if has_failed(line) {
        return Look {
            bold: 0,
            plain: 0,
            coloured: length_before(b" ", line),
            colour: Colour::Red,
        };
    }
    if is_rule(line) {
        return Look {
            bold: 0,
            plain: 0,
            coloured: word_length(line),
            colour: Colour::Blue,
        };
    }
    if has_label(line) {
        return Look {
            bold: 0,
            plain: 2,
            coloured: label_length(&line[2..]),
            colour: Colour::Blue,
        };
    }
    Look {
        bold: 0,
        plain: 0,
        coloured: 0,
        colour: Colour::Blue,
    }
}

/// How the line is painted.
#[tactic(auto, unfolding(crate::specs::Looks::look_of))]
pub(crate) fn look_of(line: &[u8]) -> Look
    ensures value { result ≡ look_of line.now }
    ensures within { result.bold + result.plain + result.coloured ≤ length line.now }
{
    if is_verdict(line) {
        return Look {
            bold: 0,
            plain: 0,
            coloured: verdict_length(line),
            colour: Colour::Red,
        };
    }
    if has_verdict(line) {
        return look_of_named(line);
    }
    look_of_label(line)
}
