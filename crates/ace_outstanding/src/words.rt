// What is said of the transactions that are outstanding.
ghost use Rattle.std.specs.Prelude.{◌≡◌, ◌≤◌, length};
ghost use Rattle.ace_outstanding.specs.Words.{outstanding_note, outstanding_words};

use arrayvec::ArrayString;
use itoa::Buffer;

/// That so many transactions are outstanding.
pub fn outstanding_words(count: u64) -> ArrayString<64>
    ensures value { result.bytes ≡ outstanding_words count }
    ensures short { length result.bytes ≤ 50 }
{
    let mut text = ArrayString::new();
    let mut digits = Buffer::new();
    text.push_str(digits.format(count));
    text.push_str(if count == 1 {
        " transaction is outstanding"
    } else {
        " transactions are outstanding"
    });
    text
}

/// The note on a trace at whose end so many are outstanding, if there are any.
pub fn outstanding_note(count: u64) -> ArrayString<96>
    ensures { result.bytes ≡ outstanding_note count }
{
    let mut text = ArrayString::new();
    if count != 0 {
        let words = outstanding_words(count);
        text.push_str("  note: ");
        text.push_str(words.as_str());
        text.push_str(" at the end\n");
    }
    text
}
