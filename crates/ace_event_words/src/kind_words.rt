// What transactions and snoops are called.
ghost use Rattle.std.specs.Prelude.{◌≡◌};
ghost use Rattle.ace_event_words.specs.KindWords.{read_words, served_words, snoop_words, transaction_words, write_words};

use ace_codes::{read_ac, read_ar, read_aw};
use ace_event::Channel;
use ace_model::Transaction;
use ace_words::{read_word, snoop_word, write_word};

/// What a read with these codes is called; a question mark where there is no such read.
pub fn read_words(snoop: u8, dom: u8, bar: u8) -> &'static [u8]
    ensures { result.now ≡ read_words snoop dom bar }
{
    match read_ar(snoop, dom, bar) {
        Some(kind) => read_word(kind),
        None => b"?",
    }
}

/// What a write with these codes is called; a question mark where there is no such write.
pub fn write_words(snoop: u8, dom: u8, bar: u8) -> &'static [u8]
    ensures { result.now ≡ write_words snoop dom bar }
{
    match read_aw(snoop, dom, bar) {
        Some(kind) => write_word(kind),
        None => b"?",
    }
}

/// What a snoop with this code is called; a question mark where there is no such snoop.
pub fn snoop_words(snoop: u8) -> &'static [u8]
    ensures { result.now ≡ snoop_words snoop }
{
    match read_ac(snoop) {
        Some(kind) => snoop_word(kind),
        None => b"?",
    }
}

/// What the transaction is called.
pub fn transaction_words(transaction: &Transaction) -> &'static [u8]
    ensures { result.now ≡ transaction_words transaction.now }
{
    match transaction.chan {
        Channel::Read => read_words(transaction.snoop, transaction.dom, transaction.bar),
        Channel::Write => write_words(transaction.snoop, transaction.dom, transaction.bar),
    }
}

/// What the transaction is called that an event belongs to; a question mark where it belongs to
/// none.
pub fn served_words(serves: &Option<Transaction>) -> &'static [u8]
    ensures { result.now ≡ served_words serves.now }
{
    match serves {
        Some(transaction) => transaction_words(transaction),
        None => b"?",
    }
}
