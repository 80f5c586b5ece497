// The words of the command line.
ghost use Rattle.std.specs.Prelude.{◌≡◌, ◌≢◌, ◌↔◌, ℕ, List, [], ◌∷◌, map, String, decimal, IfOk, IsTrue, MatchOption};
ghost use Rattle.std.specs.String.{string_bytes};
ghost use Rattle.ace_top.specs.Command.{Names};
ghost use Rattle.ace_top.specs.Parse.{any_hyphen, starts_with_hyphen};
ghost use Rattle.ace_account.specs.declared.listener.Account.{Account};
ghost use Rattle.ace_convert.specs.declared.conversion.Conversion.{Conversion};
ghost use Rattle.ace_call.specs.Number.{IsNumber};
ghost use Rattle.ace_top.specs.Words.{IsCommand, account_word, word_of};

use crate::parse::{Positionals, parse_words};
use ace_account::Account;
use ace_call::number_of;
use ace_convert::Conversion;
use ace_io::NoMemory;
use std::alloc::Global;

/// Which ports a run snoops for a line.
#[derive(Clone, Copy, Debug, PartialEq, Eq)]
pub enum Snooping {
    /// Any that may be snooped.
    AllPorts,
    /// Only those that a snoop filter has for the line.
    KeptPorts,
}

/// What the program is asked to do.
#[derive(Clone, Copy, Debug, PartialEq, Eq)]
pub enum Command {
    /// To tell the verdict on a trace.
    Check,
    /// To give an account of an accepted trace.
    Account { account: Account },
    /// To write what is made of a trace.
    Convert { conversion: Conversion },
    /// To run a script, and to write the trace of the run.
    Run { snooping: Snooping },
    /// To write the script that is made from this number.
    Gen { number: u64 },
    /// To run that script, and to tell of the run.
    Trial { number: u64 },
}

fn begins_with_hyphen(word: &str) -> bool
    ensures { result ≡ starts_with_hyphen word.now }
{
    match word.as_bytes().first() {
        Some(first) => *first == b'-',
        None => false,
    }
}

/// Whether one of the words begins with `-`.
fn has_hyphen(words: &[String]) -> bool
    ensures { result ≡ any_hyphen words.now }
{
    words.iter().any(|word| begins_with_hyphen(word.as_str()))
}

/// The account that a word names.
fn account_of(text: &str) -> Option<Account>
    ensures { MatchOption result ((account : Account) → text.now ≢ account_word account)
        (λ account. text.now ≡ account_word account) }
{
    match text {
        "report" => Some(Account::Report),
        "order" => Some(Account::Order),
        _ => None,
    }
}

/// The conversion that a word names.
fn conversion_of(text: &str) -> Option<Conversion>
    ensures { MatchOption result ((conversion : Conversion) → text.now ≢ word_of conversion)
        (λ conversion. text.now ≡ word_of conversion) }
{
    match text {
        "show" => Some(Conversion::Show),
        "migrate" => Some(Conversion::Migrate),
        "pack" => Some(Conversion::Pack),
        "unpack" => Some(Conversion::Unpack),
        _ => None,
    }
}

/// The command that one word names.
#[tactic(auto, using(crate::proofs::WordsAnswered::naming))]
fn one_word(text: &str) -> Option<Command>
    ensures { (words : List (String Global)) → map string_bytes words ≡ text.now ∷ []
        → MatchOption result (¬ IsCommand words) (Names words) }
{
    match text {
        "check" => Some(Command::Check),
        "run" => Some(Command::Run {
            snooping: Snooping::AllPorts,
        }),
        _ => match (account_of(text), conversion_of(text)) {
            (Some(account), _) => Some(Command::Account { account }),
            (None, Some(conversion)) => Some(Command::Convert { conversion }),
            (None, None) => None,
        },
    }
}

/// The command that two words name.
#[tactic(auto, using(crate::proofs::WordsAnswered::naming))]
fn two_words(text: &str, word: &str) -> Option<Command>
    ensures { (words : List (String Global)) → map string_bytes words ≡ text.now ∷ word.now ∷ []
        → MatchOption result (¬ IsCommand words) (Names words) }
{
    match (text, word, number_of(word)) {
        ("run", "filter", _) => Some(Command::Run {
            snooping: Snooping::KeptPorts,
        }),
        ("gen", _, Some(number)) => Some(Command::Gen { number }),
        ("trial", _, Some(number)) => Some(Command::Trial { number }),
        _ => None,
    }
}

/// The command that the words name. There may be no memory to parse them.
#[tactic(auto, using(crate::proofs::Hyphens::no_hyphen))]
pub fn command_of(alloc: Global, words: &[String]) -> Result<Option<Command>, NoMemory>
    ensures { IfOk result (λ command. MatchOption command (¬ IsCommand words.now)
        (Names words.now)) }
{
    if has_hyphen(words) {
        return Ok(None);
    }
    match parse_words(alloc, words)? {
        Some(given) => match given.second {
            Some(second) => Ok(two_words(given.first, second)),
            None => Ok(one_word(given.first)),
        },
        None => Ok(None),
    }
}
