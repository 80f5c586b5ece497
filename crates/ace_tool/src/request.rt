// What the words of the command line ask.
ghost use Rattle.std.specs.Prelude.{◌≡◌, ◌≢◌, ◌↔◌, List, ◌∷◌, [], codes, map, string_bytes, IfOk, IsTrue, MatchOption};
ghost use Rattle.ace_tool.specs.Asked.{AsksCheck, CheckAsked};
ghost use Rattle.ace_tool.specs.Told.{IsRequest, check_of};

use crate::check_call::CheckCall;
use crate::check_words::CheckWords;
use crate::explain_words::{ExplainCall, explain_call};
use ace_io::NoMemory;
use ace_pages::pages_text;
use std::alloc::Global;

/// What the program is asked to do.
#[derive(Drop)]
pub enum Request<'a> {
    /// To tell the commands.
    Help,
    /// To tell how `check` is used.
    HelpOfCheck,
    /// To tell how `explain` is used.
    HelpOfExplain,
    /// To tell how `rule` is used.
    HelpOfRule,
    /// To tell the version.
    Version,
    /// To tell the verdicts on traces.
    Check { call: CheckCall<'a> },
    /// To tell why a trace is refused.
    Explain { call: ExplainCall<'a> },
    /// To tell of rules: the text of their pages.
    Pages { text: Vec<u8> },
}

/// Whether there is one word, and it asks for help.
#[tactic(auto, using(crate::proofs::Words::only))]
pub(crate) fn is_help(words: &[String]) -> bool
    ensures { IsTrue result ↔ (map string_bytes words.now ≡ codes "--help" ∷ []) }
{
    match words.split_first() {
        Some((word, rest)) => rest.is_empty() && word.as_str() == "--help",
        None => false,
    }
}

/// What the words behind `check` ask it to do, if they are right.
#[tactic(auto, using(crate::proofs::Words::checks))]
fn check_call<'a>(alloc: Global, words: &'a [String]) -> Result<Option<CheckCall<'a>>, NoMemory>
    ensures { IfOk result (λ call. MatchOption call
        ((check : CheckAsked) → ¬ AsksCheck (map string_bytes words.entry.now) check)
        (λ c. AsksCheck (map string_bytes words.entry.now) (check_of c))) }
{
    match CheckWords::read(alloc, words) {
        Ok(Some(asked)) => asked.finish(),
        Ok(None) => Ok(None),
        Err(NoMemory) => Err(NoMemory),
    }
}

/// What the words ask of which `check` is the first, and these are the others.
#[tactic(auto, using(crate::proofs::Words::requests))]
fn check_request<'a>(alloc: Global, words: &'a [String]) -> Result<Option<Request<'a>>, NoMemory>
    ensures { IfOk result (IsRequest (codes "check" ∷ map string_bytes words.entry.now)) }
{
    if is_help(words) {
        return Ok(Some(Request::HelpOfCheck));
    }
    match check_call(alloc, words) {
        Ok(Some(call)) => Ok(Some(Request::Check { call })),
        Ok(None) => Ok(None),
        Err(NoMemory) => Err(NoMemory),
    }
}

/// The same of `explain`.
#[tactic(auto, using(crate::proofs::Words::requests))]
fn explain_request<'a>(alloc: Global, words: &'a [String]) -> Result<Option<Request<'a>>, NoMemory>
    ensures { IfOk result (IsRequest (codes "explain" ∷ map string_bytes words.entry.now)) }
{
    if is_help(words) {
        return Ok(Some(Request::HelpOfExplain));
    }
    match explain_call(alloc, words) {
        Ok(Some(call)) => Ok(Some(Request::Explain { call })),
        Ok(None) => Ok(None),
        Err(NoMemory) => Err(NoMemory),
    }
}

/// The same of `rule`.
#[tactic(auto, using(crate::proofs::Words::requests))]
fn rule_request<'a>(alloc: Global, words: &'a [String]) -> Result<Option<Request<'a>>, NoMemory>
    ensures { IfOk result (IsRequest (codes "rule" ∷ map string_bytes words.entry.now)) }
{
    if is_help(words) {
        return Ok(Some(Request::HelpOfRule));
    }
    match pages_text(alloc, words) {
        Ok(Some(text)) => Ok(Some(Request::Pages { text })),
        Ok(None) => Ok(None),
        Err(NoMemory) => Err(NoMemory),
    }
}

/// What one word asks that is no command.
#[tactic(auto, using(crate::proofs::Words::requests))]
fn lone_request<'a>(word: &str) -> Option<Request<'a>>
    ensures { word.now ≢ codes "check" → word.now ≢ codes "explain" → word.now ≢ codes "rule"
        → IsRequest (word.now ∷ []) result }
{
    match word {
        "--help" => Some(Request::Help),
        "--version" => Some(Request::Version),
        _ => None,
    }
}

/// What the words ask of which this is the first, and these are the others.
#[tactic(auto, using(crate::proofs::Words::requests))]
fn command_request<'a>(
    alloc: Global,
    command: &str,
    words: &'a [String],
) -> Result<Option<Request<'a>>, NoMemory>
    ensures { IfOk result (IsRequest (command.now ∷ map string_bytes words.entry.now)) }
{
    if command == "check" {
        check_request(alloc, words)
    } else if command == "explain" {
        explain_request(alloc, words)
    } else if command == "rule" {
        rule_request(alloc, words)
    } else if words.is_empty() {
        Ok(lone_request(command))
    } else {
        Ok(None)
    }
}

/// What the words ask, if they ask anything.
///
/// # Errors
///
/// `NoMemory` where there is none for what they ask.
#[tactic(auto, using(crate::proofs::Words::requests))]
pub fn request_of<'a>(alloc: Global, words: &'a [String]) -> Result<Option<Request<'a>>, NoMemory>
    ensures { IfOk result (IsRequest (map string_bytes words.entry.now)) }
{
    match words.split_first() {
        Some((first, rest)) => command_request(alloc, first.as_str(), rest),
        None => Ok(None),
    }
}
