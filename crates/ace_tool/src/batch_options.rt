// The options of `batch` that `check` doesn't have.
ghost use Rattle.std.specs.Prelude.{◌≡◌, ◌<◌, ◌≤◌, ℕ, Option, bytes_eq, option_map, IfNone, IfSome, MatchOption};
ghost use Rattle.std.specs.Map.{lookup};
ghost use Rattle.ace_tool.specs.BatchOptions.{AreExtras, ArePart, IsJobs, IsPart, SaidExtras, batch_flags, batch_valued, no_extras, with_batch_flag, with_batch_value};
ghost use Rattle.ace_tool.specs.BatchTold.{if_extra, said_of};

use crate::options::keep_once;
use ace_batch::Shard;
use ace_call::number_of;
use std::marker::Model;

/// An option of `batch` that stands alone.
#[derive(Clone, Copy)]
pub(crate) enum BatchFlag {
    /// No lines for accepted traces.
    Failed,
    /// An end with the first trace that isn't accepted.
    FailFast,
}

/// An option of `batch` that has a value.
#[derive(Clone, Copy)]
pub(crate) enum BatchValued {
    /// The file that lists traces.
    List,
    /// The number of threads.
    Jobs,
    /// The part of the list.
    Shard,
    /// The file for the results as JUnit XML.
    Junit,
    /// The file for the results as JSON lines.
    Json,
}

/// The option that this word is, if it is one of `batch` that stands alone.
pub(crate) fn batch_flag_of(word: &str) -> Option<BatchFlag>
    ensures { result ≡ lookup (bytes_eq word.now) batch_flags }
{
    match word {
        "--failed" => Some(BatchFlag::Failed),
        "--fail-fast" => Some(BatchFlag::FailFast),
        _ => None,
    }
}

/// The option of this name, if it is one of `batch` that has a value.
pub(crate) fn batch_valued_of(name: &str) -> Option<BatchValued>
    ensures { result ≡ lookup (bytes_eq name.now) batch_valued }
{
    match name {
        "--list" => Some(BatchValued::List),
        "--jobs" => Some(BatchValued::Jobs),
        "--shard" => Some(BatchValued::Shard),
        "--junit" => Some(BatchValued::Junit),
        "--json" => Some(BatchValued::Json),
        _ => None,
    }
}

/// What the options of `batch` say that `check` doesn't have.
#[derive(Clone, Copy)]
pub struct ExtraOptions<'a> {
    /// The file that lists more traces; `-` is standard input.
    pub list: Option<&'a str>,
    /// How many jobs share the work; else as many as there are processors.
    pub jobs: Option<u64>,
    /// The part of the list that is checked.
    pub shard: Shard,
    /// The file for the results as JUnit XML.
    pub junit: Option<&'a str>,
    /// The file for the results as JSON lines.
    pub json: Option<&'a str>,
    /// Accepted traces have no lines.
    pub failed: bool,
    /// The call ends with the first trace, in the order of the list, that isn't accepted.
    pub fail_fast: bool,
}

/// The options of `batch` that were given, with their values as they stand.
#[derive(Drop)]
pub(crate) struct BatchExtras<'a> {
    list: Option<&'a str>,
    jobs: Option<&'a str>,
    shard: Option<&'a str>,
    junit: Option<&'a str>,
    json: Option<&'a str>,
    failed: bool,
    fail_fast: bool,
}

impl<'a> Model for BatchExtras<'a> {
    ghost use Rattle.ace_tool.specs.BatchOptions.{Extras};
    ghost use Rattle.std.specs.Prelude.{option_map};

    ghost Value = { Extras };

    ghost view = { λ e. record {
      list = option_map (λ word. word.now) e.list;
      jobs = option_map (λ word. word.now) e.jobs;
      shard = option_map (λ word. word.now) e.shard;
      junit = option_map (λ word. word.now) e.junit;
      json = option_map (λ word. word.now) e.json;
      failed = e.failed;
      fail_fast = e.fail_fast;
    } };
}

/// The number of jobs that the word of an option says, if it is right; without one none is said.
#[tactic(auto, using(crate::proofs::BatchNumbers::no_zero_jobs))]
fn jobs_of(word: Option<&str>) -> Option<Option<u64>>
    ensures { MatchOption result
        ((jobs : Option ℕ) → ¬ IsJobs (option_map (λ w. w.now) word.entry) jobs)
        (IsJobs (option_map (λ w. w.now) word.entry)) }
{
    match word {
        Some(word) => match number_of(word) {
            Some(number) => {
                if number == 0 {
                    None
                } else {
                    Some(Some(number))
                }
            }
            None => None,
        },
        None => Some(None),
    }
}

/// The part of so many, if there is one.
fn shard_in(part: u64, parts: u64) -> Option<Shard>
    ensures none { IfNone result (¬ ((0 < part) × (part ≤ parts))) }
    ensures some { IfSome result (λ s. (s.part ≡ part) × (s.parts ≡ parts) × (0 < part)
        × (part ≤ parts)) }
{
    if 0 < part && part <= parts {
        Some(Shard {
            part: part as usize,
            parts: parts as usize,
        })
    } else {
        None
    }
}

/// The part of a list that these words name, if they do.
#[tactic(auto, using(crate::proofs::BatchNumbers::parts))]
fn shard_by(word: &str, other: &str) -> Option<Shard>
    ensures { MatchOption result ((p n : ℕ) → ¬ ArePart word.now other.now p n)
        (λ s. ArePart word.now other.now s.part s.parts) }
{
    let Some(part) = number_of(word) else {
        return None;
    };
    match number_of(other) {
        Some(parts) => shard_in(part, parts),
        None => None,
    }
}

/// The part of the list that the word of an option says, if it is right; without one it is the
/// whole list.
fn shard_of(word: Option<&str>) -> Option<Shard>
    ensures { MatchOption result
        ((p n : ℕ) → ¬ IsPart (option_map (λ w. w.now) word.entry) p n)
        (λ s. IsPart (option_map (λ w. w.now) word.entry) s.part s.parts) }
{
    match word {
        Some(word) => match word.split_once('/') {
            Some((part, parts)) => shard_by(part, parts),
            None => None,
        },
        None => Some(Shard::whole()),
    }
}

impl<'a> BatchExtras<'a> {
    /// None was given.
    pub(crate) fn none() -> BatchExtras<'a>
        ensures { result ≡ no_extras }
    {
        BatchExtras {
            list: None,
            jobs: None,
            shard: None,
            junit: None,
            json: None,
            failed: false,
            fail_fast: false,
        }
    }

    /// One more that stands alone.
    pub(crate) fn add_flag(&mut self, flag: BatchFlag)
        ensures { self.new ≡ with_batch_flag flag self.old }
    {
        match flag {
            BatchFlag::Failed => self.failed = true,
            BatchFlag::FailFast => self.fail_fast = true,
        }
    }

    /// One more with a value; whether it has none yet.
    pub(crate) fn add_value(&mut self, option: BatchValued, value: &'a str) -> bool
        ensures { with_batch_value option value.entry.now self.old ≡ if_extra result self.new }
    {
        match option {
            BatchValued::List => keep_once(&mut self.list, value),
            BatchValued::Jobs => keep_once(&mut self.jobs, value),
            BatchValued::Shard => keep_once(&mut self.shard, value),
            BatchValued::Junit => keep_once(&mut self.junit, value),
            BatchValued::Json => keep_once(&mut self.json, value),
        }
    }

    /// What they say, if their values are right.
    #[tactic(auto, using(crate::proofs::BatchWordSteps::wrong_extras))]
    pub(crate) fn finish(&self) -> Option<ExtraOptions<'a>>
        ensures { MatchOption result
            ((said : SaidExtras) → ¬ AreExtras self.now said)
            (λ e. AreExtras self.now (said_of e)) }
    {
        let jobs = jobs_of(self.jobs)?;
        let shard = shard_of(self.shard)?;
        Some(ExtraOptions {
            list: self.list,
            jobs,
            shard,
            junit: self.junit,
            json: self.json,
            failed: self.failed,
            fail_fast: self.fail_fast,
        })
    }
}
