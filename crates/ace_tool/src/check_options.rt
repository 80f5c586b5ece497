// How traces are to be checked.
ghost use Rattle.std.specs.Prelude.{◌≤◌};
ghost use Rattle.ace_grammar.specs.Reading.{most_counted};

use ace_verdict::Limits;

/// When a recording counts as whole.
#[derive(Clone, Copy)]
pub struct EndRules {
    /// A trace without a side file doesn't.
    pub require_end: bool,
    /// One that was cut on demand does.
    pub allow_cut: bool,
    /// One at whose end transactions are outstanding doesn't.
    pub drained: bool,
}

/// Where the side file of a trace is.
#[derive(Clone, Copy)]
pub enum SideChoice<'a> {
    /// Beside it.
    Beside,
    /// In the file of this name.
    Named { name: &'a str },
    /// Nowhere.
    Nowhere,
}

/// How traces are to be checked.
#[derive(Clone, Copy)]
pub struct CheckOptions<'a> {
    /// How much a trace may have.
    pub limits: Limits,
    pub side: SideChoice<'a>,
    pub ends: EndRules,
    ghost counted: { limits.events ≤ most_counted },
}
