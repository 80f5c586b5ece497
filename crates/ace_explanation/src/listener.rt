use ace_check::Checker;
use ace_explain::LastLoads;
use ace_journal::Journal;
use ace_since::Since;

/// What hears a trace event by event: the checker, what tells of the exclusive loads that it has
/// forgotten, what keeps the last events of each line, and what keeps since when it is as it is.
#[derive(Drop)]
pub struct Listener {
    pub checker: Checker,
    pub loads: LastLoads,
    pub journal: Journal,
    pub since: Since,
}
