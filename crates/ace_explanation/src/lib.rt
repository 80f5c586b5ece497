//! Why a trace is refused or malformed: the verdict on it, the clause of the rule that is broken or
//! the line that is malformed, and the text that tells of them.
#![tactic(auto)]

mod event_line;
mod explanation;
mod follow;
mod listener;
mod next;
mod refusal;
mod refusals;
mod shown;
mod to_sink;
mod verdicts;

pub use explanation::Explanation;
pub use follow::explanation_within;
pub use refusal::Refusal;
pub use refusals::{kept_sentence, refusal_text, title, wrong_sentence};
pub use shown::shown_events;
pub use to_sink::tell;
pub use verdicts::verdict_text;
