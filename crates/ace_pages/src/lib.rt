//! The pages that tell of the rules: a rule's title and its clauses, where each is kept, what is
//! wrong where it is broken, and where to look first then.
#![tactic(auto)]

mod advice;
mod names;
mod page;
#[cfg(test)]
mod tests;
mod texts;
mod told;

pub use advice::push_advice;
pub use names::page_name;
pub use told::pages_text;
