//! The points of coverage: what the events of traces can show, and what an event shows.
#![tactic(auto)]

mod asked;
mod asked_lines;
mod asked_reads;
mod asked_writes;
mod asks;
mod barriers;
mod ends;
mod issues;
mod line_words;
mod meets;
mod met;
mod met_answers;
mod met_issues;
mod met_lines;
mod met_writes;
mod other_ports;
mod outstanding;
mod point;
mod points;
mod showing;
mod situation;
mod states;
mod under_grant;

pub use point::{Point, same_point};
pub use points::{
    answer_points, read_end_points, rule_points, silent_points, situation_points, start_points,
    transaction_points, update_points, write_end_points,
};
pub use showing::{PointsShown, shown};
pub use situation::Situation;
