// What traces have shown.
ghost use Rattle.std.specs.Prelude.{◌≡◌, ◌<◌, ◌++◌, length, map, slice_index, slice_set, IfOk, OnOk};
ghost use Rattle.ace_cover.specs.Counts.{sum_of, sums};
ghost use Rattle.ace_points.specs.Points.{all_points};

use ace_io::NoMemory;
use ace_points::{
    Point, answer_points, read_end_points, rule_points, silent_points, situation_points,
    start_points, transaction_points, update_points, write_end_points,
};
use std::alloc::Global;
use std::marker::Model;

/// How many traces were accepted, how many events they have, and how many of these show each point.
#[derive(Drop)]
pub struct Totals {
    pub traces: u64,
    pub events: u64,
    /// In the order of all points.
    pub hits: Vec<u64>,
}

impl Model for Totals {
    ghost use Rattle.ace_cover.specs.Tallies.{Tally};

    ghost Value = { Tally };

    ghost view = { λ t. record {
      traces = t.traces;
      events = t.events;
      hits = t.hits.items;
    } };
}

/// Adds the points at the end.
fn push_points(points: &mut Vec<Point>, more: &[Point]) -> Result<(), NoMemory>
    ensures { OnOk result (points.new.items ≡ points.old.items ++ more.now) }
{
    match points.extend_from_slice(more) {
        Ok(()) => Ok(()),
        Err(_) => Err(NoMemory),
    }
}

/// All points, group by group.
///
/// # Errors
///
/// `NoMemory` where there is none for them.
pub fn all_points(alloc: Global) -> Result<Vec<Point>, NoMemory>
    ensures { IfOk result (λ points. points.items ≡ all_points) }
{
    let mut points = Vec::new(alloc);
    push_points(&mut points, transaction_points())?;
    push_points(&mut points, start_points())?;
    push_points(&mut points, read_end_points())?;
    push_points(&mut points, write_end_points())?;
    push_points(&mut points, answer_points())?;
    push_points(&mut points, update_points())?;
    push_points(&mut points, silent_points())?;
    push_points(&mut points, rule_points())?;
    push_points(&mut points, situation_points())?;
    Ok(points)
}

/// The counts of a trace without events: 0 for each point.
///
/// # Errors
///
/// `NoMemory` where there is none for them.
#[tactic(auto, using(crate::proofs::Counting::zeros))]
pub fn no_hits(alloc: Global, points: &[Point]) -> Result<Vec<u64>, NoMemory>
    ensures { IfOk result (λ hits. hits.items ≡ map (λ _. 0) points.now) }
{
    let mut hits = Vec::new(alloc);
    for _point in points {
        if hits.push(0).is_err() {
            return Err(NoMemory);
        }
    }
    Ok(hits)
}

/// Adds the count at the place to the other one there, if there is such a place.
fn add_at(total: &mut Vec<u64>, hits: &[u64], place: usize)
    requires { place < length hits.now }
    ensures { total.new.items ≡ slice_set total.old.items place
        (sum_of (slice_index total.old.items place) (slice_index hits.now place)) }
{
    if place < total.len() {
        total[place] = total[place].saturating_add(hits[place]);
    }
}

/// Adds the counts of a trace to others, place by place.
pub fn add_hits(total: &mut Vec<u64>, hits: &[u64])
    ensures { total.new.items ≡ sums total.old.items hits.now }
{
    for place in 0..hits.len() {
        add_at(total, hits, place);
    }
}

impl Totals {
    ghost use Rattle.std.specs.Prelude.{◌≡◌, IfOk};
    ghost use Rattle.ace_cover.specs.Tallies.{both, is_below, no_tally, with_trace};

    /// Of no trace.
    ///
    /// # Errors
    ///
    /// `NoMemory` where there is none for the counts.
    pub fn none(alloc: Global, points: &[Point]) -> Result<Totals, NoMemory>
        ensures { IfOk result (λ t. t ≡ no_tally points.now) }
    {
        let hits = no_hits(alloc, points)?;
        Ok(Totals {
            traces: 0,
            events: 0,
            hits,
        })
    }

    /// With one more accepted trace, which has so many events, and these counts.
    pub fn add(&mut self, events: u64, hits: &[u64])
        ensures { self.new ≡ with_trace self.old events hits.now }
    {
        self.traces = self.traces.saturating_add(1);
        self.events = self.events.saturating_add(events);
        add_hits(&mut self.hits, hits);
    }

    /// With those of other traces.
    pub fn add_all(&mut self, other: &Totals)
        ensures { self.new ≡ both self.old other.now }
    {
        self.traces = self.traces.saturating_add(other.traces);
        self.events = self.events.saturating_add(other.events);
        add_hits(&mut self.hits, other.hits.as_slice());
    }

    /// Whether fewer than so many of a hundred points were hit.
    pub fn is_below(&self, percent: u8) -> bool
        ensures { result ≡ is_below percent self.now }
    {
        let hit = self.hits.iter().filter(|count| **count > 0).count();
        (hit as u128) * 100 < u128::from(percent) * (self.hits.len() as u128)
    }
}
