// The groups in which points are told.
ghost use Rattle.std.specs.Prelude.{◌≡◌, drop, take};
ghost use Rattle.ace_cover.specs.GroupViews.{views_of};
ghost use Rattle.ace_cover.specs.Groups.{groups_of};

use crate::hit::Hit;
use ace_points::{
    answer_points, read_end_points, rule_points, silent_points, situation_points, start_points,
    transaction_points, update_points, write_end_points,
};

/// A group of points, with their counts.
#[derive(Clone, Copy)]
pub struct Group<'a> {
    pub title: &'static [u8],
    pub hits: &'a [Hit],
}

/// The first so many points as a group, and those behind them.
#[tactic(auto, using(crate::proofs::Pairing::cuts))]
fn cut<'a>(title: &'static [u8], size: usize, hits: &'a [Hit]) -> (Group<'a>, &'a [Hit])
    ensures title { result.0.title.now ≡ title.entry.now }
    ensures group { result.0.hits.now ≡ take size hits.entry.now }
    ensures rest { result.1.now ≡ drop size hits.entry.now }
{
    let size = size.min(hits.len());
    let group = Group {
        title,
        hits: &hits[..size],
    };
    (group, &hits[size..])
}

/// The groups of all points.
pub fn groups_of<'a>(hits: &'a [Hit]) -> [Group<'a>; 9]
    ensures { views_of result ≡ groups_of hits.entry.now }
{
    let (transactions, rest) = cut(b"transactions", transaction_points().len(), hits);
    let (starts, rest) = cut(b"start states", start_points().len(), rest);
    let (read_ends, rest) = cut(b"ends of reads", read_end_points().len(), rest);
    let (write_ends, rest) = cut(b"ends of writes", write_end_points().len(), rest);
    let (answers, rest) = cut(b"snoop answers", answer_points().len(), rest);
    let (updates, rest) = cut(
        b"snoop answers with an update outstanding",
        update_points().len(),
        rest,
    );
    let (silent, rest) = cut(b"silent transitions", silent_points().len(), rest);
    let (rules, rest) = cut(b"rules in earnest", rule_points().len(), rest);
    let (situations, _rest) = cut(b"situations", situation_points().len(), rest);
    [
        transactions,
        starts,
        read_ends,
        write_ends,
        answers,
        updates,
        silent,
        rules,
        situations,
    ]
}
