// Points with their counts.
ghost use Rattle.std.specs.Prelude.{◌≡◌, ◌≤◌, length, IfOk};
ghost use Rattle.ace_cover.specs.Groups.{hit_count, hits_of, is_hit, never_hit, were_hit};

use ace_io::NoMemory;
use ace_points::Point;
use std::alloc::Global;

/// A point, and how many events show it.
#[derive(Clone, Copy)]
pub struct Hit {
    pub point: Point,
    pub count: u64,
}

/// The points with their counts.
#[tactic(auto, using(crate::proofs::Pairing::pairs))]
pub(crate) fn hits_of(alloc: Global, points: &[Point], counts: &[u64]) -> Result<Vec<Hit>, NoMemory>
    ensures { IfOk result (λ hits. hits.items ≡ hits_of points.now counts.now) }
{
    let mut hits = Vec::new(alloc);
    for place in 0..points.len().min(counts.len()) {
        let hit = Hit {
            point: points[place],
            count: counts[place],
        };
        if hits.push(hit).is_err() {
            return Err(NoMemory);
        }
    }
    Ok(hits)
}

/// Some event shows the point.
fn is_hit(hit: &Hit) -> bool
    ensures { result ≡ is_hit hit.now }
{
    hit.count > 0
}

/// Those that were hit.
pub(crate) fn were_hit(alloc: Global, hits: &[Hit]) -> Result<Vec<Hit>, NoMemory>
    ensures { IfOk result (λ found. found.items ≡ were_hit hits.now) }
{
    let mut found = Vec::new(alloc);
    for hit in hits {
        if is_hit(hit) && found.push(*hit).is_err() {
            return Err(NoMemory);
        }
    }
    Ok(found)
}

/// Those that never were.
pub(crate) fn never_hit(alloc: Global, hits: &[Hit]) -> Result<Vec<Hit>, NoMemory>
    ensures { IfOk result (λ missing. missing.items ≡ never_hit hits.now) }
{
    let mut missing = Vec::new(alloc);
    for hit in hits {
        if !is_hit(hit) && missing.push(*hit).is_err() {
            return Err(NoMemory);
        }
    }
    Ok(missing)
}

/// How many were hit.
#[tactic(auto, using(crate::proofs::Pairing::counting))]
pub(crate) fn hit_count(hits: &[Hit]) -> usize
    ensures count { result ≡ hit_count hits.now }
    ensures bound { result ≤ length hits.now }
{
    let mut count = 0;
    for hit in hits {
        if is_hit(hit) {
            count += 1;
        }
    }
    count
}
