// Counting.
ghost use Rattle.std.specs.Prelude.{◌≡◌, ◌<◌, ◌≤◌, ◌+◌, ◌-◌, ◌^◌, ◌||◌, ℕ, if◌then◌else◌, length, map, slice_index, slice_set, take};
ghost use Rattle.ace_cover.specs.Counts.{has_point};
ghost use Rattle.ace_model.specs.Trace.{is_some_and};
ghost use Rattle.ace_points.specs.Same.{same_point};
ghost use Rattle.ace_points.specs.Shown.{points_of};
ghost use Rattle.ace_points.specs.declared.point.Point.{Point as Shown};

use ace_points::{Point, PointsShown, same_point};

/// The point is the one that is shown.
fn is_point(shown: &Option<Point>, point: &Point) -> bool
    ensures { result ≡ is_some_and shown.now (λ q. same_point q point.now) }
{
    match shown {
        Some(other) => same_point(other, point),
        None => false,
    }
}

/// The point is among those that are shown.
fn has_point(shown: &[Option<Point>], point: &Point) -> bool
    ensures { result ≡ has_point shown.now point.now }
{
    shown.iter().any(|one| is_point(one, point))
}

/// Adds the points of a list to those that were found, which are so many; how many they are then.
fn gather(found: &mut [Option<Point>], count: usize, shown: &[Option<Point>]) -> usize
    requires { count + length shown.now ≤ length found.old }
    ensures among { (p : Shown) → has_point (take result found.new) p
        ≡ (has_point (take count found.old) p || has_point shown.now p) }
    ensures few { result ≤ count + length shown.now }
    ensures size { length found.new ≡ length found.old }
{
    let mut count = count;
    for point in shown {
        if point.is_some() {
            found[count] = *point;
            count += 1;
        }
    }
    count
}

/// One more, where it is so.
fn one_more(count: u64, is_hit: bool) -> u64
    ensures { count < 2 ^ 64 - 1 → result ≡ (if is_hit then count + 1 else count) }
{
    if is_hit { count.wrapping_add(1) } else { count }
}

/// Counts one more at the place, where it is so.
fn count_at(hits: &mut Vec<u64>, place: usize, is_hit: bool)
    ensures { place < length hits.old.items → slice_index hits.old.items place < 2 ^ 64 - 1
        → hits.new.items ≡ slice_set hits.old.items place
        (if is_hit then slice_index hits.old.items place + 1
        else slice_index hits.old.items place) }
{
    if place < hits.len() {
        hits[place] = one_more(hits[place], is_hit);
    }
}

/// Counts these points: `hits` has the count of each point, in their order.
fn count_found(points: &[Point], hits: &mut Vec<u64>, found: &[Option<Point>])
    ensures { (before after : Shown → ℕ) → hits.old.items ≡ map before points.now
        → ((p : Shown) → before p < 2 ^ 64 - 1)
        → ((p : Shown) → after p
        ≡ (if has_point found.now p then before p + 1 else before p))
        → hits.new.items ≡ map after points.now }
{
    for place in 0..points.len() {
        count_at(hits, place, has_point(found, &points[place]));
    }
}

/// Counts the points that an event shows. Most places of its lists are empty: those that aren't are
/// put together first.
#[tactic(auto, using(crate::proofs::Counting::among_all))]
pub(crate) fn count_shown(points: &[Point], hits: &mut Vec<u64>, shown: &PointsShown)
    ensures { (before after : Shown → ℕ) → hits.old.items ≡ map before points.now
        → ((p : Shown) → before p < 2 ^ 64 - 1)
        → ((p : Shown) → after p
        ≡ (if has_point (points_of shown.now) p then before p + 1 else before p))
        → hits.new.items ≡ map after points.now }
{
    let mut found = [None; 18];
    let rows = gather(&mut found, 0, &shown.rows);
    let rules = gather(&mut found, rows, &shown.rules);
    let count = gather(&mut found, rules, &shown.situations);
    count_found(points, hits, &found[..count]);
}
