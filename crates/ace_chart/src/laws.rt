//! Facts about the places of a chart, as contracts of functions that do nothing.

ghost use Rattle.std.specs.Prelude.{ℕ, ◌+◌, ◌≤◌};
ghost use Rattle.ace_chart.specs.Places.{height, width, x_of, y_of};
ghost use Rattle.ace_chart.specs.declared.places.Lifeline.{Lifeline};

/// Each lifeline is at least 150 units from the left edge and 120 from the right one, and each row
/// 130 from the upper edge and 180 from the lower one. What belongs to one is drawn within these.
#[tactic(auto, using(crate::proofs::Columns::places))]
pub fn places_are_inside()
    ensures left { (ports : ℕ) (at : Lifeline) → 150 ≤ x_of ports at }
    ensures right { (ports : ℕ) (at : Lifeline) → 1 ≤ ports → x_of ports at + 120 ≤ width ports }
    ensures above { (row : ℕ) → 130 ≤ y_of row }
    ensures below { (row rows : ℕ) → row ≤ rows → y_of row + 180 ≤ height rows }
{}
