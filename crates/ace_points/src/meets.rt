// Lists of situations.
ghost use Rattle.std.specs.Prelude.{◌≡◌};
ghost use Rattle.ace_points.specs.Situations.{meets, of_two};

use crate::point::Point;
use crate::situation::Situation;

/// The situation, where it is so.
pub(crate) fn meets(situation: Situation, so: bool) -> Option<Point>
    ensures { result ≡ meets situation so }
{
    if so {
        Some(Point::Met { situation })
    } else {
        None
    }
}

/// At most two situations.
pub(crate) fn of_two(one: Option<Point>, two: Option<Point>) -> [Option<Point>; 5]
    ensures { result ≡ of_two one two }
{
    [one, two, None, None, None]
}
