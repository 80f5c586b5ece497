// Lists of rules.
ghost use Rattle.std.specs.Prelude.{◌≡◌};
ghost use Rattle.ace_points.specs.Asked.{asks, of_three};

use crate::point::Point;

/// The rule, where it is so.
pub(crate) fn asks(rule: u8, so: bool) -> Option<Point>
    ensures { result ≡ asks rule so }
{
    if so { Some(Point::Rule { rule }) } else { None }
}

/// At most three rules.
pub(crate) fn of_three(
    one: Option<Point>,
    two: Option<Point>,
    three: Option<Point>,
) -> [Option<Point>; 8]
    ensures { result ≡ of_three one two three }
{
    [one, two, three, None, None, None, None, None]
}
