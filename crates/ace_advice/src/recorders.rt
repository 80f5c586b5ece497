// What to look at in a recorder where a rule is broken early in a trace.
ghost use Rattle.std.specs.Prelude.{◌≡◌};
ghost use Rattle.ace_advice.specs.Recorders.{snoop_recorder, read_recorder, write_recorder, cache_recorder, order_recorder, in_a_recorder};

/// What to look at in a recorder where the rule is broken, of 34 to 40.
fn order_recorder(rule: u8) -> &'static str
    ensures { result.now ≡ order_recorder rule }
{
    match rule {
        40 => "look first at OP records that are written although there is no script",
        _ => "",
    }
}

/// What to look at in a recorder where the rule is broken, of 29 to 40.
fn cache_recorder(rule: u8) -> &'static str
    ensures { result.now ≡ cache_recorder rule }
{
    match rule {
        29 => "look first at the states: read before they changed, or one event late",
        30 => "look first at loads out of a buffer before their RK",
        31 => "look first at loads out of a buffer before their RK",
        _ => order_recorder(rule),
    }
}

/// What to look at in a recorder where the rule is broken, of 24 to 40.
fn write_recorder(rule: u8) -> &'static str
    ensures { result.now ≡ write_recorder rule }
{
    match rule {
        24 => "look first at an M that is missing, or that has the strobed bytes alone",
        25 => "look first at an M that is missing, or that has the strobed bytes alone",
        26 => "look first at an M that is missing, or that has the strobed bytes alone",
        _ => cache_recorder(rule),
    }
}

/// What to look at in a recorder where the rule is broken, of 18 to 40.
fn read_recorder(rule: u8) -> &'static str
    ensures { result.now ≡ read_recorder rule }
{
    match rule {
        18 => "look first at a G that is missing, or behind the AC",
        20 => "look first at an M that was recorded late, or a D that is missing",
        23 => "look first at the states: read before they changed, or one event late",
        _ => write_recorder(rule),
    }
}

/// What to look at in a recorder where the rule is broken, of 11 to 40.
fn snoop_recorder(rule: u8) -> &'static str
    ensures { result.now ≡ snoop_recorder rule }
{
    match rule {
        11 => "look first at W written before its AW, CD before its CR, or last a beat early",
        12 => "look first at an RK behind the next G",
        13 => "look first at a G that is missing, or behind the AC",
        15 => "look first at the states: read before they changed, or one event late",
        17 => "look first at W written before its AW, CD before its CR, or last a beat early",
        _ => read_recorder(rule),
    }
}

/// What to look at in a recorder where the rule is broken. Empty where there is no such rule or
/// nothing is told.
///
/// Each line but the first is indented by 17 columns, as the text stands beside a label.
pub fn in_a_recorder(rule: u8) -> &'static str
    ensures { result.now ≡ in_a_recorder rule }
{
    match rule {
        4 => "look first at a missing RK or WK: RACK or WACK is a pulse of one cycle",
        5 => "look first at a missing RK or WK: RACK or WACK is a pulse of one cycle",
        6 => "look first at the states: read before they changed, or one event late",
        _ => snoop_recorder(rule),
    }
}
