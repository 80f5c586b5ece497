// Which rules are told of, and some of the texts.
use crate::{in_a_design, in_a_recorder};

/// The rules that recorders are often taken for breaking.
const RECORDERS: [u8; 18] = [
    4, 5, 6, 11, 12, 13, 15, 17, 18, 20, 23, 24, 25, 26, 29, 30, 31, 40,
];

/// Whether just this is told of the rule: how a design breaks it, and how a recorder does.
fn is_told(rule: u8) -> bool {
    !in_a_design(rule).is_empty() == (1 <= rule && rule <= 40)
        && !in_a_recorder(rule).is_empty() == RECORDERS.contains(&rule)
}

#[test]
fn each_rule_is_told_of(rt: HostRuntime) {
    for rule in 0..255u8 {
        assert!(rt; is_told(rule));
    }
}

#[test]
fn the_texts_are_those_of_their_rules(rt: HostRuntime) {
    let barrier = "Requests are sorted into a queue for each bank before the barrier is looked at,
                 and a younger read in another queue goes first.";
    assert!(rt; in_a_design(35) == barrier);
    let data = "look first at an M that was recorded late, or a D that is missing";
    assert!(rt; in_a_recorder(20) == data);
}
