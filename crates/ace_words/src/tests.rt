// How many texts there are, and some of them.
use crate::{
    kept_where, push_port, read_word, rule_title, snoop_word, state_word, write_word, wrong_with,
};
use ace_clauses::{ClauseName, Letter};
use ace_codes::{ArKind, AwKind, LineState, SnoopKind};
use ace_writer::TextBuf;

const LETTERS: [Letter; 9] = [
    Letter::A,
    Letter::B,
    Letter::C,
    Letter::D,
    Letter::E,
    Letter::F,
    Letter::G,
    Letter::H,
    Letter::I,
];

/// How many clauses of the rule have a sentence for where they are kept.
fn kept_sentences(rule: u8) -> usize {
    LETTERS
        .iter()
        .filter(|letter| {
            !kept_where(ClauseName {
                rule,
                letter: **letter,
            })
            .is_empty()
        })
        .count()
}

/// How many have one for what is wrong where they are broken.
fn broken_sentences(rule: u8) -> usize {
    LETTERS
        .iter()
        .filter(|letter| {
            !wrong_with(ClauseName {
                rule,
                letter: **letter,
            })
            .is_empty()
        })
        .count()
}

#[test]
fn each_rule_has_its_words(rt: HostRuntime) {
    let counts: [usize; 42] = [
        0, 2, 4, 5, 1, 1, 1, 2, 1, 8, 2, 4, 4, 7, 1, 4, 3, 3, 9, 6, 2, 3, 1, 3, 9, 4, 3, 1, 2, 2,
        1, 1, 5, 4, 3, 1, 3, 2, 1, 5, 1, 0,
    ];
    for (rule, count) in (0..42u8).zip(counts) {
        assert_eq!(rt; kept_sentences(rule), count);
        assert_eq!(rt; broken_sentences(rule), count);
        assert_eq!(rt; rule_title(rule).is_empty(), count == 0);
    }
}

/// What a port is called.
fn is_called(port: u8, words: &[u8]) -> bool {
    let mut text = TextBuf::empty();
    push_port(&mut text, port);
    text.bytes() == words
}

#[test]
fn has_words(rt: HostRuntime) {
    let twentieth = ClauseName {
        rule: 20,
        letter: Letter::B,
    };
    assert!(rt; rule_title(20) == b"the data are those of the reply".as_slice());
    assert!(rt; kept_where(twentieth).starts_with(b"a transfer has the word of the reply: "));
    assert!(rt;
        wrong_with(twentieth) == b"the transfer has another word than the reply".as_slice()
    );
    assert!(rt; read_word(ArKind::DvmMessage) == b"DVM Message".as_slice());
    assert!(rt; write_word(AwKind::WriteLineUnique) == b"WriteLineUnique".as_slice());
    assert!(rt; snoop_word(SnoopKind::DvmComplete) == b"DVM Complete".as_slice());
    assert!(rt; state_word(LineState::SD) == b"SD".as_slice());
    assert!(rt;
        is_called(0, b"port 0") && is_called(31, b"port 31") && is_called(255, b"port 255")
    );
}
