// The titles of the rules, and where their clauses are kept.
ghost use Rattle.std.specs.Prelude.{◌≡◌};
ghost use Rattle.ace_words.specs.Rules.{address_title, snoop_title, read_title, write_title, cache_title, order_title, rule_title};
ghost use Rattle.ace_words.specs.Rules.{address_kept, snoop_kept, read_kept, write_kept, cache_kept, order_kept, kept_where};

use crate::address_sentences::{
    k1_kept, k2_kept, k3_kept, k4_kept, k5_kept, k6_kept, k7_kept, k8_kept, k9_kept, k10_kept,
};
use crate::cache_sentences::{k29_kept, k30_kept, k31_kept, k32_kept, k33_kept};
use crate::order_sentences::{
    k34_kept, k35_kept, k36_kept, k37_kept, k38_kept, k39_kept, k40_kept,
};
use crate::read_sentences::{k18_kept, k19_kept, k20_kept, k21_kept, k22_kept, k23_kept};
use crate::snoop_sentences::{
    k11_kept, k12_kept, k13_kept, k14_kept, k15_kept, k16_kept, k17_kept,
};
use crate::write_sentences::{k24_kept, k25_kept, k26_kept, k27_kept, k28_kept};
use ace_clauses::{ClauseName, Letter};

/// The title of a rule, of 34 to 40.
fn order_title(rule: u8) -> &'static [u8]
    ensures { result.now ≡ order_title rule }
{
    match rule {
        34 => b"a barrier is answered in time",
        35 => b"a barrier holds back",
        36 => b"messages arrive in order",
        37 => b"a message is answered by all",
        38 => b"a completion has a Sync",
        39 => b"a Sync is completed by all",
        40 => b"operations retire in order",
        _ => b"",
    }
}

/// The title of a rule, of 29 to 40.
fn cache_title(rule: u8) -> &'static [u8]
    ensures { result.now ≡ cache_title rule }
{
    match rule {
        29 => b"a silent transition is one",
        30 => b"a load hits",
        31 => b"a load gives what is there",
        32 => b"a store has the line alone",
        33 => b"an exclusive store has a monitor",
        _ => order_title(rule),
    }
}

/// The title of a rule, of 24 to 40.
fn write_title(rule: u8) -> &'static [u8]
    ensures { result.now ≡ write_title rule }
{
    match rule {
        24 => b"memory is written for something",
        25 => b"memory gets the right line",
        26 => b"a response has a write",
        27 => b"a write acknowledge has a write",
        28 => b"a write ends in an end state",
        _ => cache_title(rule),
    }
}

/// The title of a rule, of 18 to 40.
fn read_title(rule: u8) -> &'static [u8]
    ensures { result.now ≡ read_title rule }
{
    match rule {
        18 => b"a transfer is due",
        19 => b"PassDirty and IsShared are right",
        20 => b"the data are those of the reply",
        21 => b"EXOKAY where it is true",
        22 => b"a read acknowledge has a read",
        23 => b"a read ends in an end state",
        _ => write_title(rule),
    }
}

/// The title of a rule, of 11 to 40.
fn snoop_title(rule: u8) -> &'static [u8]
    ensures { result.now ≡ snoop_title rule }
{
    match rule {
        11 => b"write data have a write",
        12 => b"one grant for a line",
        13 => b"a snoop has a reason",
        14 => b"an answer has a snoop",
        15 => b"an answer fits the state",
        16 => b"an answer respects an update",
        17 => b"snoop data are those of the answer",
        _ => read_title(rule),
    }
}

/// The title of a rule, of 1 to 40.
fn address_title(rule: u8) -> &'static [u8]
    ensures { result.now ≡ address_title rule }
{
    match rule {
        1 => b"the port has this record",
        2 => b"the codes mean something",
        3 => b"the address is that of a line",
        4 => b"an identifier is free",
        5 => b"one transaction of a port on a line",
        6 => b"it starts from a start state",
        7 => b"what may be exclusive",
        8 => b"a line is shareable or not",
        9 => b"barriers and messages are well formed",
        10 => b"updates and streaming writes keep apart",
        _ => snoop_title(rule),
    }
}

/// Where a clause is kept, of rules 34 to 40.
fn order_kept(rule: u8, letter: Letter) -> &'static [u8]
    ensures { result.now ≡ order_kept rule letter }
{
    match rule {
        34 => k34_kept(letter),
        35 => k35_kept(letter),
        36 => k36_kept(letter),
        37 => k37_kept(letter),
        38 => k38_kept(letter),
        39 => k39_kept(letter),
        40 => k40_kept(letter),
        _ => b"",
    }
}

/// Where a clause is kept, of rules 29 to 40.
fn cache_kept(rule: u8, letter: Letter) -> &'static [u8]
    ensures { result.now ≡ cache_kept rule letter }
{
    match rule {
        29 => k29_kept(letter),
        30 => k30_kept(letter),
        31 => k31_kept(letter),
        32 => k32_kept(letter),
        33 => k33_kept(letter),
        _ => order_kept(rule, letter),
    }
}

/// Where a clause is kept, of rules 24 to 40.
fn write_kept(rule: u8, letter: Letter) -> &'static [u8]
    ensures { result.now ≡ write_kept rule letter }
{
    match rule {
        24 => k24_kept(letter),
        25 => k25_kept(letter),
        26 => k26_kept(letter),
        27 => k27_kept(letter),
        28 => k28_kept(letter),
        _ => cache_kept(rule, letter),
    }
}

/// Where a clause is kept, of rules 18 to 40.
fn read_kept(rule: u8, letter: Letter) -> &'static [u8]
    ensures { result.now ≡ read_kept rule letter }
{
    match rule {
        18 => k18_kept(letter),
        19 => k19_kept(letter),
        20 => k20_kept(letter),
        21 => k21_kept(letter),
        22 => k22_kept(letter),
        23 => k23_kept(letter),
        _ => write_kept(rule, letter),
    }
}

/// Where a clause is kept, of rules 11 to 40.
fn snoop_kept(rule: u8, letter: Letter) -> &'static [u8]
    ensures { result.now ≡ snoop_kept rule letter }
{
    match rule {
        11 => k11_kept(letter),
        12 => k12_kept(letter),
        13 => k13_kept(letter),
        14 => k14_kept(letter),
        15 => k15_kept(letter),
        16 => k16_kept(letter),
        17 => k17_kept(letter),
        _ => read_kept(rule, letter),
    }
}

/// Where a clause is kept, of rules 1 to 40.
fn address_kept(rule: u8, letter: Letter) -> &'static [u8]
    ensures { result.now ≡ address_kept rule letter }
{
    match rule {
        1 => k1_kept(letter),
        2 => k2_kept(letter),
        3 => k3_kept(letter),
        4 => k4_kept(letter),
        5 => k5_kept(letter),
        6 => k6_kept(letter),
        7 => k7_kept(letter),
        8 => k8_kept(letter),
        9 => k9_kept(letter),
        10 => k10_kept(letter),
        _ => snoop_kept(rule, letter),
    }
}

/// The title of a rule, 1 to 40. Empty for another number.
pub fn rule_title(rule: u8) -> &'static [u8]
    ensures { result.now ≡ rule_title rule }
{
    address_title(rule)
}

/// Where a clause is kept: a sentence without its full stop. Empty where there is no such clause.
pub fn kept_where(clause: ClauseName) -> &'static [u8]
    ensures { result.now ≡ kept_where clause.rule clause.letter }
{
    address_kept(clause.rule, clause.letter)
}
