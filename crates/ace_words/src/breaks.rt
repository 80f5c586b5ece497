// What is wrong where a clause is broken.
ghost use Rattle.std.specs.Prelude.{◌≡◌};
ghost use Rattle.ace_words.specs.Breaks.{address_broken, snoop_broken, read_broken, write_broken, cache_broken, order_broken, wrong_with};

use crate::address_breaks::{
    k1_broken, k2_broken, k3_broken, k4_broken, k5_broken, k6_broken, k7_broken, k8_broken,
    k9_broken, k10_broken,
};
use crate::cache_breaks::{k29_broken, k30_broken, k31_broken, k32_broken, k33_broken};
use crate::order_breaks::{
    k34_broken, k35_broken, k36_broken, k37_broken, k38_broken, k39_broken, k40_broken,
};
use crate::read_breaks::{k18_broken, k19_broken, k20_broken, k21_broken, k22_broken, k23_broken};
use crate::snoop_breaks::{
    k11_broken, k12_broken, k13_broken, k14_broken, k15_broken, k16_broken, k17_broken,
};
use crate::write_breaks::{k24_broken, k25_broken, k26_broken, k27_broken, k28_broken};
use ace_clauses::{ClauseName, Letter};

/// What is wrong where a clause is broken, of rules 34 to 40.
fn order_broken(rule: u8, letter: Letter) -> &'static [u8]
    ensures { result.now ≡ order_broken rule letter }
{
    match rule {
        34 => k34_broken(letter),
        35 => k35_broken(letter),
        36 => k36_broken(letter),
        37 => k37_broken(letter),
        38 => k38_broken(letter),
        39 => k39_broken(letter),
        40 => k40_broken(letter),
        _ => b"",
    }
}

/// What is wrong where a clause is broken, of rules 29 to 40.
fn cache_broken(rule: u8, letter: Letter) -> &'static [u8]
    ensures { result.now ≡ cache_broken rule letter }
{
    match rule {
        29 => k29_broken(letter),
        30 => k30_broken(letter),
        31 => k31_broken(letter),
        32 => k32_broken(letter),
        33 => k33_broken(letter),
        _ => order_broken(rule, letter),
    }
}

/// What is wrong where a clause is broken, of rules 24 to 40.
fn write_broken(rule: u8, letter: Letter) -> &'static [u8]
    ensures { result.now ≡ write_broken rule letter }
{
    match rule {
        24 => k24_broken(letter),
        25 => k25_broken(letter),
        26 => k26_broken(letter),
        27 => k27_broken(letter),
        28 => k28_broken(letter),
        _ => cache_broken(rule, letter),
    }
}

/// What is wrong where a clause is broken, of rules 18 to 40.
fn read_broken(rule: u8, letter: Letter) -> &'static [u8]
    ensures { result.now ≡ read_broken rule letter }
{
    match rule {
        18 => k18_broken(letter),
        19 => k19_broken(letter),
        20 => k20_broken(letter),
        21 => k21_broken(letter),
        22 => k22_broken(letter),
        23 => k23_broken(letter),
        _ => write_broken(rule, letter),
    }
}

/// What is wrong where a clause is broken, of rules 11 to 40.
fn snoop_broken(rule: u8, letter: Letter) -> &'static [u8]
    ensures { result.now ≡ snoop_broken rule letter }
{
    match rule {
        11 => k11_broken(letter),
        12 => k12_broken(letter),
        13 => k13_broken(letter),
        14 => k14_broken(letter),
        15 => k15_broken(letter),
        16 => k16_broken(letter),
        17 => k17_broken(letter),
        _ => read_broken(rule, letter),
    }
}

/// What is wrong where a clause is broken, of rules 1 to 40.
fn address_broken(rule: u8, letter: Letter) -> &'static [u8]
    ensures { result.now ≡ address_broken rule letter }
{
    match rule {
        1 => k1_broken(letter),
        2 => k2_broken(letter),
        3 => k3_broken(letter),
        4 => k4_broken(letter),
        5 => k5_broken(letter),
        6 => k6_broken(letter),
        7 => k7_broken(letter),
        8 => k8_broken(letter),
        9 => k9_broken(letter),
        10 => k10_broken(letter),
        _ => snoop_broken(rule, letter),
    }
}

/// What is wrong where the clause is broken: a sentence without its full stop. Empty where there is
/// no such clause.
pub fn wrong_with(clause: ClauseName) -> &'static [u8]
    ensures { result.now ≡ wrong_with clause.rule clause.letter }
{
    address_broken(clause.rule, clause.letter)
}
