//! Facts about the definitions, as contracts of functions that do nothing.

ghost use Rattle.std.specs.Prelude.{◌≡◌, true, false, [], ◌∷◌, ◌++◌, codes, ◌<◌, ◌^◌};
ghost use Rattle.ace_codes.specs.declared.state.LineState.TheVariants.{I, UC, UD, SC, SD};
ghost use Rattle.ace_event.specs.declared.event.Channel.TheVariants.{Read, Write};
ghost use Rattle.ace_event.specs.declared.event.Outcome.TheVariants.{Skip};
ghost use Rattle.ace_event.specs.declared.event.Event.TheVariants.{Ar, R, Rk, Aw, W, B, Wk, Ac, Cr, Cd, G, M, S, L, D, Op, Mem};
ghost use Rattle.ace_event.specs.Range.{IsWord, IsLine, FitsFields};
ghost use Rattle.ace_event.specs.Text.{event_text, header_text};

use crate::{Event, Line};

/// A line of each record, and the headers: in version 1, and then in version 2.
#[tactic(auto, unfolding(crate::specs::Text::hex_text))]
pub fn worked_lines()
    ensures header { header_text (record { version = 1; ports = 3; ace = 5 }) ≡ codes "ACE 1"
        ++ 10 ∷ codes "PORTS ALA" ++ 10 ∷ [] }
    ensures ar { event_text 1 (Ar 10 5 0x123cdef 7 2 1 true) ≡ codes "AR a 5 0123cdef 7 2 1 1" }
    ensures r { event_text 1 (R 1 2 12 false 0x123456789abcdef0011223344556677)
        ≡ codes "R 1 2 c 0 0123456789abcdef0011223344556677" }
    ensures rk { event_text 1 (Rk 3 UC) ≡ codes "RK 3 UC" }
    ensures aw { event_text 1 (Aw 15 14 0xfffffffe 5 1 0) ≡ codes "AW f e fffffffe 5 1 0" }
    ensures w { event_text 1 (W 4 0xf00d true 15)
        ≡ codes "W 4 f00d 1 0000000000000000000000000000000f" }
    ensures b { event_text 1 (B 1 2 3) ≡ codes "B 1 2 3" }
    ensures wk { event_text 1 (Wk 5 SC) ≡ codes "WK 5 SC" }
    ensures ac { event_text 1 (Ac 4 0x89abcdef 14) ≡ codes "AC 4 89abcdef e" }
    ensures cr { event_text 1 (Cr 6 9 SD) ≡ codes "CR 6 09 SD" }
    ensures cd { event_text 1 (Cd 7 false 0) ≡ codes "CD 7 0 00000000000000000000000000000000" }
    ensures g { event_text 1 (G 9 Write 8) ≡ codes "G 9 W 8" }
    ensures m { event_text 1 (M 1 Read 2 (record { words = 1 ∷ 2 ∷ 3 ∷ 4 ∷ [] })) ≡ codes "M 1 R 2 00000000000000000000000000000001000000000000000000000000000000020000000000000000000000000000000300000000000000000000000000000004" }
    ensures s { event_text 1 (S 2 64 I) ≡ codes "S 2 00000040 I" }
    ensures l { event_text 1 (L 3 128 2 true 255)
        ≡ codes "L 3 00000080 2 1 000000000000000000000000000000ff" }
    ensures d { event_text 1 (D 1 192 0x8000000000000001 false (record { words = 16 ∷ 0 ∷ 0 ∷ 1 ∷ [] })) ≡ codes "D 1 000000c0 8000000000000001 0 00000000000000000000000000000010000000000000000000000000000000000000000000000000000000000000000000000000000000000000000000000001" }
    ensures op { event_text 1 (Op 2 0x1f Skip) ≡ codes "OP 2 001f skip" }
    ensures dirty { event_text 1 (Rk 0 UD) ≡ codes "RK 0 UD" }
    ensures second_header { header_text (record { version = 2; ports = 3; ace = 5 }) ≡ codes "ACE 2"
        ++ 10 ∷ codes "PORTS ALA" ++ 10 ∷ [] }
    ensures second_ar { event_text 2 (Ar 0x1a 5 0x123cdef 7 2 1 true)
        ≡ codes "AR 1a 5 0123cdef 7 2 1 1" }
    ensures second_r { event_text 2 (R 1 2 12 false 15)
        ≡ codes "R 01 2 c 0 0000000000000000000000000000000f" }
    ensures second_rk { event_text 2 (Rk 31 UC) ≡ codes "RK 1f UC" }
    ensures second_aw { event_text 2 (Aw 15 14 0xfffffffe 5 1 0) ≡ codes "AW 0f e fffffffe 5 1 0" }
    ensures second_w { event_text 2 (W 16 0xf00d true 15)
        ≡ codes "W 10 f00d 1 0000000000000000000000000000000f" }
    ensures second_b { event_text 2 (B 255 2 3) ≡ codes "B ff 2 3" }
    ensures second_wk { event_text 2 (Wk 5 SC) ≡ codes "WK 05 SC" }
    ensures second_ac { event_text 2 (Ac 20 0x89abcdef 14) ≡ codes "AC 14 89abcdef e" }
    ensures second_cr { event_text 2 (Cr 6 9 SD) ≡ codes "CR 06 09 SD" }
    ensures second_cd { event_text 2 (Cd 17 false 0)
        ≡ codes "CD 11 0 00000000000000000000000000000000" }
    ensures second_g { event_text 2 (G 9 Write 8) ≡ codes "G 09 W 8" }
    ensures second_m { event_text 2 (M 30 Read 2 (record { words = 1 ∷ 2 ∷ 3 ∷ 4 ∷ [] })) ≡ codes "M 1e R 2 00000000000000000000000000000001000000000000000000000000000000020000000000000000000000000000000300000000000000000000000000000004" }
    ensures second_s { event_text 2 (S 2 64 I) ≡ codes "S 02 00000040 I" }
    ensures second_l { event_text 2 (L 19 128 2 true 255)
        ≡ codes "L 13 00000080 2 1 000000000000000000000000000000ff" }
    ensures second_d { event_text 2 (D 1 192 0x8000000000000001 false (record { words = 16 ∷ 0 ∷ 0 ∷ 1 ∷ [] })) ≡ codes "D 01 000000c0 8000000000000001 0 00000000000000000000000000000010000000000000000000000000000000000000000000000000000000000000000000000000000000000000000000000001" }
    ensures second_op { event_text 2 (Op 21 0x1f Skip) ≡ codes "OP 15 001f skip" }
    ensures mem { event_text 2 (Mem 0x40 (record { words = 0 ∷ 1 ∷ 0 ∷ 0xf ∷ [] })) ≡ codes "MEM 00000040 0000000000000000000000000000000000000000000000000000000000000001000000000000000000000000000000000000000000000000000000000000000f" }
{}

fn word_fits(word: u128)
    ensures { IsWord word }
{}

fn strobe_fits(strobe: u16)
    ensures { strobe < 2 ^ 16 }
{}

fn line_fits(line: Line)
    ensures { IsLine line }
{
    let [first, second, third, fourth] = line.words;
    word_fits(first);
    word_fits(second);
    word_fits(third);
    word_fits(fourth)
}

fn line_strobe_fits(strobe: u64)
    ensures { strobe < 2 ^ 64 }
{}

/// The types of the fields give the widths of words and strobes, and lines of four words.
pub fn every_event_fits(event: Event)
    ensures { FitsFields event }
{
    match event {
        Event::R { word, .. } | Event::Cd { word, .. } | Event::L { word, .. } => word_fits(word),
        Event::W { strb, word, .. } => {
            strobe_fits(strb);
            word_fits(word)
        }
        Event::M { line, .. } | Event::Mem { line, .. } => line_fits(line),
        Event::D { strobe, line, .. } => {
            line_strobe_fits(strobe);
            line_fits(line)
        }
        _ => {}
    }
}
