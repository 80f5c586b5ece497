//! Facts about the definitions, as contracts of functions that do nothing.

ghost use Rattle.std.specs.Prelude.{◌≡◌, ◌≢◌, ◌≤◌, ◌<◌, ◌⊎◌, ◌*◌, ◌^◌, ℕ, List, [], ◌∷◌, ◌++◌, codes, Ok, Err};
ghost use Rattle.ace_codes.specs.declared.kind.ArKind.TheVariants as read;
ghost use Rattle.ace_event.specs.declared.header.Header.{Header};
ghost use Rattle.ace_event.specs.Range.{IsAddress, IsWord, IsLine};
ghost use Rattle.ace_model.specs.declared.plans.PlanOp.{PlanOp};
ghost use Rattle.ace_model.specs.Plans.{Plan, IsRightAfter};
ghost use Rattle.ace_model.specs.declared.plans.Op.TheVariants.{Ld, Ldx, St, Stx, Fill, Pf, Wb, Wc, Ev, We, Ro, Cs, Ci, Mi, Rn, Wu, Wlu, Wn, Mb, Sb, Dvm, Sync, Dvm2};
ghost use Rattle.ace_model.specs.declared.plans.PolicyWord.TheVariants.{Keep, Eager, Mixed};
ghost use Rattle.ace_script.specs.declared.reason.Reason.{Reason};
ghost use Rattle.ace_script.specs.declared.reason.Reason.TheVariants.{P2, P3, P4, P5, P6, P8};
ghost use Rattle.ace_script.specs.Text.{operation_text, plan_text};
ghost use Rattle.ace_script.specs.Operations.{operation_of};
ghost use Rattle.ace_script.specs.Grammar.{OpFits, OperationFits, PolicyFits, IsScript};
ghost use Rattle.ace_script.specs.Reading.{Ending, Whole, Reads, HasBadHeader, HasReason};

use ace_event::Line;
use ace_model::{Op, PolicyWord};

/// The texts of a plan's header, and of a line of each operation.
#[tactic(auto, unfolding(ace_event::specs::Text::hex_text))]
pub fn worked_texts()
    ensures header { plan_text (record {
      header = record { version = 1; ports = 4; ace = 7 };
      ways = 12;
      policy = Mixed 42;
      operations = [];
    })
        ≡ codes "ACE SCRIPT 1" ++ 10 ∷ codes "PORTS AAAL" ++ 10 ∷ codes "CACHE 12" ++ 10 ∷ codes "POLICY mixed 000000000000002a" ++ 10 ∷ [] }
    ensures plan { plan_text (record {
      header = record { version = 1; ports = 1; ace = 1 };
      ways = 1;
      policy = Keep;
      operations = record { port = 0; op = Mb } ∷ [];
    })
        ≡ codes "ACE SCRIPT 1" ++ 10 ∷ codes "PORTS A" ++ 10 ∷ codes "CACHE 1" ++ 10 ∷ codes "POLICY keep" ++ 10 ∷ codes "0 mb" ++ 10 ∷ [] }
    ensures eager { plan_text (record {
      header = record { version = 1; ports = 1; ace = 0 };
      ways = 32;
      policy = Eager;
      operations = [];
    })
        ≡ codes "ACE SCRIPT 1" ++ 10 ∷ codes "PORTS L" ++ 10 ∷ codes "CACHE 32" ++ 10 ∷ codes "POLICY eager" ++ 10 ∷ [] }
    ensures ld { operation_text (record { port = 0; op = Ld 0x40 3 }) ≡ codes "0 ld 00000040 3" }
    ensures ldx { operation_text (record { port = 15; op = Ldx 0xffffffc0 0 })
        ≡ codes "f ldx ffffffc0 0" }
    ensures st { operation_text (record { port = 1; op = St 0x1000 2 0x17 })
        ≡ codes "1 st 00001000 2 00000000000000000000000000000017" }
    ensures stx { operation_text (record { port = 2; op = Stx 0x1040 1 (0x17 * 2 ^ 120) })
        ≡ codes "2 stx 00001040 1 17000000000000000000000000000000" }
    ensures fill { operation_text (record { port = 3; op = Fill 0x80 (record { words = 1 ∷ 2 ∷ 3 ∷ 4 ∷ [] }) }) ≡ codes "3 fill 00000080 00000000000000000000000000000001000000000000000000000000000000020000000000000000000000000000000300000000000000000000000000000004" }
    ensures shared { operation_text (record { port = 0; op = Pf 0x40 read.ReadShared })
        ≡ codes "0 pf 00000040 s" }
    ensures clean { operation_text (record { port = 0; op = Pf 0x40 read.ReadClean })
        ≡ codes "0 pf 00000040 c" }
    ensures not_dirty { operation_text (record { port = 0; op = Pf 0x40 read.ReadNotSharedDirty })
        ≡ codes "0 pf 00000040 n" }
    ensures unique { operation_text (record { port = 0; op = Pf 0x40 read.ReadUnique })
        ≡ codes "0 pf 00000040 u" }
    ensures wb { operation_text (record { port = 4; op = Wb 0x40 }) ≡ codes "4 wb 00000040" }
    ensures wc { operation_text (record { port = 5; op = Wc 0x40 }) ≡ codes "5 wc 00000040" }
    ensures ev { operation_text (record { port = 6; op = Ev 0x40 }) ≡ codes "6 ev 00000040" }
    ensures we { operation_text (record { port = 7; op = We 0x40 }) ≡ codes "7 we 00000040" }
    ensures ro { operation_text (record { port = 8; op = Ro 0x40 }) ≡ codes "8 ro 00000040" }
    ensures cs { operation_text (record { port = 9; op = Cs 0x40 }) ≡ codes "9 cs 00000040" }
    ensures ci { operation_text (record { port = 10; op = Ci 0x40 }) ≡ codes "a ci 00000040" }
    ensures mi { operation_text (record { port = 11; op = Mi 0x40 }) ≡ codes "b mi 00000040" }
    ensures rn { operation_text (record { port = 12; op = Rn 0x40 }) ≡ codes "c rn 00000040" }
    ensures wu { operation_text (record { port = 13; op = Wu 0x40 0xf0 (record { words = 0 ∷ 0 ∷ 0 ∷ 0xa ∷ [] }) }) ≡ codes "d wu 00000040 00000000000000f0 0000000000000000000000000000000000000000000000000000000000000000000000000000000000000000000000000000000000000000000000000000000a" }
    ensures wlu { operation_text (record { port = 14; op = Wlu 0x40 (record { words = 0 ∷ 0 ∷ 0 ∷ 0xa ∷ [] }) }) ≡ codes "e wlu 00000040 0000000000000000000000000000000000000000000000000000000000000000000000000000000000000000000000000000000000000000000000000000000a" }
    ensures wn { operation_text (record { port = 0; op = Wn 0x40 0x8000000000000001 (record { words = 0 ∷ 0 ∷ 0 ∷ 0xb ∷ [] }) }) ≡ codes "0 wn 00000040 8000000000000001 0000000000000000000000000000000000000000000000000000000000000000000000000000000000000000000000000000000000000000000000000000000b" }
    ensures mb { operation_text (record { port = 0; op = Mb }) ≡ codes "0 mb" }
    ensures sb { operation_text (record { port = 0; op = Sb }) ≡ codes "0 sb" }
    ensures dvm { operation_text (record { port = 0; op = Dvm 0x1000 }) ≡ codes "0 dvm 00001000" }
    ensures sync { operation_text (record { port = 0; op = Sync 0xc000 })
        ≡ codes "0 sync 0000c000" }
    ensures dvm2 { operation_text (record { port = 0; op = Dvm2 0x1001 0x12345678 })
        ≡ codes "0 dvm2 00001001 12345678" }
{}

/// Lines, given by their fields, behind no operation or behind one, of a script whose ports are one
/// ACE port and one ACE-Lite port: an operation, or the least reason that applies.
#[tactic(auto, unfolding(crate::specs::Operations::op_of, crate::specs::Fields::number_of, crate::specs::Fields::fetch_of, crate::specs::Fields::line_of, ace_grammar::specs::Fields::digits_onto))]
pub fn worked_reasons()
    ensures read { operation_of (record { version = 1; ports = 2; ace = 1 }) []
        (codes "0" ∷ codes "ld" ∷ codes "00000040" ∷ codes "3" ∷ [])
        ≡ Ok (record { port = 0; op = Ld 0x40 3 }) }
    ensures no_word { operation_of (record { version = 1; ports = 2; ace = 1 }) [] (codes "0" ∷ [])
        ≡ Err P2 }
    ensures another_word { operation_of (record { version = 1; ports = 2; ace = 1 }) []
        (codes "0" ∷ codes "xx" ∷ []) ≡ Err P2 }
    ensures too_few { operation_of (record { version = 1; ports = 2; ace = 1 }) []
        (codes "0" ∷ codes "ld" ∷ codes "00000040" ∷ []) ≡ Err P3 }
    ensures empty_field { operation_of (record { version = 1; ports = 2; ace = 1 }) []
        (codes "0" ∷ codes "mb" ∷ [] ∷ []) ≡ Err P3 }
    ensures short { operation_of (record { version = 1; ports = 2; ace = 1 }) []
        (codes "0" ∷ codes "ld" ∷ codes "0000040" ∷ codes "x" ∷ []) ≡ Err P4 }
    ensures long_port { operation_of (record { version = 1; ports = 2; ace = 1 }) []
        (codes "00" ∷ codes "ld" ∷ codes "00000040" ∷ codes "x" ∷ []) ≡ Err P4 }
    ensures upper_case { operation_of (record { version = 1; ports = 2; ace = 1 }) []
        (codes "0" ∷ codes "ld" ∷ codes "0000004A" ∷ codes "4" ∷ []) ≡ Err P5 }
    ensures another_letter { operation_of (record { version = 1; ports = 2; ace = 1 }) []
        (codes "2" ∷ codes "pf" ∷ codes "00000040" ∷ codes "uu" ∷ []) ≡ Err P5 }
    ensures no_such_port { operation_of (record { version = 1; ports = 2; ace = 1 }) []
        (codes "2" ∷ codes "ld" ∷ codes "00000040" ∷ codes "0" ∷ []) ≡ Err P6 }
    ensures unaligned { operation_of (record { version = 1; ports = 2; ace = 1 }) []
        (codes "0" ∷ codes "ld" ∷ codes "00000041" ∷ codes "0" ∷ []) ≡ Err P6 }
    ensures fifth_word { operation_of (record { version = 1; ports = 2; ace = 1 }) []
        (codes "0" ∷ codes "ld" ∷ codes "00000040" ∷ codes "4" ∷ []) ≡ Err P6 }
    ensures sync_as_message { operation_of (record { version = 1; ports = 2; ace = 1 }) []
        (codes "0" ∷ codes "dvm" ∷ codes "0000c000" ∷ []) ≡ Err P6 }
    ensures message_as_sync { operation_of (record { version = 1; ports = 2; ace = 1 }) []
        (codes "0" ∷ codes "sync" ∷ codes "00001000" ∷ []) ≡ Err P6 }
    ensures second_missing { operation_of (record { version = 1; ports = 2; ace = 1 }) []
        (codes "0" ∷ codes "dvm" ∷ codes "00001001" ∷ []) ≡ Err P6 }
    ensures no_second { operation_of (record { version = 1; ports = 2; ace = 1 }) []
        (codes "0" ∷ codes "dvm2" ∷ codes "00001000" ∷ codes "00000000" ∷ []) ≡ Err P6 }
    ensures no_message { operation_of (record { version = 1; ports = 2; ace = 1 }) []
        (codes "0" ∷ codes "dvm" ∷ codes "00005000" ∷ []) ≡ Err P6 }
    ensures lite_port { operation_of (record { version = 1; ports = 2; ace = 1 }) []
        (codes "1" ∷ codes "ld" ∷ codes "00000040" ∷ codes "0" ∷ []) ≡ Err P8 }
    ensures lite_read { operation_of (record { version = 1; ports = 2; ace = 1 }) []
        (codes "1" ∷ codes "ro" ∷ codes "00000040" ∷ []) ≡ Ok (record { port = 1; op = Ro 0x40 }) }
    ensures other_class { operation_of (record { version = 1; ports = 2; ace = 1 })
        (record { port = 0; op = Ld 0x40 0 } ∷ []) (codes "0" ∷ codes "rn" ∷ codes "00000040" ∷ [])
        ≡ Err P8 }
    ensures other_line { operation_of (record { version = 1; ports = 2; ace = 1 })
        (record { port = 0; op = Ld 0x40 0 } ∷ []) (codes "0" ∷ codes "rn" ∷ codes "00000080" ∷ [])
        ≡ Ok (record { port = 0; op = Rn 0x80 }) }
    ensures same_class { operation_of (record { version = 1; ports = 2; ace = 1 })
        (record { port = 0; op = Rn 0x40 } ∷ []) (codes "1" ∷ codes "rn" ∷ codes "00000040" ∷ [])
        ≡ Ok (record { port = 1; op = Rn 0x40 }) }
{}

/// The same bytes read in one way: they have one plan and one ending, or a bad header with one line
/// and one reason.
pub fn one_reading()
    ensures one { (bytes : List ℕ) (plan other : Plan) (end last : Ending)
        → Reads bytes plan end → Reads bytes other last
        → (plan ≡ other) × (end ≡ last) }
    ensures apart { (bytes : List ℕ) (plan : Plan) (end : Ending) (number : ℕ) (reason : Reason)
        → Reads bytes plan end → ¬ HasBadHeader bytes number reason }
    ensures one_bad { (bytes : List ℕ) (number line : ℕ) (reason other : Reason)
        → HasBadHeader bytes number reason → HasBadHeader bytes line other
        → (number ≡ line) × (reason ≡ other) }
{}

/// Behind some operations of a script a line, without its line feed, is that of an operation that
/// can stand there, or it has one reason. Of at most sixteen ports a line can name each.
pub fn one_reason()
    ensures some { (h : Header) (before : List PlanOp) (line : List ℕ)
        → ((o : PlanOp) × IsRightAfter h before o × OperationFits o × (operation_text o ≡ line))
        ⊎ ((reason : Reason) × HasReason h before line reason) }
    ensures one { (h : Header) (before : List PlanOp) (line : List ℕ) (reason other : Reason)
        → HasReason h before line reason → HasReason h before line other → reason ≡ other }
    ensures apart { (h : Header) (before : List PlanOp) (line : List ℕ)
        (reason : Reason) (o : PlanOp)
        → h.ports ≤ 16 → HasReason h before line reason → IsRightAfter h before o × OperationFits o
        → operation_text o ≢ line }
{}

/// Every list of bytes has a reading: a bad header, or a plan and an ending.
pub fn some_reading()
    ensures { (bytes : List ℕ) → ((number : ℕ) × (reason : Reason)
        × HasBadHeader bytes number reason)
        ⊎ ((plan : Plan) × (end : Ending) × Reads bytes plan end) }
{}

/// The text of a plan reads as that plan.
pub fn text_reads_back()
    ensures { (plan : Plan) → IsScript plan → Reads (plan_text plan) plan Whole }
{}

fn address_fits(addr: u32)
    ensures { IsAddress addr }
{}

fn word_fits(word: u128)
    ensures { IsWord word }
{}

fn strobe_fits(strobe: u64)
    ensures { strobe < 2 ^ 64 }
{}

fn line_fits(line: Line)
    ensures { IsLine line }
{
    let [first, second, third, fourth] = line.words;
    word_fits(first);
    word_fits(second);
    word_fits(third);
    word_fits(fourth)
}

/// The types of the fields give the widths of addresses, words and strobes, and lines of four
/// words.
pub fn every_operation_fits(op: Op)
    ensures { OpFits op }
{
    match op {
        Op::Ld { addr, .. } | Op::Ldx { addr, .. } | Op::Pf { addr, .. } => address_fits(addr),
        Op::Wb { addr } | Op::Wc { addr } | Op::Ev { addr } | Op::We { addr } => address_fits(addr),
        Op::Ro { addr } | Op::Cs { addr } | Op::Ci { addr } => address_fits(addr),
        Op::Mi { addr } | Op::Rn { addr } => address_fits(addr),
        Op::St { addr, word, .. } | Op::Stx { addr, word, .. } => {
            address_fits(addr);
            word_fits(word)
        }
        Op::Fill { addr, line } | Op::Wlu { addr, line } => {
            address_fits(addr);
            line_fits(line)
        }
        Op::Wu { addr, strobe, line } | Op::Wn { addr, strobe, line } => {
            address_fits(addr);
            strobe_fits(strobe);
            line_fits(line)
        }
        Op::Dvm { word } | Op::Sync { word } => address_fits(word),
        Op::Dvm2 { word, second } => {
            address_fits(word);
            address_fits(second)
        }
        Op::Mb | Op::Sb => {}
    }
}

/// The type of a policy's number gives its sixteen digits.
pub fn every_policy_fits(policy: PolicyWord)
    ensures { PolicyFits policy }
{
    match policy {
        PolicyWord::Mixed(n) => strobe_fits(n),
        _ => {}
    }
}
