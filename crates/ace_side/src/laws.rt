//! Facts about the definitions, as contracts of functions that do nothing.

ghost use Rattle.std.specs.Prelude.{◌≡◌, ℕ, List, [], ◌∷◌, ◌++◌, codes, Some, None};
ghost use Rattle.ace_side.specs.declared.line.SideEnd.TheVariants as ends;
ghost use Rattle.ace_side.specs.declared.line.SideLine.{SideLine};
ghost use Rattle.ace_side.specs.declared.line.SideLine.TheVariants.{TimeUnit, Port, Addr, Time, Id, Note, Word, End, Broken, Cut};
ghost use Rattle.ace_side.specs.declared.reason.Reason.{Reason};
ghost use Rattle.ace_side.specs.declared.reason.Reason.TheVariants.{S5, S6};
ghost use Rattle.ace_side.specs.Text.{side_text, side_file};
ghost use Rattle.ace_side.specs.Order.{ending, order_reason};
ghost use Rattle.ace_side.specs.Reasons.{IsTextOf};
ghost use Rattle.ace_side.specs.Reading.{AreLines, Ending, HasBadStart, HasReason, Reads, Whole};

/// The texts of lines, and of a file.
#[tactic(auto, unfolding(ace_event::specs::Text::hex_text))]
pub fn worked_texts()
    ensures unit { side_text (TimeUnit (codes "ns")) ≡ codes "UNIT ns" }
    ensures port { side_text (Port 31 (codes "cpu0.l2")) ≡ codes "PORT 1f cpu0.l2" }
    ensures addr { side_text (Addr 0x40 (record { count = 10; value = 0x8001234040 }))
        ≡ codes "ADDR 00000040 8001234040" }
    ensures time { side_text (Time 9 1312) ≡ codes "T 9 1312" }
    ensures id { side_text (Id 9 (record { count = 4; value = 0x1a3 })) ≡ codes "ID 9 01a3" }
    ensures note { side_text (Note 21 (codes "core 0 takes an interrupt"))
        ≡ codes "NOTE 21 core 0 takes an interrupt" }
    ensures word { side_text (Word 0x10000 (record { count = 6; value = 0x8000 }))
        ≡ codes "WORD 00010000 008000" }
    ensures end { side_text (End 21) ≡ codes "END 21" }
    ensures broken { side_text (Broken 0) ≡ codes "BROKEN 0" }
    ensures cut { side_text (Cut 100) ≡ codes "CUT 100" }
    ensures file { side_file (End 1 ∷ Time 1 7 ∷ [])
        ≡ codes "ACE SIDE 1" ++ 10 ∷ codes "T 1 7" ++ 10 ∷ codes "END 1" ++ 10 ∷ [] }
{}

/// Lines that stand behind others, or can't: those before are given with the newest first.
pub fn worked_orders()
    ensures first { order_reason [] (Note 0 []) ≡ None }
    ensures same_event { order_reason (Id 3
        (record { count = 1; value = 0 }) ∷ Time 3 5 ∷ Note 3 [] ∷ []) (Note 3 []) ≡ None }
    ensures two_times { order_reason (Time 3 5 ∷ []) (Time 3 6) ≡ Some S5 }
    ensures earlier_event { order_reason (Note 3 [] ∷ []) (Time 2 5) ≡ Some S5 }
    ensures earlier_time { order_reason (Note 4 [] ∷ Time 3 5 ∷ []) (Time 4 4) ≡ Some S5 }
    ensures same_time { order_reason (Note 4 [] ∷ Time 3 5 ∷ []) (Time 4 5) ≡ None }
    ensures late_unit { order_reason (Time 3 5 ∷ []) (TimeUnit (codes "ns")) ≡ Some S5 }
    ensures two_names { order_reason (Port 1 (codes "a") ∷ []) (Port 1 (codes "b")) ≡ Some S5 }
    ensures behind_the_end { order_reason (End 4 ∷ []) (Port 1 (codes "b")) ≡ Some S6 }
    ensures both { order_reason (End 4 ∷ Time 3 5 ∷ []) (Time 3 5) ≡ Some S5 }
    ensures ends { ending (End 4 ∷ Time 3 5 ∷ []) ≡ Some (ends.End 4) }
    ensures goes_on { ending (Time 3 5 ∷ []) ≡ None }
{}

/// Behind some lines a line of bytes, without its line feed, is the text of one line at most, or
/// it has one reason.
pub fn one_reason()
    ensures line { (bytes : List ℕ) (line other : SideLine) → IsTextOf line bytes
        → IsTextOf other bytes → line ≡ other }
    ensures one { (past : List SideLine) (bytes : List ℕ) (reason other : Reason)
        → HasReason past bytes reason → HasReason past bytes other → reason ≡ other }
    ensures apart { (past : List SideLine) (bytes : List ℕ) (reason : Reason) (line : SideLine)
        → HasReason past bytes reason → order_reason past line ≡ None → ¬ IsTextOf line bytes }
{}

/// The same bytes read in one way: they have one list of lines and one ending, or a bad first line.
pub fn one_reading()
    ensures one { (bytes : List ℕ) (past other : List SideLine) (end last : Ending)
        → Reads bytes past end → Reads bytes other last → (past ≡ other) × (end ≡ last) }
    ensures apart { (bytes : List ℕ) (past : List SideLine) (end : Ending) → Reads bytes past end
        → ¬ HasBadStart bytes }
{}

/// The text of lines reads as those lines.
pub fn text_reads_back()
    ensures { (past : List SideLine) → AreLines past → Reads (side_file past) past Whole }
{}
