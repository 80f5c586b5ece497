//! Laws of the definitions. These functions do no work: what they promise is the law.

ghost use Rattle.std.specs.Prelude.{◌≡◌, ◌↔◌, List, reverse, None, Some};
ghost use Rattle.std.specs.List.{AllByRecursion};
ghost use Rattle.ace_event.specs.Range.{FitsFields};
ghost use Rattle.ace_event.specs.declared.event.Event.{Event};
ghost use Rattle.ace_event.specs.declared.header.Header.{Header};
ghost use Rattle.ace_model.specs.declared.breaks.Break.{Break};
ghost use Rattle.ace_model.specs.Trace.{Trace};
ghost use Rattle.ace_model.specs.Accepted.{Rule, AreInOrder, rules, IsAcceptedBy, IsAccepted, FirstBreakBy, first_break_by};
ghost use Rattle.ace_model.specs.Accepted.{least_broken, least_of};
ghost use Rattle.ace_model.specs.Shares.{lesser, port_rules, line_rules, system_rules};
ghost use Rattle.ace_model.specs.Unique.{Unique, OneDirty};
ghost use Rattle.ace_model.specs.Coherent.{Coherent};
ghost use Rattle.ace_model.specs.ExclusiveHolds.{ExclusiveHolds};
ghost use Rattle.ace_model.specs.BarrierHolds.{BarrierHolds};
ghost use Rattle.ace_model.specs.DvmHolds.{DvmHolds};
ghost use Rattle.ace_model.specs.Kept.{KeepsHolders};

/// By rules in order, the break that `first_break_by` computes is the first break of the events. By
/// any rules, where it computes none, the trace is accepted.
pub fn first_break_is_exact()
    ensures some { (rs : List Rule) (h : Header) (events : List Event) (b : Break) → AreInOrder rs
        → (first_break_by rs h events ≡ Some b) ↔ FirstBreakBy rs h events b.index b.rule }
    ensures none { (rs : List Rule) (h : Header) (events : List Event)
        → (first_break_by rs h events ≡ None) ↔ IsAcceptedBy rs h (reverse events) }
{}

/// The rules are in order.
pub fn rules_are_in_order()
    ensures { AreInOrder rules }
{}

/// The three shares are all rules: the least rule that an event breaks is the least over the
/// shares.
pub fn shares_are_all_rules()
    ensures { (h : Header) (past : Trace) (e : Event) → least_broken h past e
        ≡ lesser (least_of port_rules h past e) (lesser (least_of line_rules h past e)
        (least_of system_rules h past e)) }
{}

/// An accepted trace is coherent: at every point a unique line has one holder, a line has at most
/// one dirty holder, and data newer than memory are with that holder or in flight; and all reads
/// follow one order of the line's stores. The definitions know no widths of numbers, so this is
/// said of events whose words and lines fit their fields, as those of a program do.
pub fn accepted_trace_is_coherent()
    ensures { (h : Header) (past : Trace) → IsAccepted h past → AllByRecursion FitsFields past
        → Coherent h past }
{}

/// In every accepted trace, whatever its numbers, a unique line has one holder, and a dirty line
/// one owner: at every point, where a port holds a line in UC or UD, every other port's state of it
/// is I, and at most one port holds a line in UD or SD.
pub fn accepted_line_has_one_holder()
    ensures unique { (h : Header) (past : Trace) → IsAccepted h past → Unique h past }
    ensures one_dirty { (h : Header) (past : Trace) → IsAccepted h past → OneDirty h past }
{}

/// In every accepted trace an exclusive store is exclusive: between it and the last exclusive load
/// of its port before it no other port stores to the line.
pub fn exclusive_store_is_exclusive()
    ensures { (h : Header) (past : Trace) → IsAccepted h past → ExclusiveHolds past }
{}

/// A barrier orders, in every accepted trace: what comes after a barrier pair of a port is granted
/// only once the earlier line transactions of the port have their order points, and for a
/// synchronisation barrier are complete.
pub fn barriers_order()
    ensures { (h : Header) (past : Trace) → IsAccepted h past → BarrierHolds past }
{}

/// In every accepted trace a Sync waits for all: where its port is told that it is complete, every
/// other ACE port has answered it and every part of the messages that its port sent before it, and
/// has issued a DVM Complete after its answer to the Sync.
pub fn a_sync_waits_for_all()
    ensures { (h : Header) (past : Trace) → IsAccepted h past → DvmHolds h past }
{}

/// In every accepted trace, at every point, the ports that are kept for a line contain each port
/// that holds it: no holder is forgotten, so who isn't kept need not be snooped.
pub fn kept_ports_hold_all()
    ensures { (h : Header) (past : Trace) → IsAccepted h past → KeepsHolders h past }
{}
