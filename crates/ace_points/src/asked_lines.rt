// The rules that snoops, their answers and data, and loads ask in earnest.
ghost use Rattle.std.specs.Prelude.{◌≡◌, ℕ, Bool, is_some};
ghost use Rattle.ace_codes.specs.declared.state.LineState.{LineState as State};
ghost use Rattle.ace_codes.specs.Snoops.{ac_kind_of};
ghost use Rattle.ace_event.specs.declared.event.Event.TheVariants.{Cd, Cr, L};
ghost use Rattle.ace_lineck.specs.Stands.{Stands as LinesTell};
ghost use Rattle.ace_model.specs.Kinds.{is_complete_snoop, is_message_snoop};
ghost use Rattle.ace_model.specs.Trace.{is_some_and};
ghost use Rattle.ace_points.specs.Asked.{asked, asked_by_answer, asked_by_snoop, forwards_two};
ghost use Rattle.ace_portck.specs.Stands.{Stands as PortsTell};
ghost use Rattle.ace_portck.specs.Targets.{Recording};
ghost use Rattle.ace_sysck.specs.Stands.{Stands as SystemTells};

use crate::asks::{asks, of_three};
use crate::line_words::has_word;
use crate::point::Point;
use crate::states::holds;
use ace_codes::{SnoopKind, read_ac};
use ace_lineck::LineCheck;
use ace_model::Snoop;
use ace_model::kinds::{is_ace, snoops_a_line};
use ace_portck::PortCheck;
use ace_sysck::{Message, SysCheck};

/// An AC DVM Message.
fn is_message_snoop(snoop: u8) -> bool
    ensures { result ≡ is_some_and (ac_kind_of snoop) is_message_snoop }
{
    matches!(read_ac(snoop), Some(SnoopKind::DvmMessage))
}

/// An AC DVM Complete.
pub(crate) fn is_complete_snoop(snoop: u8) -> bool
    ensures { result ≡ is_some_and (ac_kind_of snoop) is_complete_snoop }
{
    matches!(read_ac(snoop), Some(SnoopKind::DvmComplete))
}

/// There is a message, and it has one more part.
fn has_second(message: &Option<Message>) -> bool
    ensures { result ≡ is_some_and message.now (λ m. is_some m.second) }
{
    match message {
        Some(message) => message.second.is_some(),
        None => false,
    }
}

/// An AC DVM Message of a message that has one more part.
fn forwards_two(ports: &PortCheck, system: &SysCheck, port: u8, snoop: u8) -> bool
    ensures { (r : Recording) → PortsTell ports.now r → SystemTells system.now r
        → result ≡ forwards_two r.header r.past port snoop }
{
    is_ace(ports.header(), port)
        && is_message_snoop(snoop)
        && has_second(&system.next_message(port))
}

/// An AC.
pub(crate) fn asked_by_snoop(
    ports: &PortCheck,
    system: &SysCheck,
    port: u8,
    snoop: u8,
) -> [Option<Point>; 8]
    ensures { (r : Recording) → PortsTell ports.now r → SystemTells system.now r
        → result ≡ asked_by_snoop r.header r.past port snoop }
{
    of_three(
        asks(13, snoops_a_line(snoop)),
        asks(36, forwards_two(ports, system, port, snoop)),
        asks(39, is_complete_snoop(snoop)),
    )
}

/// The answer to the snoop.
fn asked_by_answer(
    ports: &PortCheck,
    lines: &LineCheck,
    port: u8,
    snoop: &Snoop,
) -> [Option<Point>; 8]
    ensures { (r : Recording) → PortsTell ports.now r → LinesTell lines.now r
        → result ≡ asked_by_answer r.header r.past port snoop.now }
{
    let is_held = snoops_a_line(snoop.snoop) && holds(lines, port, snoop.addr);
    of_three(
        asks(14, true),
        asks(15, is_held),
        asks(16, is_held && ports.has_update(port, snoop.addr)),
    )
}

/// A CR.
pub(crate) fn asked_at_answer(ports: &PortCheck, lines: &LineCheck, port: u8) -> [Option<Point>; 8]
    ensures { (r : Recording) (resp : ℕ) (st : State) → PortsTell ports.now r
        → LinesTell lines.now r → result ≡ asked r.header r.past (Cr port resp st) }
{
    match ports.answered(port) {
        Some(snoop) => asked_by_answer(ports, lines, port, snoop),
        None => of_three(None, None, None),
    }
}

/// A CD.
pub(crate) fn asked_at_data(ports: &PortCheck, port: u8) -> [Option<Point>; 8]
    ensures { (r : Recording) (last : Bool) (word : ℕ) → PortsTell ports.now r
        → result ≡ asked r.header r.past (Cd port last word) }
{
    of_three(asks(17, ports.sending(port).is_some()), None, None)
}

/// An L.
pub(crate) fn asked_at_load(lines: &LineCheck, port: u8, addr: u32, w: u8) -> [Option<Point>; 8]
    ensures { (r : Recording) (x : Bool) (word : ℕ) → LinesTell lines.now r
        → result ≡ asked r.header r.past (L port addr w x word) }
{
    let copy = lines.copy(lines.place(Some(addr)), port);
    of_three(asks(30, true), asks(31, has_word(&copy, w)), None)
}
