//! The place of each load among the stores of its line.

ghost use Rattle.std.specs.Prelude.{◌≡◌, ◌<◌, ◌-◌, ◌^◌, ◌++◌, ◌∷◌, [], length, option_map, unwrap_or, OnOk, OnErr};
ghost use Rattle.std.specs.Ordering.{nat_cmp};
ghost use Rattle.std.specs.BTreeMap.{get};
ghost use Rattle.ace_event.specs.declared.header.Header.{Header};
ghost use Rattle.ace_model.specs.Accepted.{IsAccepted};
ghost use Rattle.ace_model.specs.Trace.{Trace};
ghost use Rattle.ace_report.specs.declared.tally.LineTally.{LineTally};
ghost use Rattle.ace_report.specs.Heard.{LinesStand, loads_of};
ghost use Rattle.ace_report.specs.Next.{AddsEntry};

use crate::tally::{LineTally, Load};
use ace_event::Event;
use ace_io::NoMemory;
use std::collections::BTreeMap;

/// How many stores were made to the line.
fn stores_to(lines: &BTreeMap<u32, LineTally>, line: u32) -> u64
    ensures { result ≡ unwrap_or (option_map (λ (t : LineTally). t.stores)
        (get nat_cmp lines.now line)) 0 }
{
    match lines.get(&line) {
        Some(tally) => tally.stores,
        None => 0,
    }
}

/// Keeps a load with the stores to its line before it.
#[inline(never)]
fn keep_load(
    loads: &mut Vec<Load>,
    lines: &BTreeMap<u32, LineTally>,
    event: u64,
    port: u8,
    addr: u32,
) -> Result<(), NoMemory>
    ensures { OnOk result (loads.new.items ≡ loads.old.items ++ record {
      event = event;
      port = port;
      addr = addr;
      stores = unwrap_or (option_map (λ (t : LineTally). t.stores) (get nat_cmp lines.now addr)) 0;
    } ∷ []) }
{
    let load = Load {
        event,
        port,
        addr,
        stores: stores_to(lines, addr),
    };
    match loads.push(load) {
        Ok(()) => Ok(()),
        Err(_) => Err(NoMemory),
    }
}

/// Hears the next event of an accepted trace, with `place` events and the lines before it. There is
/// no memory for it only where it is a load.
#[inline(always)]
pub(crate) fn hear_load(
    loads: &mut Vec<Load>,
    lines: &BTreeMap<u32, LineTally>,
    place: usize,
    event: &Event,
) -> Result<(), NoMemory>
    ensures stands { (h : Header) (past : Trace) → LinesStand past lines.now
        → loads.old.items ≡ loads_of past → place ≡ length past
        → IsAccepted h (event.now ∷ past) → length past < 2 ^ 64 - 2
        → OnOk result (loads.new.items ≡ loads_of (event.now ∷ past)) }
    ensures cause { OnErr result ((h : Header) (past : Trace) → AddsEntry h past event.now) }
{
    match *event {
        Event::L { port, addr, .. } => {
            keep_load(loads, lines, (place as u64).saturating_add(1), port, addr)
        }
        _ => Ok(()),
    }
}
