//! The text of a certificate is put to a sink, in large pieces.

ghost use Rattle.std.specs.Prelude.{◌≡◌, ◌≤◌, ◌++◌, [], length, OnOk, OnErr};
ghost use Rattle.std.specs.Io.KnownBytes.{Appends};
ghost use Rattle.std.specs.List.{flat_map};
ghost use Rattle.ace_io.specs.Faults.{HasCause};
ghost use Rattle.ace_account.specs.Certificate.{cert_text, order_lines, place_line};
ghost use Rattle.ace_report.specs.Put.{AppendsPart, Puts, PutsPart};

use crate::text::{push_place, push_store};
use ace_cert::{Cert, LineList, LineOrder, PlaceList};
use ace_io::{Failed, Sink};
use ace_report::{give_over, make_room};
use ace_writer::TextBuf;

/// Puts a line for each store to a line of memory.
fn put_stores<K: Sink>(sink: &mut K, page: &mut TextBuf, order: &LineOrder) -> Result<(), Failed>
    ensures whole { OnOk result
        (Puts (K.held sink.old) page.old (order_lines order.now) (K.held sink.new) page.new []) }
    ensures part { OnErr result
        (PutsPart (K.held sink.old) page.old (order_lines order.now) (K.held sink.new)) }
    ensures cause { HasCause (K.faults sink.old) (K.faults sink.new) result }
{
    for i in 0..order.stores.len() {
        match make_room(sink, page) {
            Ok(()) => push_store(page, order.addr, *order.stores.get(i)),
            Err(failed) => return Err(failed),
        }
    }
    Ok(())
}

/// Puts a line for each store, line of memory by line of memory.
fn put_orders<K: Sink>(sink: &mut K, page: &mut TextBuf, lines: &LineList) -> Result<(), Failed>
    ensures whole { OnOk result
        (Puts (K.held sink.old) page.old (flat_map order_lines lines.now)
        (K.held sink.new) page.new []) }
    ensures part { OnErr result
        (PutsPart (K.held sink.old) page.old (flat_map order_lines lines.now) (K.held sink.new)) }
    ensures cause { HasCause (K.faults sink.old) (K.faults sink.new) result }
{
    for i in 0..lines.len() {
        match put_stores(sink, page, lines.get(i)) {
            Ok(()) => {}
            Err(failed) => return Err(failed),
        }
    }
    Ok(())
}

/// Puts a line for each read.
fn put_places<K: Sink>(sink: &mut K, page: &mut TextBuf, reads: &PlaceList) -> Result<(), Failed>
    ensures whole { OnOk result
        (Puts (K.held sink.old) page.old (flat_map place_line reads.now)
        (K.held sink.new) page.new []) }
    ensures part { OnErr result
        (PutsPart (K.held sink.old) page.old (flat_map place_line reads.now) (K.held sink.new)) }
    ensures cause { HasCause (K.faults sink.old) (K.faults sink.new) result }
{
    for i in 0..reads.len() {
        match make_room(sink, page) {
            Ok(()) => push_place(page, reads.get(i)),
            Err(failed) => return Err(failed),
        }
    }
    Ok(())
}

/// Puts the text of a certificate.
pub(crate) fn put_cert<K: Sink>(sink: &mut K, cert: &Cert) -> Result<(), Failed>
    ensures whole { OnOk result (Appends (K.held sink.old) (K.held sink.new) (cert_text cert.now)) }
    ensures part { OnErr result
        (AppendsPart (K.held sink.old) (K.held sink.new) (cert_text cert.now)) }
    ensures cause { HasCause (K.faults sink.old) (K.faults sink.new) result }
{
    let mut page = TextBuf::empty();
    match put_orders(sink, &mut page, &cert.lines) {
        Ok(()) => {}
        Err(failed) => return Err(failed),
    }
    match put_places(sink, &mut page, &cert.reads) {
        Ok(()) => give_over(sink, &mut page, 0),
        Err(failed) => Err(failed),
    }
}
