// A trace is read in one form and written in another.
ghost use Rattle.std.specs.Prelude.{◌≡◌};
ghost use Rattle.ace_convert.specs.declared.conversion.Conversion.TheVariants.{Pack, Unpack};
ghost use Rattle.ace_convert.specs.Form.{Text};
ghost use Rattle.ace_convert.specs.Converted.{HasConverted};
ghost use Rattle.ace_convert.specs.Spelling.{form_read, form_written};

use crate::conversion::Conversion;
use crate::end::{TraceEnd, binary_end, text_end};
use crate::next::{next_in_binary, next_in_text};
use ace_bin::{BinReader, BinWriter};
use ace_grammar::{NO_EVENT, Reader};
use ace_io::{Failed, Sink, Source};
use ace_writer::Writer;
use std::alloc::Global;

/// The text of a trace of text, in this version.
#[tactic(auto, using(crate::proofs::ConvertLemmas::converting))]
fn respell<S: Source, K: Sink>(
    alloc: Global,
    input: &mut S,
    out: &mut K,
    conversion: Conversion,
) -> Result<TraceEnd, Failed>
    requires read { form_read conversion ≡ Text }
    requires written { form_written conversion ≡ Text }
    ensures { HasConverted conversion (S.left input.old) (S.left input.new) (S.faults input.old)
        (S.faults input.new) (K.held out.old) (K.held out.new) (K.faults out.old) (K.faults out.new)
        result }
{
    let mut reader = match Reader::start(alloc, input) {
        Ok(reader) => reader,
        Err(failed) => return Ok(text_end(failed.error)),
    };
    let header = conversion.header_written(reader.header());
    let Ok(mut writer) = Writer::start(out, &header) else {
        return Err(Failed);
    };
    let mut event = NO_EVENT;
    'events: loop {
        match next_in_text(&mut reader, &mut event) {
            Ok(()) => match writer.put(&event) {
                Ok(()) => {}
                Err(_) => return Err(Failed),
            },
            Err(end) => match writer.flush() {
                Ok(()) => return Ok(end),
                Err(_) => return Err(Failed),
            },
        }
    }
}

/// The binary trace of a trace of text.
#[tactic(auto, using(crate::proofs::ConvertLemmas::converting))]
fn pack<S: Source, K: Sink>(alloc: Global, input: &mut S, out: &mut K) -> Result<TraceEnd, Failed>
    ensures { HasConverted Pack (S.left input.old) (S.left input.new) (S.faults input.old)
        (S.faults input.new) (K.held out.old) (K.held out.new) (K.faults out.old) (K.faults out.new)
        result }
{
    let mut reader = match Reader::start(alloc, input) {
        Ok(reader) => reader,
        Err(failed) => return Ok(text_end(failed.error)),
    };
    let header = reader.header();
    let Ok(mut writer) = BinWriter::start(out, &header) else {
        return Err(Failed);
    };
    let mut event = NO_EVENT;
    'events: loop {
        match next_in_text(&mut reader, &mut event) {
            Ok(()) => match writer.put(&event) {
                Ok(()) => {}
                Err(_) => return Err(Failed),
            },
            Err(end) => match writer.flush() {
                Ok(()) => return Ok(end),
                Err(_) => return Err(Failed),
            },
        }
    }
}

/// The text of a binary trace.
#[tactic(auto, using(crate::proofs::ConvertLemmas::converting))]
fn unpack<S: Source, K: Sink>(input: &mut S, out: &mut K) -> Result<TraceEnd, Failed>
    ensures { HasConverted Unpack (S.left input.old) (S.left input.new) (S.faults input.old)
        (S.faults input.new) (K.held out.old) (K.held out.new) (K.faults out.old) (K.faults out.new)
        result }
{
    let mut reader = match BinReader::start(input) {
        Ok(reader) => reader,
        Err(failed) => return Ok(binary_end(failed.error)),
    };
    let header = reader.header();
    let Ok(mut writer) = Writer::start(out, &header) else {
        return Err(Failed);
    };
    let mut event = NO_EVENT;
    'events: loop {
        match next_in_binary(&mut reader, &mut event) {
            Ok(()) => match writer.put(&event) {
                Ok(()) => {}
                Err(_) => return Err(Failed),
            },
            Err(end) => match writer.flush() {
                Ok(()) => return Ok(end),
                Err(_) => return Err(Failed),
            },
        }
    }
}

/// Reads a trace and writes what is made of it, event by event: how the reading ends, once all was
/// given.
///
/// # Errors
///
/// `Failed` where the output's count of faults rose in this call.
pub fn convert<S: Source, K: Sink>(
    alloc: Global,
    input: &mut S,
    out: &mut K,
    conversion: Conversion,
) -> Result<TraceEnd, Failed>
    ensures { HasConverted conversion (S.left input.old) (S.left input.new) (S.faults input.old)
        (S.faults input.new) (K.held out.old) (K.held out.new) (K.faults out.old) (K.faults out.new)
        result }
{
    match conversion {
        Conversion::Show | Conversion::Migrate => respell(alloc, input, out, conversion),
        Conversion::Pack => pack(alloc, input, out),
        Conversion::Unpack => unpack(input, out),
    }
}
