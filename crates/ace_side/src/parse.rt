// A line, by its word and the fields behind it.
ghost use Rattle.std.specs.Prelude.{◌<◌, Some, length, IfOk, IfErr, IfSome};
ghost use Rattle.std.specs.Option.{option_map};
ghost use Rattle.ace_grammar.specs.Parts.{parts};
ghost use Rattle.ace_side.specs.declared.kind.LineKind.TheVariants as kind;
ghost use Rattle.ace_side.specs.Parts.{IsReadBehind};
ghost use Rattle.ace_side.specs.Reasons.{IsTextOf, IsNoLine};

use crate::fields::{address, digits, name, note, number, port, real, unit, word};
use crate::kind::{LineKind, kind_of};
use crate::parts::{field_and_text, first_field, only_field, two_fields};
use crate::{Reason, SideLine};

fn unit_line(rest: Option<&[u8]>) -> Result<SideLine, Reason>
    ensures { IsReadBehind kind.TimeUnit (parts (option_map
        (λ bytes. bytes.now) rest.entry)) result }
{
    match only_field(rest) {
        Some(field) => match unit(field) {
            Some(word) => Ok(SideLine::TimeUnit { word }),
            None => Err(Reason::S4),
        },
        None => Err(Reason::S3),
    }
}

fn port_line(rest: Option<&[u8]>) -> Result<SideLine, Reason>
    ensures { IsReadBehind kind.Port (parts (option_map (λ bytes. bytes.now) rest.entry)) result }
{
    match field_and_text(rest) {
        Some((field, text)) => match (port(field), name(text)) {
            (Some(port), Some(name)) => Ok(SideLine::Port { port, name }),
            _ => Err(Reason::S4),
        },
        None => Err(Reason::S3),
    }
}

fn addr_line(rest: Option<&[u8]>) -> Result<SideLine, Reason>
    ensures { IsReadBehind kind.Addr (parts (option_map (λ bytes. bytes.now) rest.entry)) result }
{
    match two_fields(rest) {
        Some((first, second)) => match (address(first), real(second)) {
            (Some(addr), Some(real)) => Ok(SideLine::Addr { addr, real }),
            _ => Err(Reason::S4),
        },
        None => Err(Reason::S3),
    }
}

fn word_line(rest: Option<&[u8]>) -> Result<SideLine, Reason>
    ensures { IsReadBehind kind.Word (parts (option_map (λ bytes. bytes.now) rest.entry)) result }
{
    match two_fields(rest) {
        Some((first, second)) => match (word(first), digits(second, 16)) {
            (Some(word), Some(real)) => Ok(SideLine::Word { word, real }),
            _ => Err(Reason::S4),
        },
        None => Err(Reason::S3),
    }
}

fn time_line(rest: Option<&[u8]>) -> Result<SideLine, Reason>
    ensures { IsReadBehind kind.Time (parts (option_map (λ bytes. bytes.now) rest.entry)) result }
{
    match two_fields(rest) {
        Some((first, second)) => match (number(first), number(second)) {
            (Some(event), Some(time)) => Ok(SideLine::Time { event, time }),
            _ => Err(Reason::S4),
        },
        None => Err(Reason::S3),
    }
}

fn id_line(rest: Option<&[u8]>) -> Result<SideLine, Reason>
    ensures { IsReadBehind kind.Id (parts (option_map (λ bytes. bytes.now) rest.entry)) result }
{
    match two_fields(rest) {
        Some((first, second)) => match (number(first), digits(second, 8)) {
            (Some(event), Some(id)) => Ok(SideLine::Id { event, id }),
            _ => Err(Reason::S4),
        },
        None => Err(Reason::S3),
    }
}

fn note_line(rest: Option<&[u8]>) -> Result<SideLine, Reason>
    requires { IfSome rest (λ bytes. length bytes.now < 256) }
    ensures { IsReadBehind kind.Note (parts (option_map (λ bytes. bytes.now) rest.entry)) result }
{
    match field_and_text(rest) {
        Some((field, text)) => match (number(field), note(text)) {
            (Some(event), Some(text)) => Ok(SideLine::Note { event, text }),
            _ => Err(Reason::S4),
        },
        None => Err(Reason::S3),
    }
}

fn end_line(rest: Option<&[u8]>) -> Result<SideLine, Reason>
    ensures { IsReadBehind kind.End (parts (option_map (λ bytes. bytes.now) rest.entry)) result }
{
    match only_field(rest) {
        Some(field) => match number(field) {
            Some(count) => Ok(SideLine::End { count }),
            None => Err(Reason::S4),
        },
        None => Err(Reason::S3),
    }
}

fn broken_line(rest: Option<&[u8]>) -> Result<SideLine, Reason>
    ensures { IsReadBehind kind.Broken (parts (option_map (λ bytes. bytes.now) rest.entry)) result }
{
    match only_field(rest) {
        Some(field) => match number(field) {
            Some(count) => Ok(SideLine::Broken { count }),
            None => Err(Reason::S4),
        },
        None => Err(Reason::S3),
    }
}

fn cut_line(rest: Option<&[u8]>) -> Result<SideLine, Reason>
    ensures { IsReadBehind kind.Cut (parts (option_map (λ bytes. bytes.now) rest.entry)) result }
{
    match only_field(rest) {
        Some(field) => match number(field) {
            Some(count) => Ok(SideLine::Cut { count }),
            None => Err(Reason::S4),
        },
        None => Err(Reason::S3),
    }
}

/// The line of this kind with these fields.
fn line_behind(kind: LineKind, rest: Option<&[u8]>) -> Result<SideLine, Reason>
    requires { IfSome rest (λ bytes. length bytes.now < 256) }
    ensures { IsReadBehind kind (parts (option_map (λ bytes. bytes.now) rest.entry)) result }
{
    match kind {
        LineKind::TimeUnit => unit_line(rest),
        LineKind::Port => port_line(rest),
        LineKind::Addr => addr_line(rest),
        LineKind::Time => time_line(rest),
        LineKind::Id => id_line(rest),
        LineKind::Note => note_line(rest),
        LineKind::Word => word_line(rest),
        LineKind::End => end_line(rest),
        LineKind::Broken => broken_line(rest),
        LineKind::Cut => cut_line(rest),
    }
}

/// The line of which these bytes are the text, without its line feed.
///
/// # Errors
///
/// Where they are the text of none, the least reason that applies: `S2`, `S3` or `S4`.
pub fn parse_line(bytes: &[u8]) -> Result<SideLine, Reason>
    requires { length bytes.now < 256 }
    ensures line { IfOk result (λ line. IsTextOf line bytes.now) }
    ensures reason { IfErr result (IsNoLine bytes.now) }
{
    let (word, rest) = first_field(bytes);
    match kind_of(word) {
        Some(kind) => line_behind(kind, rest),
        None => Err(Reason::S2),
    }
}
