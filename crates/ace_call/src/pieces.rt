// A text in pieces is given to an output, at once where it isn't long.
ghost use Rattle.std.specs.Prelude.{◌≡◌, OnOk, OnErr, IfSome, flat_map};
ghost use Rattle.std.specs.Io.KnownBytes.{Appends};
ghost use Rattle.ace_io.specs.Faults.{HasCause};
ghost use Rattle.ace_convert.specs.Output.{AppendsPart};

use crate::give::give_text;
use ace_io::{Failed, Sink};
use arrayvec::ArrayString;

/// The most bytes that are given at once.
const ROOM: usize = 4096;

/// The text of these pieces, if there is room for it.
#[tactic(auto, using(crate::proofs::PieceLemmas::pieces))]
fn join_pieces(pieces: &[&str]) -> Option<ArrayString<ROOM>>
    ensures { IfSome result (λ text. text.bytes ≡ flat_map (λ piece. piece.now) pieces.now) }
{
    let mut text = ArrayString::new();
    for piece in pieces {
        if text.try_push_str(piece).is_err() {
            return None;
        }
    }
    Some(text)
}

/// Gives one piece after another.
#[tactic(auto, using(crate::proofs::PieceLemmas::giving))]
fn give_each<K: Sink>(sink: &mut K, pieces: &[&str]) -> Result<(), Failed>
    ensures whole { OnOk result (Appends (K.held sink.old) (K.held sink.new)
        (flat_map (λ piece. piece.now) pieces.now)) }
    ensures part { OnErr result (AppendsPart (K.held sink.old) (K.held sink.new)
        (flat_map (λ piece. piece.now) pieces.now)) }
    ensures cause { HasCause (K.faults sink.old) (K.faults sink.new) result }
{
    for piece in pieces {
        match give_text(sink, piece.as_bytes()) {
            Ok(()) => {}
            Err(failed) => return Err(failed),
        }
    }
    Ok(())
}

/// Gives the text of these pieces. One of up to 4,096 bytes is given at once.
///
/// # Errors
///
/// `Failed` where the sink failed: a front of the text was given.
pub fn give_pieces<K: Sink>(sink: &mut K, pieces: &[&str]) -> Result<(), Failed>
    ensures whole { OnOk result (Appends (K.held sink.old) (K.held sink.new)
        (flat_map (λ piece. piece.now) pieces.now)) }
    ensures part { OnErr result (AppendsPart (K.held sink.old) (K.held sink.new)
        (flat_map (λ piece. piece.now) pieces.now)) }
    ensures cause { HasCause (K.faults sink.old) (K.faults sink.new) result }
{
    match join_pieces(pieces) {
        Some(text) => give_text(sink, text.as_bytes()),
        None => give_each(sink, pieces),
    }
}
