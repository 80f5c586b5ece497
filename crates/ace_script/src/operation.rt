// The operation of a line, by its word and its fields.
ghost use Rattle.std.specs.Prelude.{◌≡◌, ◌==◌, ◌∷◌, [], not, IfOk, IfErr};
ghost use Rattle.std.specs.Option.{option_map};
ghost use Rattle.std.specs.List.{slice_split, list_all};
ghost use Rattle.std.specs.Map.{lookup};
ghost use Rattle.std.specs.Str.{bytes_eq};
ghost use Rattle.ace_grammar.specs.Parts.{parts};
ghost use Rattle.ace_tables.specs.Answers.{same_test};
ghost use Rattle.ace_model.specs.Trace.{implies, is_some_and};
ghost use Rattle.ace_model.specs.Transactions.{is_ace};
ghost use Rattle.ace_model.specs.Plans.{is_lite_operation, is_of_one_class, is_allowed, AreRightAfter, IsRightAfter, line_named, wants_no_snoop};
ghost use Rattle.ace_script.specs.Fields.{made, alone, pair, triple, no_field, one_field, two_fields, three_fields, address_of, place_of, word_of, strobe_of, line_of, fetch_of, lone_word_of, sync_word_of, first_word_of, second_word_of};
ghost use Rattle.ace_script.specs.Grammar.{OperationFits};
ghost use Rattle.ace_script.specs.Operations.{by_row, order_rows, uncached_rows, op_of, operation_of};
ghost use Rattle.ace_script.specs.Reading.{HasReason};
ghost use Rattle.ace_script.specs.Text.{operation_text};

use crate::Reason;
use crate::fields::{
    address, both, fetch, first_word, line, lone_word, place, port, second_word, strobe, sync_word,
    word,
};
use ace_codes::ArKind;
use ace_event::{Header, Line, PortKind, kind_of};
use ace_grammar::cut_field;
use ace_model::{Op, PlanOp};

/// The field, where no more are left.
fn only<'a>(field: &'a [u8], more: Option<&[u8]>) -> Option<&'a [u8]>
    ensures { option_map (λ a. a.now) result ≡ alone (field.now
        ∷ parts (option_map (λ bytes. bytes.now) more.entry)) }
{
    match more {
        None => Some(field),
        Some(_) => None,
    }
}

/// The one field that is left, where there is exactly one.
fn alone(rest: Option<&[u8]>) -> Option<&[u8]>
    ensures { option_map (λ a. a.now) result
        ≡ alone (parts (option_map (λ bytes. bytes.now) rest.entry)) }
{
    let (field, more) = cut_field(rest?);
    only(field, more)
}

/// The two fields that are left, where there are exactly two.
fn pair(rest: Option<&[u8]>) -> Option<(&[u8], &[u8])>
    ensures { option_map (λ x. (x.0.now, x.1.now)) result
        ≡ pair (parts (option_map (λ bytes. bytes.now) rest.entry)) }
{
    let (field, rest) = cut_field(rest?);
    Some((field, alone(rest)?))
}

/// The three fields that are left, where there are exactly three.
fn triple(rest: Option<&[u8]>) -> Option<(&[u8], (&[u8], &[u8]))>
    ensures { option_map (λ x. (x.0.now, (x.1.0.now, x.1.1.now))) result
        ≡ triple (parts (option_map (λ bytes. bytes.now) rest.entry)) }
{
    let (field, rest) = cut_field(rest?);
    Some((field, pair(rest)?))
}

/// An address alone.
fn line_fields(rest: Option<&[u8]>) -> Result<u32, Reason>
    ensures { result ≡ one_field address_of (parts (option_map (λ bytes. bytes.now) rest.entry)) }
{
    match alone(rest) {
        Some(a) => address(a),
        None => Err(Reason::P3),
    }
}

/// An address and the number of a word.
fn load_fields(rest: Option<&[u8]>) -> Result<(u32, u8), Reason>
    ensures { result ≡ two_fields address_of place_of
        (parts (option_map (λ bytes. bytes.now) rest.entry)) }
{
    match pair(rest) {
        Some((a, w)) => both(address(a), place(w)),
        None => Err(Reason::P3),
    }
}

/// An address, the number of a word, and the word.
fn store_fields(rest: Option<&[u8]>) -> Result<(u32, (u8, u128)), Reason>
    ensures { result ≡ three_fields address_of place_of word_of
        (parts (option_map (λ bytes. bytes.now) rest.entry)) }
{
    match triple(rest) {
        Some((a, (w, bytes))) => both(address(a), both(place(w), word(bytes))),
        None => Err(Reason::P3),
    }
}

/// An address and a line.
fn fill_fields(rest: Option<&[u8]>) -> Result<(u32, Line), Reason>
    ensures { result ≡ two_fields address_of line_of
        (parts (option_map (λ bytes. bytes.now) rest.entry)) }
{
    match pair(rest) {
        Some((a, bytes)) => both(address(a), line(bytes)),
        None => Err(Reason::P3),
    }
}

/// An address, a strobe and a line.
fn write_fields(rest: Option<&[u8]>) -> Result<(u32, (u64, Line)), Reason>
    ensures { result ≡ three_fields address_of strobe_of line_of
        (parts (option_map (λ bytes. bytes.now) rest.entry)) }
{
    match triple(rest) {
        Some((a, (bits, bytes))) => both(address(a), both(strobe(bits), line(bytes))),
        None => Err(Reason::P3),
    }
}

/// An address and the letter of a read ahead.
fn fetch_fields(rest: Option<&[u8]>) -> Result<(u32, ArKind), Reason>
    ensures { result ≡ two_fields address_of fetch_of
        (parts (option_map (λ bytes. bytes.now) rest.entry)) }
{
    match pair(rest) {
        Some((a, letter)) => both(address(a), fetch(letter)),
        None => Err(Reason::P3),
    }
}

/// The word of a DVM message alone.
fn message_fields(rest: Option<&[u8]>) -> Result<u32, Reason>
    ensures { result ≡ one_field lone_word_of (parts (option_map (λ bytes. bytes.now) rest.entry)) }
{
    match alone(rest) {
        Some(word) => lone_word(word),
        None => Err(Reason::P3),
    }
}

/// The word of a Sync alone.
fn sync_fields(rest: Option<&[u8]>) -> Result<u32, Reason>
    ensures { result ≡ one_field sync_word_of (parts (option_map (λ bytes. bytes.now) rest.entry)) }
{
    match alone(rest) {
        Some(word) => sync_word(word),
        None => Err(Reason::P3),
    }
}

/// The words of a DVM message of two parts.
fn part_fields(rest: Option<&[u8]>) -> Result<(u32, u32), Reason>
    ensures { result ≡ two_fields first_word_of second_word_of
        (parts (option_map (λ bytes. bytes.now) rest.entry)) }
{
    match pair(rest) {
        Some((first, second)) => both(first_word(first), second_word(second)),
        None => Err(Reason::P3),
    }
}

/// No field at all, for this operation.
fn without_fields(rest: Option<&[u8]>, op: Op) -> Result<Op, Reason>
    ensures { result ≡ made (λ _. op)
        (no_field (parts (option_map (λ bytes. bytes.now) rest.entry))) }
{
    match rest {
        None => Ok(op),
        Some(_) => Err(Reason::P3),
    }
}

/// The operation of a word that names no line.
fn order_op(word: &[u8], rest: Option<&[u8]>) -> Result<Op, Reason>
    ensures { result ≡ by_row (lookup (bytes_eq word.now) order_rows)
        (parts (option_map (λ bytes. bytes.now) rest.entry)) }
{
    if word == b"mb".as_slice() {
        without_fields(rest, Op::Mb)
    } else if word == b"sb".as_slice() {
        without_fields(rest, Op::Sb)
    } else if word == b"dvm".as_slice() {
        message_fields(rest).map(|word| Op::Dvm { word })
    } else if word == b"sync".as_slice() {
        sync_fields(rest).map(|word| Op::Sync { word })
    } else if word == b"dvm2".as_slice() {
        part_fields(rest).map(|(word, second)| Op::Dvm2 { word, second })
    } else {
        Err(Reason::P2)
    }
}

/// The operation of a word that names none, or a line that no cache is to hold.
fn uncached_op(word: &[u8], rest: Option<&[u8]>) -> Result<Op, Reason>
    ensures { result ≡ by_row (lookup (bytes_eq word.now) uncached_rows)
        (parts (option_map (λ bytes. bytes.now) rest.entry)) }
{
    if word == b"ro".as_slice() {
        line_fields(rest).map(|addr| Op::Ro { addr })
    } else if word == b"cs".as_slice() {
        line_fields(rest).map(|addr| Op::Cs { addr })
    } else if word == b"ci".as_slice() {
        line_fields(rest).map(|addr| Op::Ci { addr })
    } else if word == b"mi".as_slice() {
        line_fields(rest).map(|addr| Op::Mi { addr })
    } else if word == b"rn".as_slice() {
        line_fields(rest).map(|addr| Op::Rn { addr })
    } else if word == b"wu".as_slice() {
        write_fields(rest).map(|(addr, (strobe, line))| Op::Wu { addr, strobe, line })
    } else if word == b"wlu".as_slice() {
        fill_fields(rest).map(|(addr, line)| Op::Wlu { addr, line })
    } else if word == b"wn".as_slice() {
        write_fields(rest).map(|(addr, (strobe, line))| Op::Wn { addr, strobe, line })
    } else {
        order_op(word, rest)
    }
}

/// The operation of this word with the fields that are left.
#[tactic(auto, unfolding(crate::specs::Operations::op_of))]
fn op_of(word: &[u8], rest: Option<&[u8]>) -> Result<Op, Reason>
    ensures { result ≡ op_of word.now (parts (option_map (λ bytes. bytes.now) rest.entry)) }
{
    if word == b"ld".as_slice() {
        load_fields(rest).map(|(addr, w)| Op::Ld { addr, w })
    } else if word == b"ldx".as_slice() {
        load_fields(rest).map(|(addr, w)| Op::Ldx { addr, w })
    } else if word == b"st".as_slice() {
        store_fields(rest).map(|(addr, (w, word))| Op::St { addr, w, word })
    } else if word == b"stx".as_slice() {
        store_fields(rest).map(|(addr, (w, word))| Op::Stx { addr, w, word })
    } else if word == b"fill".as_slice() {
        fill_fields(rest).map(|(addr, line)| Op::Fill { addr, line })
    } else if word == b"pf".as_slice() {
        fetch_fields(rest).map(|(addr, kind)| Op::Pf { addr, kind })
    } else if word == b"wb".as_slice() {
        line_fields(rest).map(|addr| Op::Wb { addr })
    } else if word == b"wc".as_slice() {
        line_fields(rest).map(|addr| Op::Wc { addr })
    } else if word == b"ev".as_slice() {
        line_fields(rest).map(|addr| Op::Ev { addr })
    } else if word == b"we".as_slice() {
        line_fields(rest).map(|addr| Op::We { addr })
    } else {
        uncached_op(word, rest)
    }
}

/// Whether the two name one line.
fn name_one_line(op: Op, other: Op) -> bool
    ensures { result
        ≡ is_some_and (line_named op) (λ a. is_some_and (line_named other) (λ b. b == a)) }
{
    match (op.line(), other.line()) {
        (Some(line), Some(named)) => named == line,
        _ => false,
    }
}

/// Whether both access their lines without a snoop, or neither does.
fn are_of_one_class(op: Op, other: Op) -> bool
    ensures { result ≡ same_test (wants_no_snoop op) (wants_no_snoop other) }
{
    op.wants_no_snoop() == other.wants_no_snoop()
}

/// Whether the kind of port can do the operation.
fn is_for_port(header: &Header, o: PlanOp) -> bool
    ensures { result ≡ implies (not (is_ace header.now o.port)) (is_lite_operation o.op) }
{
    match kind_of(header, o.port) {
        Some(PortKind::Ace) => true,
        _ => o.op.is_for_lite(),
    }
}

/// Whether none of these operations, which are those of a right plan, names the line of this one in
/// the other class. All of them that name it are of one class, so the first tells it.
fn keeps_class(_header: &Header, before: &[PlanOp], op: Op) -> bool
    requires { AreRightAfter _header.now [] before.now }
    ensures { result ≡ list_all (λ other. is_of_one_class op other.op) before.now }
{
    for k in 0..before.len() {
        if name_one_line(op, before[k].op) {
            return are_of_one_class(op, before[k].op);
        }
    }
    true
}

/// Whether the kind of port can do the operation, and none of these named its line in the other
/// class.
fn is_allowed(header: &Header, before: &[PlanOp], o: PlanOp) -> bool
    requires { AreRightAfter header.now [] before.now }
    ensures { result ≡ is_allowed header.now before.now o }
{
    is_for_port(header, o) && keeps_class(header, before, o.op)
}

/// The operation of a line, or the least reason that applies.
fn operation_of(line: &[u8], header: &Header, before: &[PlanOp]) -> Result<PlanOp, Reason>
    requires { AreRightAfter header.now [] before.now }
    ensures { result ≡ operation_of header.now before.now
        (slice_split (λ byte. byte == 32) line.now) }
{
    let (first, rest) = cut_field(line);
    let bytes = match rest {
        Some(bytes) => bytes,
        None => return Err(Reason::P2),
    };
    let (word, rest) = cut_field(bytes);
    match both(port(first, header), op_of(word, rest)) {
        Ok((port, op)) => {
            let o = PlanOp { port, op };
            if is_allowed(header, before, o) {
                Ok(o)
            } else {
                Err(Reason::P8)
            }
        }
        Err(why) => Err(why),
    }
}

/// The operation whose line this is, without its line feed, behind these of a right script with
/// this header. Where it is the line of none that can stand there, the error is the least reason
/// that applies.
#[tactic(auto, using(crate::proofs::LineReasons::line_parsed, crate::proofs::LineReasons::line_reason))]
pub fn parse_operation(line: &[u8], header: &Header, before: &[PlanOp]) -> Result<PlanOp, Reason>
    requires { AreRightAfter header.now [] before.now }
    ensures operation { IfOk result (λ o. IsRightAfter header.now before.now o
        × OperationFits o × (operation_text o ≡ line.now)) }
    ensures reason { IfErr result (HasReason header.now before.now line.now) }
{
    operation_of(line, header, before)
}
