// The text of a plan is written to a sink, in large pieces.
ghost use Rattle.std.specs.Prelude.{◌≡◌, ◌≤◌, ◌+◌, ◌++◌, ◌∷◌, [], ℕ, List, Option, length, codes, OnOk, OnErr};
ghost use Rattle.std.specs.Io.KnownBytes.{Appends};
ghost use Rattle.std.specs.List.{join_with_byte};
ghost use Rattle.ace_io.specs.Faults.{HasCause};
ghost use Rattle.ace_event.specs.Ports.{IsHeader};
ghost use Rattle.ace_event.specs.Text.{hex_text, line_digits, line_text};
ghost use Rattle.ace_script.specs.Text.{fetch_text, op_fields, operation_text, operations_text, plan_text, script_header, cache_text, policy_text};
ghost use Rattle.ace_model.specs.declared.plans.PolicyWord.TheVariants.{Mixed};
ghost use Rattle.ace_script.specs.Written.{IsWaiting, GivesFront};

use crate::Plan;
use ace_codes::ArKind;
use ace_event::Line;
use ace_io::{Sink, give_all};
use ace_model::{Op, PlanOp, PlanView, PolicyWord};
use ace_writer::{TEXT_ROOM, TextBuf, WriteErr};
use itoa::Buffer;

/// The most bytes of a line, with its line feed.
const LINE_LIMIT: usize = 256;

/// The fields of an operation on a line.
fn push_addressed(text: &mut TextBuf, word: &[u8], addr: u32)
    requires word { length word.now ≤ 8 }
    requires room { length text.old + 32 ≤ 4096 }
    ensures value { text.new ≡ text.old ++ word.now ++ 32 ∷ hex_text 8 addr }
    ensures len { length text.new ≤ length text.old + 17 }
{
    text.append(word);
    text.push_number(8, u128::from(addr));
}

/// Those of a load, or of a store without its word.
fn push_place(text: &mut TextBuf, word: &[u8], addr: u32, w: u8)
    requires word { length word.now ≤ 8 }
    requires room { length text.old + 32 ≤ 4096 }
    ensures value { text.new ≡ text.old ++ word.now ++ 32 ∷ hex_text 8 addr ++ 32 ∷ hex_text 1 w }
    ensures len { length text.new ≤ length text.old + 19 }
{
    push_addressed(text, word, addr);
    text.push_number(1, u128::from(w));
}

/// Those of a store of a word.
fn push_store(text: &mut TextBuf, word: &[u8], addr: u32, w: u8, bytes: u128)
    requires word { length word.now ≤ 8 }
    requires room { length text.old + 200 ≤ 4096 }
    ensures value { text.new ≡ text.old ++ word.now ++ 32 ∷ hex_text 8 addr
        ++ 32 ∷ hex_text 1 w ++ 32 ∷ hex_text 32 bytes }
    ensures len { length text.new ≤ length text.old + 52 }
{
    push_place(text, word, addr, w);
    text.push_number(32, bytes);
}

/// Those of a store of a whole line.
fn push_whole(text: &mut TextBuf, word: &[u8], addr: u32, line: &Line)
    requires word { length word.now ≤ 8 }
    requires room { length text.old + 200 ≤ 4096 }
    ensures value { text.new ≡ text.old ++ word.now ++ 32 ∷ hex_text 8 addr
        ++ 32 ∷ line_digits line.now }
    ensures len { length text.new ≤ length text.old + 146 }
{
    push_addressed(text, word, addr);
    text.push_line(line);
}

/// Those of a store of the bytes that a strobe names.
fn push_strobed(text: &mut TextBuf, word: &[u8], addr: u32, strobe: u64, line: &Line)
    requires word { length word.now ≤ 8 }
    requires room { length text.old + 200 ≤ 4096 }
    ensures value { text.new ≡ text.old ++ word.now ++ 32 ∷ hex_text 8 addr
        ++ 32 ∷ hex_text 16 strobe ++ 32 ∷ line_digits line.now }
    ensures len { length text.new ≤ length text.old + 163 }
{
    push_addressed(text, word, addr);
    text.push_number(16, u128::from(strobe));
    text.push_line(line);
}

/// Those of a read ahead.
fn push_fetch(text: &mut TextBuf, addr: u32, kind: ArKind)
    requires room { length text.old + 32 ≤ 4096 }
    ensures value { text.new ≡ text.old ++ codes "pf" ++ 32 ∷ hex_text 8 addr
        ++ 32 ∷ fetch_text kind }
    ensures len { length text.new ≤ length text.old + 19 }
{
    push_addressed(text, b"pf", addr);
    text.append(match kind {
        ArKind::ReadShared => b" s",
        ArKind::ReadClean => b" c",
        ArKind::ReadNotSharedDirty => b" n",
        _ => b" u",
    });
}

/// The word of an operation, and its fields.
fn push_op(text: &mut TextBuf, op: Op)
    requires room { length text.old + 250 ≤ 4096 }
    ensures value { text.new ≡ text.old ++ join_with_byte 32 (op_fields op) }
    ensures len { length text.new ≤ length text.old + 163 }
{
    match op {
        Op::Ld { addr, w } => push_place(text, b"ld", addr, w),
        Op::Ldx { addr, w } => push_place(text, b"ldx", addr, w),
        Op::St { addr, w, word } => push_store(text, b"st", addr, w, word),
        Op::Stx { addr, w, word } => push_store(text, b"stx", addr, w, word),
        Op::Fill { addr, line } => push_whole(text, b"fill", addr, &line),
        Op::Pf { addr, kind } => push_fetch(text, addr, kind),
        Op::Wb { addr } => push_addressed(text, b"wb", addr),
        Op::Wc { addr } => push_addressed(text, b"wc", addr),
        Op::Ev { addr } => push_addressed(text, b"ev", addr),
        Op::We { addr } => push_addressed(text, b"we", addr),
        Op::Ro { addr } => push_addressed(text, b"ro", addr),
        Op::Cs { addr } => push_addressed(text, b"cs", addr),
        Op::Ci { addr } => push_addressed(text, b"ci", addr),
        Op::Mi { addr } => push_addressed(text, b"mi", addr),
        Op::Rn { addr } => push_addressed(text, b"rn", addr),
        Op::Wu { addr, strobe, line } => push_strobed(text, b"wu", addr, strobe, &line),
        Op::Wlu { addr, line } => push_whole(text, b"wlu", addr, &line),
        Op::Wn { addr, strobe, line } => push_strobed(text, b"wn", addr, strobe, &line),
        Op::Mb => text.append(b"mb"),
        Op::Sb => text.append(b"sb"),
        Op::Dvm { word } => push_addressed(text, b"dvm", word),
        Op::Sync { word } => push_addressed(text, b"sync", word),
        Op::Dvm2 { word, second } => {
            push_addressed(text, b"dvm2", word);
            text.push_number(8, u128::from(second))
        }
    }
}

/// The line of an operation, with its line feed.
pub fn push_operation(text: &mut TextBuf, o: &PlanOp)
    requires room { length text.old + 256 ≤ 4096 }
    ensures { text.new ≡ text.old ++ line_text (operation_text o.now) }
{
    text.push_digits(1, u128::from(o.port));
    text.push(b' ');
    push_op(text, o.op);
    text.push(b'\n');
}

/// The fourth header line of a mixed policy, with its line feed.
fn push_mixed(text: &mut TextBuf, n: u64)
    requires room { length text.old + 32 ≤ 4096 }
    ensures { text.new ≡ text.old ++ line_text (policy_text (Mixed n)) }
{
    text.append(b"POLICY mixed");
    text.push_number(16, u128::from(n));
    text.push(b'\n');
}

/// The fourth header line, with its line feed.
fn push_policy(text: &mut TextBuf, policy: PolicyWord)
    requires room { length text.old + 32 ≤ 4096 }
    ensures { text.new ≡ text.old ++ line_text (policy_text policy) }
{
    match policy {
        PolicyWord::Keep => text.append(b"POLICY keep\n"),
        PolicyWord::Eager => text.append(b"POLICY eager\n"),
        PolicyWord::Mixed(n) => push_mixed(text, n),
    }
}

/// The third header line, with its line feed.
fn push_cache(text: &mut TextBuf, ways: u8)
    requires room { length text.old + 64 ≤ 4096 }
    ensures value { text.new ≡ text.old ++ line_text (cache_text ways) }
    ensures len { length text.new ≤ length text.old + 50 }
{
    let mut digits = Buffer::new();
    text.append(b"CACHE ");
    text.append(digits.format(ways).as_bytes());
    text.push(b'\n');
}

/// The text of the header lines.
fn header_text(view: &PlanView) -> TextBuf
    requires { IsHeader view.now.plan.header }
    ensures { result ≡ script_header view.now.plan }
{
    let mut text = TextBuf::empty();
    text.append(b"ACE SCRIPT 1\n");
    text.push_ports(&view.header());
    push_cache(&mut text, view.ways());
    push_policy(&mut text, view.policy());
    text
}

/// Gives the text that waits where it has more bytes than these.
fn give_over<K: Sink>(sink: &mut K, text: &mut TextBuf, most: usize) -> Result<(), WriteErr>
    ensures kept { OnOk result ((before : Option (List ℕ)) (whole : List ℕ)
        → IsWaiting before (K.held sink.old) text.old whole
        → IsWaiting before (K.held sink.new) text.new whole) }
    ensures room { OnOk result (length text.new ≤ most) }
    ensures part { OnErr result ((before : Option (List ℕ)) (whole : List ℕ)
        → IsWaiting before (K.held sink.old) text.old whole
        → GivesFront before (K.held sink.new) whole) }
    ensures cause { HasCause (K.faults sink.old) (K.faults sink.new) result }
{
    if text.len() <= most {
        return Ok(());
    }
    let count = give_all(sink, text.bytes());
    if count < text.len() {
        return Err(WriteErr::WriteFault);
    }
    text.clear();
    Ok(())
}

/// Adds the lines of the operations to the text, and gives it in pieces.
fn give_operations<K: Sink>(
    sink: &mut K,
    text: &mut TextBuf,
    operations: &[PlanOp],
) -> Result<(), WriteErr>
    ensures given { OnOk result ((before : Option (List ℕ)) (front : List ℕ)
        → IsWaiting before (K.held sink.old) text.old front
        → Appends before (K.held sink.new) (front ++ operations_text operations.now)) }
    ensures part { OnErr result ((before : Option (List ℕ)) (front : List ℕ)
        → IsWaiting before (K.held sink.old) text.old front
        → GivesFront before (K.held sink.new) (front ++ operations_text operations.now)) }
    ensures cause { HasCause (K.faults sink.old) (K.faults sink.new) result }
{
    for o in operations {
        match give_over(sink, text, TEXT_ROOM - LINE_LIMIT) {
            Ok(()) => push_operation(text, o),
            Err(error) => return Err(error),
        }
    }
    give_over(sink, text, 0)
}

/// Writes the text of the plan.
fn give_plan<K: Sink>(sink: &mut K, view: &PlanView) -> Result<(), WriteErr>
    requires { IsHeader view.now.plan.header }
    ensures text { OnOk result (Appends (K.held sink.old) (K.held sink.new)
        (plan_text view.now.plan)) }
    ensures part { OnErr result (GivesFront (K.held sink.old) (K.held sink.new)
        (plan_text view.now.plan)) }
    ensures cause { HasCause (K.faults sink.old) (K.faults sink.new) result }
{
    let mut text = header_text(view);
    give_operations(sink, &mut text, view.operations())
}

impl Plan {
    ghost use Rattle.std.specs.Prelude.{OnOk, OnErr};
    ghost use Rattle.std.specs.Io.KnownBytes.{Appends};
    ghost use Rattle.ace_io.specs.Faults.{HasCause};
    ghost use Rattle.ace_script.specs.Text.{plan_text};
    ghost use Rattle.ace_model.specs.declared.plans.PolicyWord.TheVariants.{Mixed};
    ghost use Rattle.ace_script.specs.Written.{GivesFront};

    /// Writes the text of the script.
    ///
    /// # Errors
    ///
    /// `WriteFault` where the sink's count of faults rose in this call. What was given is then a
    /// front of the text.
    pub fn put<K: Sink>(&self, sink: &mut K) -> Result<(), WriteErr>
        ensures text { OnOk result (Appends (K.held sink.old) (K.held sink.new)
            (plan_text self.now.plan)) }
        ensures part { OnErr result (GivesFront (K.held sink.old) (K.held sink.new)
            (plan_text self.now.plan)) }
        ensures cause { HasCause (K.faults sink.old) (K.faults sink.new) result }
    {
        give_plan(sink, self.view())
    }
}
