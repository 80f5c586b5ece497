// The points that there are, in groups, as rows. What is proved of each list is that it has the
// rows of the tables, in their order.
ghost use Rattle.std.specs.Prelude.{◌≡◌};
ghost use Rattle.ace_points.specs.Points.{answer_points, read_end_points, rule_points, silent_points, situation_points, start_points, transaction_points, update_points, write_end_points};

use crate::point::Point;
use crate::situation::Situation;
use ace_codes::{ArKind, AwKind, LineState, SnoopKind};

/// The kinds of transactions.
pub fn transaction_points() -> &'static [Point]
    ensures { result.now ≡ transaction_points }
{
    macro_rules! points {
        (ACE: $($read:ident)*; $($write:ident)*; ACE-Lite: $($lite_read:ident)*;
            $($lite_write:ident)*; $($point:expr),*) => {
            &[
                $(Point::Read { ace: true, kind: ArKind::$read },)*
                $(Point::Write { ace: true, kind: AwKind::$write },)*
                $(Point::Read { ace: false, kind: ArKind::$lite_read },)*
                $(Point::Write { ace: false, kind: AwKind::$lite_write },)*
                $($point),*
            ]
        };
    }
    points!(
        ACE:
        ReadNoSnoop ReadOnce ReadShared ReadClean ReadNotSharedDirty ReadUnique CleanUnique
        MakeUnique CleanShared CleanInvalid MakeInvalid DvmMessage DvmComplete Barrier;
        WriteNoSnoop WriteUnique WriteLineUnique WriteClean WriteBack Evict WriteEvict;
        ACE-Lite:
        ReadNoSnoop ReadOnce CleanShared CleanInvalid MakeInvalid Barrier;
        WriteNoSnoop WriteUnique WriteLineUnique;
        Point::Exclusive { kind: ArKind::ReadShared },
        Point::Exclusive { kind: ArKind::ReadClean },
        Point::ExclusiveStore { passes: true },
        Point::ExclusiveStore { passes: false },
        Point::Barrier { ace: true, bar: 1 },
        Point::Barrier { ace: true, bar: 3 },
        Point::Barrier { ace: false, bar: 1 },
        Point::Barrier { ace: false, bar: 3 },
        Point::SecondPart,
        Point::Sync,
        Point::Bar { bar: 2 },
        Point::Domain { domain: 2 },
        Point::Domain { domain: 3 }
    )
}

/// The states from which transactions start.
pub fn start_points() -> &'static [Point]
    ensures { result.now ≡ start_points }
{
    macro_rules! points {
        ($($read:ident $read_from:ident,)* ; $($write:ident $write_from:ident,)*) => {
            &[
                $(Point::ReadStart { kind: ArKind::$read, held: LineState::$read_from },)*
                $(Point::WriteStart { kind: AwKind::$write, held: LineState::$write_from },)*
            ]
        };
    }
    points!(
        ReadNoSnoop I, ReadOnce I, ReadShared I, ReadClean I, ReadNotSharedDirty I,
        ReadUnique I, CleanUnique SC, CleanUnique SD, MakeUnique I, MakeUnique SC,
        MakeUnique SD, CleanShared I, CleanShared SC, CleanShared UC, CleanInvalid I,
        MakeInvalid I,
        ;
        WriteNoSnoop I, WriteUnique I, WriteLineUnique I, WriteClean UD, WriteClean SD,
        WriteBack UD, WriteBack SD, Evict UC, Evict SC, WriteEvict UC,
    )
}

/// The ends of reads: the kind, the state held, IsShared, PassDirty, whether it is an exclusive
/// store that failed, and the state at the end.
pub fn read_end_points() -> &'static [Point]
    ensures { result.now ≡ read_end_points }
{
    macro_rules! points {
        ($($kind:ident $held:ident $shared:literal $dirty:literal $failed:literal $end:ident,)*)
        => {
            &[$(Point::ReadEnd {
                kind: ArKind::$kind,
                failed: $failed,
                held: LineState::$held,
                shared: $shared,
                dirty: $dirty,
                end: LineState::$end,
            }),*]
        };
    }
    points!(
        ReadNoSnoop I false false false I, ReadOnce I false false false I,
        ReadOnce I true false false I, ReadShared I false false false UC,
        ReadShared I false false false SC, ReadShared I false false false I,
        ReadShared I false true false UD, ReadShared I false true false SD,
        ReadShared I true false false SC, ReadShared I true false false I,
        ReadShared I true true false SD, ReadClean I false false false UC,
        ReadClean I false false false SC, ReadClean I false false false I,
        ReadClean I true false false SC, ReadClean I true false false I,
        ReadNotSharedDirty I false false false UC, ReadNotSharedDirty I false false false SC,
        ReadNotSharedDirty I false false false I, ReadNotSharedDirty I false true false UD,
        ReadNotSharedDirty I false true false SD, ReadNotSharedDirty I true false false SC,
        ReadNotSharedDirty I true false false I, ReadUnique I false false false UC,
        ReadUnique I false false false SC, ReadUnique I false false false I,
        ReadUnique I false true false UD, ReadUnique I false true false SD,
        CleanUnique I false false false I, CleanUnique I false false true I,
        CleanUnique SC false false false UC, CleanUnique SC false false false SC,
        CleanUnique SC false false false I, CleanUnique SC false false true SC,
        CleanUnique SC false false true I, CleanUnique SD false false false UD,
        CleanUnique SD false false false SD, CleanUnique SD false false true SD,
        MakeUnique I false false false UD, MakeUnique SC false false false UD,
        MakeUnique SD false false false UD, CleanShared I false false false I,
        CleanShared I true false false I, CleanShared UC false false false UC,
        CleanShared UC false false false SC, CleanShared UC false false false I,
        CleanShared UC true false false SC, CleanShared UC true false false I,
        CleanShared SC false false false UC, CleanShared SC false false false SC,
        CleanShared SC false false false I, CleanShared SC true false false SC,
        CleanShared SC true false false I, CleanInvalid I false false false I,
        MakeInvalid I false false false I,
    )
}

/// The ends of writes: the kind, the state held, and the state at the end.
pub fn write_end_points() -> &'static [Point]
    ensures { result.now ≡ write_end_points }
{
    macro_rules! points {
        ($($kind:ident $held:ident $end:ident,)*) => {
            &[$(Point::WriteEnd {
                kind: AwKind::$kind,
                held: LineState::$held,
                end: LineState::$end,
            }),*]
        };
    }
    points!(
        WriteNoSnoop I I, WriteUnique I I, WriteLineUnique I I, WriteClean UD UC,
        WriteClean UD SC, WriteClean UD I, WriteClean SD SC, WriteClean SD I, WriteBack UD I,
        WriteBack SD I, Evict UC I, Evict SC I, Evict I I, WriteEvict UC I, WriteEvict SC I,
    )
}

/// The answers to snoops: the kind of the snoop, the state held, CRRESP, and the next state.
pub fn answer_points() -> &'static [Point]
    ensures { result.now ≡ answer_points }
{
    macro_rules! points {
        ($($kind:ident $held:ident $resp:literal $next:ident,)*) => {
            &[$(Point::Answer {
                kind: SnoopKind::$kind,
                held: LineState::$held,
                resp: $resp,
                next: LineState::$next,
            }),*]
        };
    }
    points!(
        ReadOnce I 0x00 I, ReadOnce UC 0x08 UC, ReadOnce UC 0x18 UC, ReadOnce UC 0x09 UC,
        ReadOnce UC 0x19 UC, ReadOnce UC 0x08 SC, ReadOnce UC 0x18 SC, ReadOnce UC 0x09 SC,
        ReadOnce UC 0x19 SC, ReadOnce UC 0x00 I, ReadOnce UC 0x10 I, ReadOnce UC 0x01 I,
        ReadOnce UC 0x11 I, ReadOnce UD 0x09 UD, ReadOnce UD 0x19 UD, ReadOnce UD 0x09 SD,
        ReadOnce UD 0x19 SD, ReadOnce UD 0x0d SC, ReadOnce UD 0x1d SC, ReadOnce UD 0x05 I,
        ReadOnce UD 0x15 I, ReadOnce SC 0x08 SC, ReadOnce SC 0x09 SC, ReadOnce SC 0x00 I,
        ReadOnce SC 0x01 I, ReadOnce SD 0x09 SD, ReadOnce SD 0x0d SC, ReadOnce SD 0x05 I,
        ReadShared I 0x00 I, ReadShared UC 0x08 SC, ReadShared UC 0x18 SC,
        ReadShared UC 0x09 SC, ReadShared UC 0x19 SC, ReadShared UC 0x00 I,
        ReadShared UC 0x10 I, ReadShared UC 0x01 I, ReadShared UC 0x11 I,
        ReadShared UD 0x09 SD, ReadShared UD 0x19 SD, ReadShared UD 0x0d SC,
        ReadShared UD 0x1d SC, ReadShared UD 0x05 I, ReadShared UD 0x15 I,
        ReadShared SC 0x08 SC, ReadShared SC 0x09 SC, ReadShared SC 0x00 I,
        ReadShared SC 0x01 I, ReadShared SD 0x09 SD, ReadShared SD 0x0d SC,
        ReadShared SD 0x05 I, ReadClean I 0x00 I, ReadClean UC 0x08 SC, ReadClean UC 0x18 SC,
        ReadClean UC 0x09 SC, ReadClean UC 0x19 SC, ReadClean UC 0x00 I, ReadClean UC 0x10 I,
        ReadClean UC 0x01 I, ReadClean UC 0x11 I, ReadClean UD 0x09 SD, ReadClean UD 0x19 SD,
        ReadClean UD 0x0d SC, ReadClean UD 0x1d SC, ReadClean UD 0x05 I, ReadClean UD 0x15 I,
        ReadClean SC 0x08 SC, ReadClean SC 0x09 SC, ReadClean SC 0x00 I, ReadClean SC 0x01 I,
        ReadClean SD 0x09 SD, ReadClean SD 0x0d SC, ReadClean SD 0x05 I,
        ReadNotSharedDirty I 0x00 I, ReadNotSharedDirty UC 0x08 SC,
        ReadNotSharedDirty UC 0x18 SC, ReadNotSharedDirty UC 0x09 SC,
        ReadNotSharedDirty UC 0x19 SC, ReadNotSharedDirty UC 0x00 I,
        ReadNotSharedDirty UC 0x10 I, ReadNotSharedDirty UC 0x01 I,
        ReadNotSharedDirty UC 0x11 I, ReadNotSharedDirty UD 0x09 SD,
        ReadNotSharedDirty UD 0x19 SD, ReadNotSharedDirty UD 0x0d SC,
        ReadNotSharedDirty UD 0x1d SC, ReadNotSharedDirty UD 0x05 I,
        ReadNotSharedDirty UD 0x15 I, ReadNotSharedDirty SC 0x08 SC,
        ReadNotSharedDirty SC 0x09 SC, ReadNotSharedDirty SC 0x00 I,
        ReadNotSharedDirty SC 0x01 I, ReadNotSharedDirty SD 0x09 SD,
        ReadNotSharedDirty SD 0x0d SC, ReadNotSharedDirty SD 0x05 I, ReadUnique I 0x00 I,
        ReadUnique UC 0x00 I, ReadUnique UC 0x10 I, ReadUnique UC 0x01 I, ReadUnique UC 0x11 I,
        ReadUnique UD 0x05 I, ReadUnique UD 0x15 I, ReadUnique SC 0x00 I, ReadUnique SC 0x01 I,
        ReadUnique SD 0x05 I, CleanShared I 0x00 I, CleanShared UC 0x08 UC,
        CleanShared UC 0x18 UC, CleanShared UC 0x09 UC, CleanShared UC 0x19 UC,
        CleanShared UC 0x08 SC, CleanShared UC 0x18 SC, CleanShared UC 0x09 SC,
        CleanShared UC 0x19 SC, CleanShared UC 0x00 I, CleanShared UC 0x10 I,
        CleanShared UC 0x01 I, CleanShared UC 0x11 I, CleanShared UD 0x0d UC,
        CleanShared UD 0x1d UC, CleanShared UD 0x0d SC, CleanShared UD 0x1d SC,
        CleanShared UD 0x05 I, CleanShared UD 0x15 I, CleanShared SC 0x08 SC,
        CleanShared SC 0x09 SC, CleanShared SC 0x00 I, CleanShared SC 0x01 I,
        CleanShared SD 0x0d SC, CleanShared SD 0x05 I, CleanInvalid I 0x00 I,
        CleanInvalid UC 0x00 I, CleanInvalid UC 0x10 I, CleanInvalid UC 0x01 I,
        CleanInvalid UC 0x11 I, CleanInvalid UD 0x05 I, CleanInvalid UD 0x15 I,
        CleanInvalid SC 0x00 I, CleanInvalid SC 0x01 I, CleanInvalid SD 0x05 I,
        MakeInvalid I 0x00 I, MakeInvalid UC 0x00 I, MakeInvalid UC 0x10 I,
        MakeInvalid UD 0x00 I, MakeInvalid UD 0x10 I, MakeInvalid SC 0x00 I,
        MakeInvalid SD 0x00 I, DvmComplete I 0x00 I, DvmMessage I 0x00 I,
    )
}

/// The same of ports with a memory update of the line outstanding.
pub fn update_points() -> &'static [Point]
    ensures { result.now ≡ update_points }
{
    macro_rules! points {
        ($($kind:ident $held:ident $resp:literal $next:ident,)*) => {
            &[$(Point::AnswerWithUpdate {
                kind: SnoopKind::$kind,
                held: LineState::$held,
                resp: $resp,
                next: LineState::$next,
            }),*]
        };
    }
    points!(
        ReadOnce UC 0x08 UC, ReadOnce UC 0x18 UC, ReadOnce UC 0x09 UC, ReadOnce UC 0x19 UC,
        ReadOnce UC 0x08 SC, ReadOnce UC 0x18 SC, ReadOnce UC 0x09 SC, ReadOnce UC 0x19 SC,
        ReadOnce UD 0x09 UD, ReadOnce UD 0x19 UD, ReadOnce UD 0x09 SD, ReadOnce UD 0x19 SD,
        ReadOnce SC 0x08 SC, ReadOnce SC 0x09 SC, ReadOnce SD 0x09 SD, ReadShared UC 0x08 SC,
        ReadShared UC 0x18 SC, ReadShared UC 0x09 SC, ReadShared UC 0x19 SC,
        ReadShared UD 0x09 SD, ReadShared UD 0x19 SD, ReadShared SC 0x08 SC,
        ReadShared SC 0x09 SC, ReadShared SD 0x09 SD, ReadClean UC 0x08 SC,
        ReadClean UC 0x18 SC, ReadClean UC 0x09 SC, ReadClean UC 0x19 SC, ReadClean UD 0x09 SD,
        ReadClean UD 0x19 SD, ReadClean SC 0x08 SC, ReadClean SC 0x09 SC, ReadClean SD 0x09 SD,
        ReadNotSharedDirty UC 0x08 SC, ReadNotSharedDirty UC 0x18 SC,
        ReadNotSharedDirty UC 0x09 SC, ReadNotSharedDirty UC 0x19 SC,
        ReadNotSharedDirty UD 0x09 SD, ReadNotSharedDirty UD 0x19 SD,
        ReadNotSharedDirty SC 0x08 SC, ReadNotSharedDirty SC 0x09 SC,
        ReadNotSharedDirty SD 0x09 SD,
    )
}

/// The silent transitions.
pub fn silent_points() -> &'static [Point]
    ensures { result.now ≡ silent_points }
{
    macro_rules! points {
        ($($from:ident $to:ident,)*) => {
            &[$(Point::Silent { from: LineState::$from, to: LineState::$to }),*]
        };
    }
    points!(
        UC I, UC SC, UD SD, SC I,
    )
}

/// The rules, K4 to K40.
pub fn rule_points() -> &'static [Point]
    ensures { result.now ≡ rule_points }
{
    macro_rules! points {
        ($($rule:literal)*) => {
            &[$(Point::Rule { rule: $rule }),*]
        };
    }
    points!(
        4 5 6 7 8 9 10 11 12 13 14 15 16 17 18 19 20 21 22 23 24 25 26 27 28 29 30 31 32 33 34 35
        36 37 38 39 40
    )
}

/// The situations.
pub fn situation_points() -> &'static [Point]
    ensures { result.now ≡ situation_points }
{
    macro_rules! points {
        ($($situation:ident)*) => {
            &[$(Point::Met { situation: Situation::$situation }),*]
        };
    }
    points!(
        WaitsForGrant ThreeWantLine SnoopMeetsWriteBack SnoopMeetsWriteClean SnoopMeetsWriteEvict
        CleanUniqueLosesLine MakeUniqueLosesLine StorePassesRival DirtyLinePassed
        PassedLineWritten WriteUniqueMerged ReadMeetsStore TwoPortsSend DirtyOwnerAndSharer
        ThreeHolders WriteEvictBesideGrant AnswersOutOfOrder SnoopWaits TwoWritesSend BarrierWaits
        BarrierIgnored MessageWaits SyncOfThree DirtyLineDropped BytesLeftOut LoadAfterSnoop
        OperationFails OperationSkipped MemoryOpens SixteenOutstanding
    )
}
