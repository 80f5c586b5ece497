// What situations are called.
ghost use Rattle.std.specs.Prelude.{◌≡◌};
ghost use Rattle.ace_cover.specs.Names.{situation_name};

use ace_points::Situation;

/// What the situation is called.
pub(crate) fn situation_name(situation: Situation) -> &'static [u8]
    ensures { result.now ≡ situation_name situation }
{
    match situation {
        Situation::WaitsForGrant =>
            b"a transaction waits for the grant of a line that another holds",
        Situation::ThreeWantLine => b"three transactions want one line",
        Situation::SnoopMeetsWriteBack => b"a snoop meets an outstanding WriteBack",
        Situation::SnoopMeetsWriteClean => b"a snoop meets an outstanding WriteClean",
        Situation::SnoopMeetsWriteEvict => b"a snoop meets an outstanding WriteEvict",
        Situation::CleanUniqueLosesLine => b"a CleanUnique loses its line",
        Situation::MakeUniqueLosesLine => b"a MakeUnique loses its line",
        Situation::StorePassesRival => b"an exclusive store passes and another is pending",
        Situation::DirtyLinePassed => b"a dirty line is passed to a reader",
        Situation::PassedLineWritten => b"a passed dirty line is written to memory for the reader",
        Situation::WriteUniqueMerged => b"a WriteUnique is merged into a passed dirty line",
        Situation::ReadMeetsStore => b"a read goes on while its line is stored to",
        Situation::TwoPortsSend => b"two ports send data under one grant",
        Situation::DirtyOwnerAndSharer => b"a dirty owner and a sharer at once",
        Situation::ThreeHolders => b"three holders of one line",
        Situation::WriteEvictBesideGrant => b"a WriteEvict writes memory while its line is granted",
        Situation::AnswersOutOfOrder => b"snoop answers come in another order than the snoops",
        Situation::SnoopWaits => b"a snoop waits behind another",
        Situation::TwoWritesSend => b"write data of two writes are under way at a port",
        Situation::BarrierWaits => b"a barrier waits for an earlier transaction",
        Situation::BarrierIgnored => b"a transaction ignores a barrier (AxBAR 2)",
        Situation::MessageWaits => b"a DVM message waits behind another",
        Situation::SyncOfThree => b"a Sync is completed of which two other ports were told",
        Situation::DirtyLineDropped => b"a MakeInvalid drops a dirty line",
        Situation::BytesLeftOut => b"a WriteUnique leaves bytes out",
        Situation::LoadAfterSnoop => b"a load after a snoop that kept the line",
        Situation::OperationFails => b"an operation fails",
        Situation::OperationSkipped => b"an operation is skipped",
        Situation::MemoryOpens => b"memory opens with other than zeros",
        Situation::SixteenOutstanding => b"sixteen transactions of a port are outstanding",
    }
}
