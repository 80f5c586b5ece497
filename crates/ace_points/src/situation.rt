// Situations that designs get wrong.
ghost use Rattle.std.specs.Prelude.{◌≡◌};
ghost use Rattle.ace_points.specs.Same.{same_situation};

/// A situation that events can show: a race, or another thing that designs get wrong.
#[derive(Clone, Copy, Debug, PartialEq, Eq)]
pub enum Situation {
    /// A transaction is issued whose line is granted to another one.
    WaitsForGrant,
    /// A transaction has its grant while two other ports want one of the line.
    ThreeWantLine,
    /// A port answers a snoop of a line of which its WriteBack is outstanding.
    SnoopMeetsWriteBack,
    /// The same of a WriteClean.
    SnoopMeetsWriteClean,
    /// The same of a WriteEvict.
    SnoopMeetsWriteEvict,
    /// A snoop takes the line of an outstanding CleanUnique.
    CleanUniqueLosesLine,
    /// A snoop takes the line of an outstanding MakeUnique.
    MakeUniqueLosesLine,
    /// An exclusive store passes while another of the line is outstanding.
    StorePassesRival,
    /// A read has its first transfer of a dirty line that was passed to it.
    DirtyLinePassed,
    /// A dirty line that was passed to a read is written to memory.
    PassedLineWritten,
    /// A WriteUnique is merged into a dirty line that was passed to it.
    WriteUniqueMerged,
    /// A port stores to a line while a read of it is between its transfers.
    ReadMeetsStore,
    /// A port answers with data while another sends its own under the same grant.
    TwoPortsSend,
    /// A read leaves its port a sharer of a line that another port holds as SharedDirty.
    DirtyOwnerAndSharer,
    /// A read leaves its port a holder of a line that two others hold.
    ThreeHolders,
    /// A WriteEvict writes memory while its line is granted.
    WriteEvictBesideGrant,
    /// A port answers a snoop before another that was snooped of the line earlier.
    AnswersOutOfOrder,
    /// A port is snooped that has not answered an earlier snoop.
    SnoopWaits,
    /// A write is issued whose data stand behind those of another.
    TwoWritesSend,
    /// A barrier half is issued that has to wait for an earlier transaction.
    BarrierWaits,
    /// A transaction with AxBAR 2 is granted behind a barrier that is not complete.
    BarrierIgnored,
    /// A part of a DVM message is issued while another message waits for some port.
    MessageWaits,
    /// A Sync is completed of which two other ports were told.
    SyncOfThree,
    /// A MakeInvalid drops a dirty line.
    DirtyLineDropped,
    /// A word of a WriteUnique leaves bytes out.
    BytesLeftOut,
    /// A port loads from a line whose snoop it has answered, under the grant.
    LoadAfterSnoop,
    /// An operation fails.
    OperationFails,
    /// An operation is skipped.
    OperationSkipped,
    /// Memory opens with other than zeros.
    MemoryOpens,
    /// A transaction is issued as the sixteenth of its port that is outstanding.
    SixteenOutstanding,
}

/// Whether both situations are the same.
pub(crate) fn same_situation(one: Situation, other: Situation) -> bool
    ensures { result ≡ same_situation one other }
{
    one == other
}
