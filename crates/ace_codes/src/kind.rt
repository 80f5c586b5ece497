/// What a transaction on the read address channel is (Arm IHI 0022E, C3.1.3, ARSNOOP).
#[derive(Clone, Copy, Debug, PartialEq, Eq)]
pub enum ArKind {
    ReadNoSnoop,
    ReadOnce,
    ReadShared,
    ReadClean,
    ReadNotSharedDirty,
    ReadUnique,
    CleanUnique,
    MakeUnique,
    CleanShared,
    CleanInvalid,
    MakeInvalid,
    DvmComplete,
    DvmMessage,
    Barrier,
}

/// What a transaction on the write address channel is (Arm IHI 0022E, C3.1.3, AWSNOOP).
#[derive(Clone, Copy, Debug, PartialEq, Eq)]
pub enum AwKind {
    WriteNoSnoop,
    WriteUnique,
    WriteLineUnique,
    WriteClean,
    WriteBack,
    Evict,
    WriteEvict,
    Barrier,
}

/// What a snoop asks of the master that it reaches (Arm IHI 0022E, C3.6.1, ACSNOOP).
#[derive(Clone, Copy, Debug, PartialEq, Eq)]
pub enum SnoopKind {
    ReadOnce,
    ReadShared,
    ReadClean,
    ReadNotSharedDirty,
    ReadUnique,
    CleanShared,
    CleanInvalid,
    MakeInvalid,
    DvmComplete,
    DvmMessage,
}
