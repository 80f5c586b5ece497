// How many numbers have a kind, and the bits of responses.

use ace_codes::{
    ArKind, AwKind, Bar, CrResp, Domain, RResp, SnoopKind, ac_code, ar_code, aw_code, read_ac,
    read_ar, read_aw, read_bar, read_domain,
};
use bitflags::Flags;

/// How many codes of an AR have a kind, in this domain with this barrier.
fn reads_of(domain: u8, bar: u8) -> usize {
    (0..16u8)
        .filter(|snoop| read_ar(*snoop, domain, bar).is_some())
        .count()
}

/// How many codes of an AW have a kind, in this domain with this barrier.
fn writes_of(domain: u8, bar: u8) -> usize {
    (0..8u8)
        .filter(|snoop| read_aw(*snoop, domain, bar).is_some())
        .count()
}

#[test]
fn counts_of_codes(rt: HostRuntime) {
    let mut reads = 0usize;
    let mut writes = 0usize;
    for place in 0..16u8 {
        reads = reads.wrapping_add(reads_of(place % 4, place / 4));
        writes = writes.wrapping_add(writes_of(place % 4, place / 4));
    }
    let snoops = (0..16u8).filter(|snoop| read_ac(*snoop).is_some()).count();
    assert_eq!(rt; (reads, writes, snoops), (60, 36, 10));
}

#[test]
fn reads_codes_of_reads(rt: HostRuntime) {
    let reads = [
        ((0, 0, 0), Some(ArKind::ReadNoSnoop)),
        ((0, 3, 2), Some(ArKind::ReadNoSnoop)),
        ((0, 1, 0), Some(ArKind::ReadOnce)),
        ((7, 2, 2), Some(ArKind::ReadUnique)),
        ((11, 1, 0), Some(ArKind::CleanUnique)),
        ((15, 2, 0), Some(ArKind::DvmMessage)),
        ((0, 2, 3), Some(ArKind::Barrier)),
        ((7, 0, 0), None),
        ((4, 1, 0), None),
        ((1, 1, 1), None),
        ((0, 4, 1), None),
        ((0, 1, 4), None),
        ((255, 1, 0), None),
    ];
    for ((snoop, domain, bar), kind) in reads {
        assert_eq!(rt; read_ar(snoop, domain, bar), kind, "{snoop} {domain} {bar}");
    }
}

#[test]
fn reads_codes_of_writes(rt: HostRuntime) {
    let writes = [
        ((0, 3, 0), Some(AwKind::WriteNoSnoop)),
        ((0, 2, 2), Some(AwKind::WriteUnique)),
        ((3, 1, 0), Some(AwKind::WriteBack)),
        ((5, 2, 0), Some(AwKind::WriteEvict)),
        ((0, 0, 1), Some(AwKind::Barrier)),
        ((3, 0, 0), None),
        ((6, 1, 0), None),
        ((2, 1, 3), None),
    ];
    for ((snoop, domain, bar), kind) in writes {
        assert_eq!(rt; read_aw(snoop, domain, bar), kind, "{snoop} {domain} {bar}");
    }
}

#[test]
fn reads_snoops_domains_and_barriers(rt: HostRuntime) {
    assert!(rt; read_ac(13) == Some(SnoopKind::MakeInvalid) && read_ac(11) == None);
    assert!(rt; read_domain(2) == Some(Domain::Outer) && read_domain(4) == None);
    assert!(rt; read_bar(3) == Some(Bar::Synchronisation) && read_bar(4) == None);
}

#[test]
fn tells_codes(rt: HostRuntime) {
    let codes = [
        (ar_code(ArKind::MakeUnique), 12),
        (aw_code(AwKind::Evict), 4),
        (ac_code(SnoopKind::DvmComplete), 14),
    ];
    for (code, wanted) in codes {
        assert_eq!(rt; code, wanted);
    }
}

#[test]
fn bits_of_responses(rt: HostRuntime) {
    let read = RResp::from_bits_retain(13);
    let snoop = CrResp::from_bits_retain(25);
    let bits = [
        (read.contains(RResp::EXOKAY), true),
        (read.contains(RResp::SLVERR), false),
        (read.contains(RResp::PASS_DIRTY), true),
        (read.contains(RResp::IS_SHARED), true),
        (snoop.contains(CrResp::DATA_TRANSFER), true),
        (snoop.contains(CrResp::ERROR), false),
        (snoop.contains(CrResp::PASS_DIRTY), false),
        (snoop.contains(CrResp::IS_SHARED), true),
        (snoop.contains(CrResp::WAS_UNIQUE), true),
        (CrResp::from_bits(32).is_some(), false),
        (RResp::from_bits(15).is_some(), true),
    ];
    for (n, (is_set, wanted)) in bits.iter().enumerate() {
        assert_eq!(rt; *is_set, *wanted, "bit {n}");
    }
}
