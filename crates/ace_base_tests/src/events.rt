// Stores and ports, written out by hand.

use ace_event::{Header, Line, PortKind, kind_of, merge};

#[test]
fn stores_bytes(rt: HostRuntime) {
    let zeros = Line { words: [0; 4] };
    let words = [
        0x0001_0203_0405_0607_0809_0a0b_0c0d_0e0f,
        0x1011_1213_1415_1617_1819_1a1b_1c1d_1e1f,
        0x2021_2223_2425_2627_2829_2a2b_2c2d_2e2f,
        0x3031_3233_3435_3637_3839_3a3b_3c3d_3e3f,
    ];
    let bytes = Line { words };
    let cases = [
        (0, [0, 0, 0, 0]),
        (u64::MAX, words),
        // byte 1, the second in order of address
        (2, [0x0001_0000_0000_0000_0000_0000_0000_0000, 0, 0, 0]),
        // the last byte of word 0, and the first of word 1
        (0x1_8000, [15, 0x10 << 120, 0, 0]),
        (1 << 63, [0, 0, 0, 0x3f]),
        (0xff << 32, [0, 0, 0x2021_2223_2425_2627 << 64, 0]),
    ];
    for (strobe, words) in cases {
        assert_eq!(rt; merge(zeros, strobe, bytes), Line { words });
        assert_eq!(rt; merge(bytes, !strobe, zeros), Line { words });
    }
}

#[test]
fn tells_kinds_of_ports(rt: HostRuntime) {
    let header = Header {
        version: 1,
        ports: 3,
        ace: 0b101,
    };
    let kinds = [
        (0, Some(PortKind::Ace)),
        (1, Some(PortKind::Lite)),
        (2, Some(PortKind::Ace)),
        (3, None),
        (255, None),
    ];
    for (port, kind) in kinds {
        assert_eq!(rt; kind_of(&header, port), kind);
    }
    let wide = Header {
        version: 2,
        ports: 32,
        ace: 0xffff_0000,
    };
    let wide_kinds = [
        (15, Some(PortKind::Lite)),
        (16, Some(PortKind::Ace)),
        (31, Some(PortKind::Ace)),
        (32, None),
    ];
    for (port, kind) in wide_kinds {
        assert_eq!(rt; kind_of(&wide, port), kind);
    }
}
