ghost use Rattle.std.specs.Prelude.{⊤, [], ◌∷◌, codes};

use bitflags::{Flag, Flags, bitflag_items};

/// The response of a read transfer (Arm IHI 0022E, C3.2.1, RRESP).
#[derive(Clone, Copy, Debug, PartialEq, Eq)]
pub struct RResp(u8);

bitflag_items! {
    impl RResp: u8 {
        const EXOKAY = 1;
        const SLVERR = 2;
        const PASS_DIRTY = 4;
        const IS_SHARED = 8;
    }
}

impl Flags for RResp {
    type Bits = u8;

    ghost exact = { ⊤ };

    ghost table = { (codes "EXOKAY", 1) ∷ (codes "SLVERR", 2) ∷ (codes "PASS_DIRTY", 4) ∷ (codes "IS_SHARED", 8) ∷ [] };

    ghost set_of = { λ r. r.0 };

    fn flags<'a>() -> &'a [Flag<RResp>] {
        RResp::FLAGS
    }

    fn bits(&self) -> u8 {
        self.0
    }

    fn from_bits_retain(bits: u8) -> RResp {
        RResp(bits)
    }
}

/// The response to a snoop (Arm IHI 0022E, C3.7, CRRESP).
#[derive(Clone, Copy, Debug, PartialEq, Eq)]
pub struct CrResp(u8);

bitflag_items! {
    impl CrResp: u8 {
        const DATA_TRANSFER = 1;
        const ERROR = 2;
        const PASS_DIRTY = 4;
        const IS_SHARED = 8;
        const WAS_UNIQUE = 16;
    }
}

impl Flags for CrResp {
    type Bits = u8;

    ghost exact = { ⊤ };

    ghost table = { (codes "DATA_TRANSFER", 1) ∷ (codes "ERROR", 2) ∷ (codes "PASS_DIRTY", 4) ∷ (codes "IS_SHARED", 8) ∷ (codes "WAS_UNIQUE", 16) ∷ [] };

    ghost set_of = { λ r. r.0 };

    fn flags<'a>() -> &'a [Flag<CrResp>] {
        CrResp::FLAGS
    }

    fn bits(&self) -> u8 {
        self.0
    }

    fn from_bits_retain(bits: u8) -> CrResp {
        CrResp(bits)
    }
}
