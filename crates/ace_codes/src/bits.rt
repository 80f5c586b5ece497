// The bits of RRESP and CRRESP, told from the number.
ghost use Rattle.std.specs.Prelude.{◌≡◌};
ghost use Rattle.ace_codes.specs.Responses.{transfers_data, has_error, passes_dirty, is_shared, was_unique, low_bits};

/// Whether CRRESP says that snoop data follow (DataTransfer).
pub fn transfers_data(resp: u8) -> bool
    ensures { result ≡ transfers_data resp }
{
    resp & 1 == 1
}

/// Whether CRRESP says that there was an error (Error).
pub fn has_error(resp: u8) -> bool
    ensures { result ≡ has_error resp }
{
    resp & 2 == 2
}

/// Whether RRESP or CRRESP hands on the duty to write the line to memory (PassDirty).
pub fn passes_dirty(resp: u8) -> bool
    ensures { result ≡ passes_dirty resp }
{
    resp & 4 == 4
}

/// Whether RRESP or CRRESP says that another master may hold the line (IsShared).
pub fn is_shared(resp: u8) -> bool
    ensures { result ≡ is_shared resp }
{
    resp & 8 == 8
}

/// Whether CRRESP says that the line was held unique before the snoop (WasUnique).
pub fn was_unique(resp: u8) -> bool
    ensures { result ≡ was_unique resp }
{
    resp & 16 == 16
}

/// The low two bits of RRESP and BRESP: 0 OKAY, 1 EXOKAY, 2 SLVERR, 3 DECERR.
pub fn low_bits(resp: u8) -> u8
    ensures { result ≡ low_bits resp }
{
    resp % 4
}
