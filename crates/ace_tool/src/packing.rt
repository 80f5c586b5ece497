// Files that are compressed, by their first bytes.
ghost use Rattle.std.specs.Prelude.{◌≡◌};
ghost use Rattle.ace_tool.specs.Packing.{advice_of, packing_of};

/// How a file is compressed.
#[derive(Clone, Copy)]
pub enum Packing {
    Gzip,
    Zstd,
    Xz,
}

/// How a file is compressed of which these are the first bytes, four of them if it has as many.
pub(crate) fn packing_of(front: &[u8]) -> Option<Packing>
    ensures { result ≡ packing_of front.now }
{
    match front {
        [0x1f, 0x8b, ..] => Some(Packing::Gzip),
        [0x28, 0xb5, 0x2f, 0xfd, ..] => Some(Packing::Zstd),
        [0xfd, 0x37, 0x7a, ..] => Some(Packing::Xz),
        _ => None,
    }
}

/// What is said of such a file before its name.
pub(crate) fn advice_of(packing: Packing) -> &'static str
    ensures { result.now ≡ advice_of packing }
{
    match packing {
        Packing::Gzip => "compressed; use: gzip -dc ",
        Packing::Zstd => "compressed; use: zstd -dc ",
        Packing::Xz => "compressed; use: xz -dc ",
    }
}
