// The shapes of the fields of a record.
ghost use Rattle.std.specs.Prelude.{◌≡◌};
ghost use Rattle.std.specs.Option.{option_map};
ghost use Rattle.std.specs.Map.{lookup};
ghost use Rattle.std.specs.Str.{bytes_eq};
ghost use Rattle.ace_grammar.specs.Shapes.{own_records, shapes_of, snoop_records, write_records};

/// What a field of a record may be.
#[derive(Clone, Copy, Debug, PartialEq, Eq)]
pub enum Shape {
    /// A port: one lower-case hexadecimal digit in version 1, and two in version 2.
    Port,
    /// So many lower-case hexadecimal digits.
    Digits { count: usize },
    /// One such digit, of a number that isn't above the most.
    AtMost { most: u8 },
    /// Two such digits, of a number that isn't above 1f (hexadecimal).
    SnoopResponse,
    /// `R` or `W`.
    ChannelWord,
    /// `I`, `UC`, `UD`, `SC` or `SD`.
    StateWord,
    /// `ok`, `skip` or `fail`.
    OutcomeWord,
}

static AR: [Shape; 7] = [
    Shape::Port,
    Shape::Digits { count: 1 },
    Shape::Digits { count: 8 },
    Shape::Digits { count: 1 },
    Shape::AtMost { most: 3 },
    Shape::AtMost { most: 3 },
    Shape::AtMost { most: 1 },
];

static R: [Shape; 5] = [
    Shape::Port,
    Shape::Digits { count: 1 },
    Shape::Digits { count: 1 },
    Shape::AtMost { most: 1 },
    Shape::Digits { count: 32 },
];

static RK: [Shape; 2] = [Shape::Port, Shape::StateWord];

static AW: [Shape; 6] = [
    Shape::Port,
    Shape::Digits { count: 1 },
    Shape::Digits { count: 8 },
    Shape::AtMost { most: 7 },
    Shape::AtMost { most: 3 },
    Shape::AtMost { most: 3 },
];

static W: [Shape; 4] = [
    Shape::Port,
    Shape::Digits { count: 4 },
    Shape::AtMost { most: 1 },
    Shape::Digits { count: 32 },
];

static B: [Shape; 3] = [
    Shape::Port,
    Shape::Digits { count: 1 },
    Shape::AtMost { most: 3 },
];

static WK: [Shape; 2] = [Shape::Port, Shape::StateWord];

static AC: [Shape; 3] = [
    Shape::Port,
    Shape::Digits { count: 8 },
    Shape::Digits { count: 1 },
];

static CR: [Shape; 3] = [Shape::Port, Shape::SnoopResponse, Shape::StateWord];

static CD: [Shape; 3] = [
    Shape::Port,
    Shape::AtMost { most: 1 },
    Shape::Digits { count: 32 },
];

static G: [Shape; 3] = [Shape::Port, Shape::ChannelWord, Shape::Digits { count: 1 }];

static M: [Shape; 4] = [
    Shape::Port,
    Shape::ChannelWord,
    Shape::Digits { count: 1 },
    Shape::Digits { count: 128 },
];

static S: [Shape; 3] = [Shape::Port, Shape::Digits { count: 8 }, Shape::StateWord];

static L: [Shape; 5] = [
    Shape::Port,
    Shape::Digits { count: 8 },
    Shape::AtMost { most: 3 },
    Shape::AtMost { most: 1 },
    Shape::Digits { count: 32 },
];

static D: [Shape; 5] = [
    Shape::Port,
    Shape::Digits { count: 8 },
    Shape::Digits { count: 16 },
    Shape::AtMost { most: 1 },
    Shape::Digits { count: 128 },
];

static OP: [Shape; 3] = [Shape::Port, Shape::Digits { count: 4 }, Shape::OutcomeWord];

static MEM: [Shape; 2] = [Shape::Digits { count: 8 }, Shape::Digits { count: 128 }];

/// The shapes of the fields behind this word, where it is that of a record of what a port does on
/// its own.
fn own_shapes_of(word: &[u8]) -> Option<&'static [Shape]>
    ensures { option_map (λ shapes. shapes.now) result ≡ lookup (bytes_eq word.now) own_records }
{
    if word == b"S".as_slice() {
        Some(&S)
    } else if word == b"L".as_slice() {
        Some(&L)
    } else if word == b"D".as_slice() {
        Some(&D)
    } else if word == b"OP".as_slice() {
        Some(&OP)
    } else {
        None
    }
}

/// The same of these, of the snoop channels and of the interconnect.
fn snoop_shapes_of(word: &[u8]) -> Option<&'static [Shape]>
    ensures { option_map (λ shapes. shapes.now) result ≡ lookup (bytes_eq word.now) snoop_records }
{
    if word == b"AC".as_slice() {
        Some(&AC)
    } else if word == b"CR".as_slice() {
        Some(&CR)
    } else if word == b"CD".as_slice() {
        Some(&CD)
    } else if word == b"G".as_slice() {
        Some(&G)
    } else if word == b"M".as_slice() {
        Some(&M)
    } else {
        own_shapes_of(word)
    }
}

/// The same of these and of the write channels.
fn write_shapes_of(word: &[u8]) -> Option<&'static [Shape]>
    ensures { option_map (λ shapes. shapes.now) result ≡ lookup (bytes_eq word.now) write_records }
{
    if word == b"AW".as_slice() {
        Some(&AW)
    } else if word == b"W".as_slice() {
        Some(&W)
    } else if word == b"B".as_slice() {
        Some(&B)
    } else if word == b"WK".as_slice() {
        Some(&WK)
    } else {
        snoop_shapes_of(word)
    }
}

/// The same of all records of version 1.
fn first_shapes_of(word: &[u8]) -> Option<&'static [Shape]>
    ensures { option_map (λ shapes. shapes.now) result ≡ shapes_of 1 word.now }
{
    if word == b"AR".as_slice() {
        Some(&AR)
    } else if word == b"R".as_slice() {
        Some(&R)
    } else if word == b"RK".as_slice() {
        Some(&RK)
    } else {
        write_shapes_of(word)
    }
}

/// The shapes of the fields behind this word, where it is a record word of the version.
pub fn shapes_of(word: &[u8], version: u8) -> Option<&'static [Shape]>
    ensures { option_map (λ shapes. shapes.now) result ≡ shapes_of version word.now }
{
    if version == 1 {
        first_shapes_of(word)
    } else if word == b"MEM".as_slice() {
        Some(&MEM)
    } else {
        first_shapes_of(word)
    }
}
