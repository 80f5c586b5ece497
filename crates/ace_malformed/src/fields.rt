// The fields behind a record word.
ghost use Rattle.std.specs.Prelude.{◌≡◌};
ghost use Rattle.std.specs.Map.{lookup};
ghost use Rattle.std.specs.Option.{option_map};
ghost use Rattle.std.specs.Str.{bytes_eq};
ghost use Rattle.ace_malformed.specs.Fields.{fields_of, own_fields, snoop_fields, write_fields};

use crate::field::Field;

static AR: [Field; 7] = [
    Field::Port,
    Field::Id,
    Field::Address,
    Field::Snoop,
    Field::Domain,
    Field::Barrier,
    Field::Lock,
];

static R: [Field; 5] = [
    Field::Port,
    Field::Id,
    Field::ReadResponse,
    Field::Last,
    Field::Word,
];

static RK: [Field; 2] = [Field::Port, Field::State];

static AW: [Field; 6] = [
    Field::Port,
    Field::Id,
    Field::Address,
    Field::WriteSnoop,
    Field::Domain,
    Field::Barrier,
];

static W: [Field; 4] = [Field::Port, Field::WordStrobes, Field::Last, Field::Word];

static B: [Field; 3] = [Field::Port, Field::Id, Field::WriteResponse];

static WK: [Field; 2] = [Field::Port, Field::State];

static AC: [Field; 3] = [Field::Port, Field::Address, Field::Snoop];

static CR: [Field; 3] = [Field::Port, Field::SnoopResponse, Field::State];

static CD: [Field; 3] = [Field::Port, Field::Last, Field::Word];

static G: [Field; 3] = [Field::Port, Field::Channel, Field::Id];

static M: [Field; 4] = [Field::Port, Field::Channel, Field::Id, Field::Line];

static S: [Field; 3] = [Field::Port, Field::Address, Field::State];

static L: [Field; 5] = [
    Field::Port,
    Field::Address,
    Field::Place,
    Field::Exclusive,
    Field::Word,
];

static D: [Field; 5] = [
    Field::Port,
    Field::Address,
    Field::LineStrobes,
    Field::Exclusive,
    Field::Line,
];

static OP: [Field; 3] = [Field::Port, Field::Operation, Field::Outcome];

static MEM: [Field; 2] = [Field::Address, Field::Line];

/// The fields behind this word, where it is that of a record of what a port does on its own.
fn own_fields_of(word: &[u8]) -> Option<&'static [Field]>
    ensures { option_map (λ fields. fields.now) result ≡ lookup (bytes_eq word.now) own_fields }
{
    if word == b"S".as_slice() {
        Some(&S)
    } else if word == b"L".as_slice() {
        Some(&L)
    } else if word == b"D".as_slice() {
        Some(&D)
    } else if word == b"OP".as_slice() {
        Some(&OP)
    } else {
        None
    }
}

/// The same of these, of the snoop channels and of the interconnect.
fn snoop_fields_of(word: &[u8]) -> Option<&'static [Field]>
    ensures { option_map (λ fields. fields.now) result ≡ lookup (bytes_eq word.now) snoop_fields }
{
    if word == b"AC".as_slice() {
        Some(&AC)
    } else if word == b"CR".as_slice() {
        Some(&CR)
    } else if word == b"CD".as_slice() {
        Some(&CD)
    } else if word == b"G".as_slice() {
        Some(&G)
    } else if word == b"M".as_slice() {
        Some(&M)
    } else {
        own_fields_of(word)
    }
}

/// The same of these and of the write channels.
fn write_fields_of(word: &[u8]) -> Option<&'static [Field]>
    ensures { option_map (λ fields. fields.now) result ≡ lookup (bytes_eq word.now) write_fields }
{
    if word == b"AW".as_slice() {
        Some(&AW)
    } else if word == b"W".as_slice() {
        Some(&W)
    } else if word == b"B".as_slice() {
        Some(&B)
    } else if word == b"WK".as_slice() {
        Some(&WK)
    } else {
        snoop_fields_of(word)
    }
}

/// The same of all records of version 1.
fn first_fields_of(word: &[u8]) -> Option<&'static [Field]>
    ensures { option_map (λ fields. fields.now) result ≡ fields_of 1 word.now }
{
    if word == b"AR".as_slice() {
        Some(&AR)
    } else if word == b"R".as_slice() {
        Some(&R)
    } else if word == b"RK".as_slice() {
        Some(&RK)
    } else {
        write_fields_of(word)
    }
}

/// The fields behind this word, where it is a record word of the version.
pub(crate) fn fields_of(word: &[u8], version: u8) -> Option<&'static [Field]>
    ensures { option_map (λ fields. fields.now) result ≡ fields_of version word.now }
{
    if version == 1 {
        first_fields_of(word)
    } else if word == b"MEM".as_slice() {
        Some(&MEM)
    } else {
        first_fields_of(word)
    }
}
