//! The data that the writes of operations carry.

ghost use Rattle.std.specs.Prelude.{◌≡◌, ◌<◌};
ghost use Rattle.ace_master.specs.Operations.{beat_of, beats_of_data, write_data};

use ace_event::Event;
use ace_model::Op;
use ace_portck::WriteData;

/// What the write of the operation carries.
pub fn data_of(op: Op) -> Option<WriteData>
    ensures { result ≡ write_data op }
{
    match op {
        Op::Wu { strobe, line, .. } | Op::Wn { strobe, line, .. } => {
            Some(WriteData { strobe, line })
        }
        Op::Wlu { line, .. } => Some(WriteData {
            strobe: u64::MAX,
            line,
        }),
        _ => None,
    }
}

/// The port's W with the beat of this number.
fn beat(port: u8, carried: &WriteData, number: u8) -> Event
    requires { number < 4 }
    ensures { result ≡ beat_of port carried.now number }
{
    Event::W {
        port,
        strb: (carried.strobe >> (16 * number) & 0xffff) as u16,
        last: number == 3,
        word: carried.line.words[usize::from(number)],
    }
}

/// The port's W of a whole burst.
pub fn beats(port: u8, carried: &WriteData) -> [Event; 4]
    ensures { result ≡ beats_of_data port carried.now }
{
    [
        beat(port, carried, 0),
        beat(port, carried, 1),
        beat(port, carried, 2),
        beat(port, carried, 3),
    ]
}
