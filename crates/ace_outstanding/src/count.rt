// How many transactions are outstanding.
ghost use Rattle.std.specs.Prelude.{◌≡◌, ◌+◌, length};
ghost use Rattle.ace_event.specs.declared.event.Channel.TheVariants.{Read, Write};
ghost use Rattle.ace_outstanding.specs.Outstanding.{outstanding_count};
ghost use Rattle.ace_portck.specs.Pending.{pending_of};
ghost use Rattle.ace_portck.specs.Stands.{Stands};
ghost use Rattle.ace_portck.specs.Targets.{Recording};

use ace_portck::PortCheck;

/// How many transactions of the port are outstanding.
fn count_at(ports: &PortCheck, port: u8) -> usize
    ensures { (r : Recording) → Stands ports.now r
        → result ≡ length (pending_of r.header r.past port Read)
        + length (pending_of r.header r.past port Write) }
{
    // They are no more than the events, which are counted.
    let _events = ports.place();
    ports
        .reads(port)
        .len()
        .wrapping_add(ports.writes(port).len())
}

/// How many transactions are outstanding after the trace whose ports these are.
pub fn count_outstanding(ports: &PortCheck) -> u64
    ensures { (r : Recording) → Stands ports.now r
        → result ≡ outstanding_count r.header r.past }
{
    let _events = ports.place();
    let mut count = 0usize;
    for port in 0..ports.header().ports {
        count = count.wrapping_add(count_at(ports, port));
    }
    count as u64
}
