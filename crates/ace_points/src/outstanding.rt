// The outstanding transactions of a port.
ghost use Rattle.std.specs.Prelude.{◌≡◌, ◌||◌, map};
ghost use Rattle.std.specs.List.{list_any};
ghost use Rattle.ace_model.specs.Transactions.{is_line};
ghost use Rattle.ace_points.specs.Asked.{has_line_transaction, outstanding_count};
ghost use Rattle.ace_portck.specs.Pending.{pending_of};
ghost use Rattle.ace_portck.specs.Stands.{Stands as PortsTell};
ghost use Rattle.ace_portck.specs.Targets.{Recording, progress_of};

use ace_event::Channel;
use ace_model::kinds::is_line;
use ace_portck::{PortCheck, Progress};

/// Those of the port on the channel.
fn list_of(ports: &PortCheck, port: u8, chan: Channel) -> &[Progress]
    ensures { (r : Recording) → PortsTell ports.now r
        → result.now
        ≡ map (progress_of r.header r.past) (pending_of r.header r.past port chan) }
{
    match chan {
        Channel::Read => ports.reads(port),
        Channel::Write => ports.writes(port),
    }
}

/// How many there are.
pub(crate) fn outstanding_count(ports: &PortCheck, port: u8, chan: Channel) -> usize
    ensures { (r : Recording) → PortsTell ports.now r
        → result ≡ outstanding_count r.header r.past port chan }
{
    list_of(ports, port, chan).len()
}

/// One of the list is a line transaction.
fn has_line(list: &[Progress]) -> bool
    ensures { result ≡ list_any (λ x. is_line x.transaction) list.now }
{
    list.iter().any(|x| is_line(&x.transaction))
}

/// A line transaction of the port is outstanding.
pub(crate) fn has_line_transaction(ports: &PortCheck, port: u8) -> bool
    ensures { (r : Recording) → PortsTell ports.now r
        → result ≡ has_line_transaction r.header r.past port }
{
    has_line(ports.reads(port)) || has_line(ports.writes(port))
}
