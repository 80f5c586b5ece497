//! The burst of write data that a port sends next.

ghost use Rattle.std.specs.Prelude.{◌≡◌, ◌&&◌, ℕ, true, false, [], None, Some, IsTrue, is_some, ◌==◌};
ghost use Rattle.ace_model.specs.declared.transactions.Transaction.{Transaction};
ghost use Rattle.ace_model.specs.Plans.{Plan};
ghost use Rattle.ace_model.specs.Trace.{Trace};
ghost use Rattle.ace_model.specs.Values.{stores_data};
ghost use Rattle.ace_model.specs.Writes.{next_write, next_write_beat};
ghost use Rattle.ace_runs.specs.MasterSteps.{may_send};
ghost use Rattle.ace_portck.specs.OnePort.{port_of};
ghost use Rattle.ace_master_state.specs.Cached.{CachedStands};
ghost use Rattle.ace_master.specs.KeptPort.{KeepsPort};
ghost use Rattle.ace_master.specs.Operations.{beats_of_data};
ghost use Rattle.ace_master.specs.Sending.{IsDataOf, IsSent, KeepsData};

use crate::operations::beats;
use crate::pushing::push_all;
use ace_codes::AwKind;
use ace_engine::Burst;
use ace_master_state::Cached;
use ace_model::Transaction;
use ace_model::kinds::write_kind;
use ace_portck::{OnePort, WriteData};

/// The write carries the data of the operation for which it was issued.
fn stores_data(write: &Transaction) -> bool
    ensures { result ≡ stores_data write.now }
{
    matches!(
        write_kind(write),
        Some(AwKind::WriteUnique | AwKind::WriteLineUnique | AwKind::WriteNoSnoop)
    )
}

/// What the port's next write carries: the data of its operation, or the port's copy of the line
/// that it writes back.
fn data_to_send(cached: &Cached, write: &Transaction, unsent: Option<WriteData>) -> WriteData
    ensures { (plan : Plan) (past : Trace) (p : ℕ) → KeepsData plan past p unsent
        → CachedStands plan.header plan.ways past p cached.now
        → IsDataOf plan past p write.now result }
{
    match unsent {
        Some(data) if stores_data(write) => data,
        _ => WriteData {
            strobe: u64::MAX,
            line: cached.copy(write.addr),
        },
    }
}

/// Puts the four W of the port's oldest write with data whose burst isn't sent. `unsent` are the
/// data of the operation for which that was issued, where it was for one's data.
pub fn send(port: &OnePort, cached: &Cached, unsent: Option<WriteData>, out: &mut Burst) -> bool
    requires { out.old ≡ [] }
    ensures sent { IsTrue result → (plan : Plan) (past : Trace) → KeepsPort port.now plan past
        → CachedStands plan.header plan.ways past (port_of port.now) cached.now
        → KeepsData plan past (port_of port.now) unsent
        → IsSent plan past (port_of port.now) out.new }
    ensures none { result ≡ false → (plan : Plan) (past : Trace)
        → KeepsPort port.now plan past → may_send plan.header past (port_of port.now) ≡ false }
    ensures unchanged { result ≡ false → out.new ≡ [] }
{
    if port.next_write_beat() != 0 {
        return false;
    }
    let Some(write) = port.next_write() else {
        return false;
    };
    let data = data_to_send(cached, &write, unsent);
    push_all(&beats(port.port(), &data), out);
    true
}
