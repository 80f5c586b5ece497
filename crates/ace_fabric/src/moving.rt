//! A step of one engine, which the others hear.

ghost use Rattle.std.specs.Prelude.{◌≡◌, ◌<◌, false, [], IsTrue};
ghost use Rattle.ace_model.specs.Plans.{Plan};
ghost use Rattle.ace_model.specs.Trace.{Trace};
ghost use Rattle.ace_runs.specs.Steps.{is_enabled_by};
ghost use Rattle.ace_engine.specs.Engines.{Home as OfHome, Master as OfMaster, Order as OfOrder, Update as OfUpdates, numbers_of};
ghost use Rattle.ace_home.specs.Among.{HasHolders, PortSets, is_enabled_among, is_enabled_by_among};
ghost use Rattle.ace_fabric.specs.Parts.{AreEngines, HaveMoved};

use crate::hearing::{hear, hear_all};
use ace_engine::{Burst, Engine};
use ace_home::LineEngine;
use ace_model::Among;

/// A step of the port's master.
pub fn by_master<H: Engine, U: Engine, O: Engine, M: Engine>(
    home: &mut H,
    update: &mut U,
    order: &mut O,
    masters: &mut [M],
    port: u8,
    out: &mut Burst,
) -> bool
    requires run { (plan : Plan) × (past : Trace)
        × AreEngines H.Engine U.Engine O.Engine M.Engine plan past home.old
        update.old order.old masters.old × (port < plan.header.ports) }
    requires empty { out.old ≡ [] }
    ensures moved { IsTrue result → (among : PortSets)
        → HaveMoved among H.Engine U.Engine O.Engine M.Engine port out.new
        home.old update.old order.old masters.old home.new update.new order.new masters.new }
    ensures none { result ≡ false → (plan : Plan) (past : Trace)
        → AreEngines H.Engine U.Engine O.Engine M.Engine plan past home.old
        update.old order.old masters.old
        → is_enabled_by (numbers_of OfMaster) plan past port ≡ false }
    ensures unchanged { result ≡ false → (home.new ≡ home.old) × (update.new ≡ update.old)
        × (order.new ≡ order.old) × (masters.new ≡ masters.old) × (out.new ≡ []) }
{
    let own = usize::from(port);
    if !masters[own].turn(port, out) {
        return false;
    }
    hear_all(update, order, masters, own, out);
    hear(home, out);
    true
}

/// A step of the engine of memory updates.
pub fn by_update<H: Engine, U: Engine, O: Engine, M: Engine>(
    home: &mut H,
    update: &mut U,
    order: &mut O,
    masters: &mut [M],
    port: u8,
    out: &mut Burst,
) -> bool
    requires run { (plan : Plan) × (past : Trace)
        × AreEngines H.Engine U.Engine O.Engine M.Engine plan past home.old
        update.old order.old masters.old × (port < plan.header.ports) }
    requires empty { out.old ≡ [] }
    ensures moved { IsTrue result → (among : PortSets)
        → HaveMoved among H.Engine U.Engine O.Engine M.Engine port out.new
        home.old update.old order.old masters.old home.new update.new order.new masters.new }
    ensures none { result ≡ false → (plan : Plan) (past : Trace)
        → AreEngines H.Engine U.Engine O.Engine M.Engine plan past home.old
        update.old order.old masters.old
        → is_enabled_by (numbers_of OfUpdates) plan past port ≡ false }
    ensures unchanged { result ≡ false → (home.new ≡ home.old) × (update.new ≡ update.old)
        × (order.new ≡ order.old) × (masters.new ≡ masters.old) × (out.new ≡ []) }
{
    if !update.turn(port, out) {
        return false;
    }
    let none = masters.len();
    hear_all(home, order, masters, none, out);
    true
}

/// A step of the home, which snoops only ports of the sets.
pub fn by_home<H: LineEngine, U: Engine, O: Engine, M: Engine, F: Among>(
    home: &mut H,
    update: &mut U,
    order: &mut O,
    masters: &mut [M],
    port: u8,
    among: &F,
    out: &mut Burst,
) -> bool
    requires run { (plan : Plan) × (past : Trace)
        × AreEngines H.Engine U.Engine O.Engine M.Engine plan past home.old update.old order.old
        masters.old × (port < plan.header.ports)
        × HasHolders (F.has among.now) plan.header past }
    requires empty { out.old ≡ [] }
    ensures moved { IsTrue result → HaveMoved (F.has among.now) H.Engine U.Engine O.Engine M.Engine
        port out.new home.old update.old order.old masters.old home.new
        update.new order.new masters.new }
    ensures none { result ≡ false → (plan : Plan) (past : Trace)
        → AreEngines H.Engine U.Engine O.Engine M.Engine plan past home.old
        update.old order.old masters.old
        → is_enabled_by_among (F.has among.now) (numbers_of OfHome) plan past port ≡ false }
    ensures unchanged { result ≡ false → (home.new ≡ home.old) × (update.new ≡ update.old)
        × (order.new ≡ order.old) × (masters.new ≡ masters.old) × (out.new ≡ []) }
{
    if !home.turn_among(port, among, out) {
        return false;
    }
    let none = masters.len();
    hear_all(update, order, masters, none, out);
    true
}

/// A step of the engine of barriers and DVM.
pub fn by_order<H: Engine, U: Engine, O: Engine, M: Engine>(
    home: &mut H,
    update: &mut U,
    order: &mut O,
    masters: &mut [M],
    port: u8,
    out: &mut Burst,
) -> bool
    requires run { (plan : Plan) × (past : Trace)
        × AreEngines H.Engine U.Engine O.Engine M.Engine plan past home.old
        update.old order.old masters.old × (port < plan.header.ports) }
    requires empty { out.old ≡ [] }
    ensures moved { IsTrue result → (among : PortSets)
        → HaveMoved among H.Engine U.Engine O.Engine M.Engine port out.new
        home.old update.old order.old masters.old home.new update.new order.new masters.new }
    ensures none { result ≡ false → (plan : Plan) (past : Trace)
        → AreEngines H.Engine U.Engine O.Engine M.Engine plan past home.old
        update.old order.old masters.old
        → is_enabled_by (numbers_of OfOrder) plan past port ≡ false }
    ensures unchanged { result ≡ false → (home.new ≡ home.old) × (update.new ≡ update.old)
        × (order.new ≡ order.old) × (masters.new ≡ masters.old) × (out.new ≡ []) }
{
    if !order.turn(port, out) {
        return false;
    }
    let none = masters.len();
    hear_all(home, update, masters, none, out);
    true
}

/// A step of the first engine that has one for the port: its master, the engine of memory updates,
/// the home, the engine of barriers and DVM. The home snoops only ports of the sets.
pub fn by_any<H: LineEngine, U: Engine, O: Engine, M: Engine, F: Among>(
    home: &mut H,
    update: &mut U,
    order: &mut O,
    masters: &mut [M],
    port: u8,
    among: &F,
    out: &mut Burst,
) -> bool
    requires run { (plan : Plan) × (past : Trace)
        × AreEngines H.Engine U.Engine O.Engine M.Engine plan past home.old update.old order.old
        masters.old × (port < plan.header.ports)
        × HasHolders (F.has among.now) plan.header past }
    requires empty { out.old ≡ [] }
    ensures moved { IsTrue result → HaveMoved (F.has among.now) H.Engine U.Engine O.Engine M.Engine
        port out.new home.old update.old order.old masters.old home.new
        update.new order.new masters.new }
    ensures none { result ≡ false → (plan : Plan) (past : Trace)
        → AreEngines H.Engine U.Engine O.Engine M.Engine plan past home.old
        update.old order.old masters.old
        → is_enabled_among (F.has among.now) plan past port ≡ false }
    ensures unchanged { result ≡ false → (home.new ≡ home.old) × (update.new ≡ update.old)
        × (order.new ≡ order.old) × (masters.new ≡ masters.old) × (out.new ≡ []) }
{
    if by_master(home, update, order, masters, port, out) {
        return true;
    }
    if by_update(home, update, order, masters, port, out) {
        return true;
    }
    if by_home(home, update, order, masters, port, among, out) {
        return true;
    }
    by_order(home, update, order, masters, port, out)
}
