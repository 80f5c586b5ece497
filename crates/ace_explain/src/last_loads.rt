//! The last exclusive loads of the ports, which the checker doesn't keep: of those it knows only
//! the ones that still hold (Arm IHI 0022E, C9).

ghost use Rattle.std.specs.Prelude.{◌≡◌};
ghost use Rattle.ace_explain.specs.LastLoads.{stored};

use ace_event::Event;

/// A port's last exclusive load: its line, and whether the port has made an exclusive store since.
#[derive(Clone, Copy)]
pub struct LastLoad {
    pub line: u32,
    pub stored: bool,
}

/// For each port, its last exclusive load.
#[derive(Clone, Copy)]
pub struct LastLoads {
    ports: [Option<LastLoad>; 32],
}

/// The load, once its port has made an exclusive store.
fn stored(load: Option<LastLoad>) -> Option<LastLoad>
    ensures { result ≡ stored load }
{
    match load {
        None => None,
        Some(load) => Some(LastLoad {
            line: load.line,
            stored: true,
        }),
    }
}

impl LastLoads {
    ghost use Rattle.std.specs.Prelude.{◌<◌, ◌∷◌, [], None, Some, false, if◌then◌else◌, slice_index_or, slice_set};
    ghost use Rattle.ace_model.specs.Trace.{Trace};
    ghost use Rattle.ace_explain.specs.LastLoads.{LoadStands, LoadsStand, stored};

    /// Those of the empty trace: no port has made one.
    pub fn new() -> LastLoads
        ensures { LoadsStand [] result }
    {
        LastLoads { ports: [None; 32] }
    }

    /// The last exclusive load of the port.
    pub fn of(&self, port: u8) -> Option<LastLoad>
        ensures { (past : Trace) → LoadsStand past self.now → port < 32
            → LoadStands past port result }
    {
        self.entry(port)
    }

    fn entry(&self, port: u8) -> Option<LastLoad>
        ensures { result ≡ slice_index_or self.now.ports port None }
    {
        match self.ports.get(usize::from(port)) {
            Some(load) => *load,
            None => None,
        }
    }

    fn set(&mut self, port: u8, load: Option<LastLoad>)
        ensures { self.new.ports ≡ slice_set self.old.ports port load }
    {
        let port = usize::from(port);
        if port < 32 {
            self.ports[port] = load;
        }
    }

    /// An L: where it is exclusive, it is the last load of its port.
    fn hear_load(&mut self, port: u8, line: u32, x: bool)
        ensures { self.new.ports ≡ (if x
            then slice_set self.old.ports port (Some (record { line = line; stored = false }))
            else self.old.ports) }
    {
        if x {
            self.set(
                port,
                Some(LastLoad {
                    line,
                    stored: false,
                }),
            );
        }
    }

    /// A D: where it is exclusive, its port has stored since its last load.
    fn hear_store(&mut self, port: u8, x: bool)
        ensures { self.new.ports ≡ (if x
            then slice_set self.old.ports port (stored (slice_index_or self.old.ports port None))
            else self.old.ports) }
    {
        if x {
            let load = stored(self.entry(port));
            self.set(port, load);
        }
    }

    /// Hears the next event of the trace.
    pub fn hear(&mut self, event: &Event)
        ensures { (past : Trace) → LoadsStand past self.old
            → LoadsStand (event.now ∷ past) self.new }
    {
        match *event {
            Event::L { port, addr, x, .. } => self.hear_load(port, addr, x),
            Event::D { port, x, .. } => self.hear_store(port, x),
            _ => {}
        }
    }
}
