// What takes events as they are read.
ghost use Rattle.std.specs.Prelude.{◌≡◌, true, false};
ghost use Rattle.ace_event.specs.declared.event.Event.{Event};

use ace_event::Event;

/// What may take an event as soon as it is read, at a place in the program where its kind is known:
/// what is done with it is compiled for its kind there.
pub trait Taker {
    /// What holds of the taker before, the event, and the taker then, where it has taken the event.
    ghost took: { Self → Event → Self → Type 0 };

    /// Takes the event, or says that it doesn't, and then nothing has changed.
    fn takes(&mut self, event: &Event) -> bool
        ensures took { result ≡ true → took self.old event.now self.new }
        ensures stays { result ≡ false → self.new ≡ self.old };
}

/// The place of an event takes each: the event then stands there.
impl Taker for Event {
    ghost took = { λ _ event new. new ≡ event };

    #[inline(always)]
    fn takes(&mut self, event: &Event) -> bool {
        *self = *event;
        true
    }
}
