// How far a reader has come. What ends a reading is set in functions of their own, since few events
// come to it.
ghost use Rattle.std.specs.Prelude.{◌≡◌, ◌+◌, ◌<◌};
ghost use Rattle.ace_grammar.specs.declared.error.ReadErr.TheVariants.{Malformed, ReadFault};
ghost use Rattle.ace_grammar.specs.declared.stage.Stage.TheVariants.{Ended, Failed};
ghost use Rattle.ace_grammar.specs.Reading.{most_counted};

use crate::{ReadErr, Reason};

/// The number of the line of the first event, behind those of the header.
const FIRST_EVENT_LINE: u64 = 3;

/// How far a reader has come.
#[derive(Clone, Copy)]
pub enum Stage {
    /// It reads on.
    Reading,
    /// It has read the whole trace.
    Ended,
    /// It has met this error.
    Failed(ReadErr),
}

impl Stage {
    /// The trace ends here.
    #[cold]
    #[inline(never)]
    pub fn end(&mut self)
        ensures { self.new ≡ Ended }
    {
        *self = Stage::Ended;
    }

    /// The line behind so many events is malformed.
    #[cold]
    #[inline(never)]
    pub fn meet_malformed(&mut self, count: u64, reason: Reason)
        requires { count < most_counted }
        ensures { self.new ≡ Failed (Malformed (count + 3) reason) }
    {
        *self = Stage::Failed(ReadErr::Malformed {
            line: count + FIRST_EVENT_LINE,
            reason,
        });
    }

    /// The source failed.
    #[cold]
    #[inline(never)]
    pub fn meet_fault(&mut self)
        ensures { self.new ≡ Failed ReadFault }
    {
        *self = Stage::Failed(ReadErr::ReadFault);
    }
}
