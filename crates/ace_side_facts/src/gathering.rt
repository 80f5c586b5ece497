// What is gathered line by line.
ghost use Rattle.std.specs.Prelude.{◌≡◌, [], ◌∷◌, List, IfOk, OnOk};
ghost use Rattle.std.specs.List.Sorted.{IsPermutation};
ghost use Rattle.ace_side.specs.Reading.{CanStand};
ghost use Rattle.ace_side.specs.Order.{ending};
ghost use Rattle.ace_side.specs.declared.line.SideLine.{SideLine};
ghost use Rattle.ace_side_facts.specs.Facts.{Tells};
ghost use Rattle.ace_side_facts.specs.Gathered.{Stands};

use crate::labels::Labels;
use crate::times::EventTimes;
use crate::{Query, SideFacts};
use ace_io::NoMemory;
use ace_side::{SideEnd, SideLine};
use std::alloc::Global;

/// What is gathered line by line.
#[derive(Drop)]
pub(crate) struct Gathering {
    labels: Labels,
    times: EventTimes,
}

impl Gathering {
    /// Nothing yet, for this query.
    pub(crate) fn new(alloc: Global, query: &Query<'_>) -> Result<Gathering, NoMemory>
        ensures { IfOk result (Stands query.now []) }
    {
        let times = EventTimes::new(alloc, query.events)?;
        Ok(Gathering {
            labels: Labels::new(alloc),
            times,
        })
    }

    /// Takes what the next line says.
    pub(crate) fn hear(&mut self, query: &Query<'_>, line: SideLine) -> Result<(), NoMemory>
        ensures { OnOk result ((past : List SideLine) → Stands query.now past self.old
            → CanStand past line → Stands query.now (line ∷ past) self.new) }
    {
        match line {
            SideLine::TimeUnit { word } => {
                self.labels.add_unit(word);
                Ok(())
            }
            SideLine::Port { port, name } => {
                self.labels.add_name(port, name)?;
                Ok(())
            }
            SideLine::Addr { addr, real } => self.labels.add_real(query, addr, real),
            SideLine::Time { event, time } => self.times.add(event, time),
            SideLine::Note { event, text } => self.labels.add_note(query, event, text),
            _ => Ok(()),
        }
    }

    /// What is told when all lines have come, which end so.
    pub(crate) fn finish(self, end: Option<SideEnd>) -> Result<SideFacts, NoMemory>
        ensures { IfOk result (λ f. (query : Query) (past : List SideLine)
            → Stands query past self → end ≡ ending past → Tells query past f) }
    {
        let Gathering { labels, mut times } = self;
        times.finish()?;
        Ok(SideFacts {
            labels,
            times,
            end,
            fault: None,
        })
    }
}
