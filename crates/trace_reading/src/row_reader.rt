ghost use Rattle.std.specs.Prelude.{◌≡◌, IfNone, IfOk, IfSome, Some, None};
ghost use Rattle.trace_reading.specs.declared.item.Item.{Item};
ghost use Rattle.trace_reading.specs.declared.item.Place.TheVariants.{Between};
ghost use Rattle.trace_reading.specs.Form.{kinds_of};
ghost use Rattle.trace_reading.specs.Walk.{item_line, place_after, IsClockTable, IsShortItem};

use crate::item::{Item, Place};
use crate::lines::read_item;
use crate::ports::clock_table;
use crate::rows::place_after;
use crate::trace::TracePort;
use sim_base::Items;
use std::alloc::{AllocError, Global};

/// The lines after the ports, read one at a time in memory that doesn't grow with them.
#[derive(Debug, Drop)]
pub struct RowReader {
    /// in the order of their numbers, from 0
    pub ports: Items<TracePort>,
    /// for each port the number of Clocks before it, and after these the number of all
    pub clocks: Vec<usize>,
    /// where the reading stands
    pub place: Place,
    ghost counts_clocks: { IsClockTable (kinds_of ports) clocks.items },
}

impl RowReader {
    /// Before the first line after the lines of these ports.
    pub fn new(alloc: Global, ports: Items<TracePort>) -> Result<RowReader, AllocError>
        ensures { IfOk result (λ r. (r.ports ≡ ports) × (r.place ≡ Between)) }
    {
        let clocks = clock_table(alloc, ports.as_slice())?;
        Ok(RowReader {
            ports,
            clocks,
            place: Place::Between,
        })
    }

    /// What the next line tells, which is without its line feed; none where it is out of form or may not stand here.
    pub fn read(&mut self, line: &[u8]) -> Option<Item>
        ensures found { IfSome result (λ item. line.now ≡ item_line item) }
        ensures place { IfSome result
            (λ item. place_after (kinds_of self.old.ports) self.old.place item ≡ Some self.new.place) }
        ensures none { IfNone result ((item : Item) → IsShortItem item → line.now ≡ item_line item →
            place_after (kinds_of self.old.ports) self.old.place item ≡ None) }
        ensures ports { self.new.ports ≡ self.old.ports }
        ensures stays { IfNone result (self.new.place ≡ self.old.place) }
    {
        let item = read_item(line)?;
        let place = place_after(self.ports.as_slice(), &self.clocks, self.place, item)?;
        self.place = place;
        Some(item)
    }
}
