ghost use Rattle.std.specs.Prelude.{◌≤◌};

use crate::fault::StreamFault;
use crate::lines::Lines;
use crate::moment::Moment;
use crate::steps::{Ahead, ahead_of, next_item, read_prefix};
use sim_base::Items;
use std::alloc::Global;
use std::io::BufRead;
use system_model::EndKind;
use trace_reading::{Header, Item, RowReader, TraceLine, TracePort};

/// A trace read instant by instant.
#[derive(Drop)]
pub struct TraceStream<B> {
    pub(crate) lines: Lines<B>,
    pub(crate) header: Header,
    pub(crate) rows: RowReader,
    pub(crate) ahead: Ahead,
    ghost has_counts: { 1 ≤ header.resolution },
}

impl<B: BufRead> TraceStream<B> {
    ghost use Rattle.std.specs.Prelude.{◌≡◌, ℕ, List, [], Some, Err, IfOk, option_map, length};
    ghost use Rattle.trace_reading.specs.declared.item.Item.{Item};
    ghost use Rattle.trace_stream.specs.declared.fault.StreamFault.TheVariants.{Line};
    ghost use Rattle.trace_stream.specs.Reading.{end_ahead, IsFaultAt};
    ghost use Rattle.trace_stream.specs.Streams.{Stands, Tells};

    /// Reads the header and the ports, and the first line after them.
    pub fn open(alloc: Global, input: B) -> Result<TraceStream<B>, StreamFault>
    where
        B: Drop,
        ensures stands { IfOk result (λ s. (bytes : List ℕ) → B.remaining input ≡ Some bytes →
            Stands B.remaining s bytes []) }
        ensures fault { (n : ℕ) (bytes : List ℕ) → result ≡ Err (Line n) →
            B.remaining input ≡ Some bytes → IsFaultAt bytes n }
    {
        let mut lines = Lines::new(alloc, input);
        let (header, ports) = read_prefix(alloc, &mut lines)?;
        let mut rows = RowReader::new(alloc, Items::from_vec(ports))?;
        let Some(item) = rows.read(&lines.bytes) else {
            return Err(StreamFault::Line(lines.number));
        };
        let ahead = ahead_of(&mut lines, item)?;
        Ok(TraceStream {
            lines,
            header,
            rows,
            ahead,
        })
    }

    /// How many counts a second has, at least 1.
    pub fn resolution(&self) -> u64
        ensures same { result ≡ self.now.header.resolution }
        ensures above { 1 ≤ result }
    {
        self.header.resolution
    }

    /// The header.
    pub fn header(&self) -> Header
        ensures { result ≡ self.now.header }
    {
        self.header
    }

    /// The ports, in order.
    pub fn ports(&self) -> &[TracePort]
        ensures { result.now ≡ self.now.rows.ports }
    {
        self.rows.ports.as_slice()
    }

    /// How and at which point the run ended, where all instants were read.
    pub fn end(&self) -> Option<(EndKind, u64)>
        ensures { result ≡ end_ahead self.now.ahead }
    {
        match self.ahead {
            Ahead::Finish { kind, t } => Some((kind, t)),
            Ahead::Begin { .. } => None,
        }
    }

    /// Reads the next instant; false where there is none, and then nothing changes.
    pub fn read(&mut self, moment: &mut Moment) -> Result<bool, StreamFault>
        ensures header { self.new.header ≡ self.old.header }
        ensures ports { self.new.rows.ports ≡ self.old.rows.ports }
        ensures size { length moment.new.values.items ≡ length moment.old.values.items }
        ensures told { IfOk result (λ more. (bytes : List ℕ) (before : List Item) →
            Stands B.remaining self.old bytes before →
            length moment.old.values.items ≡ length self.old.rows.ports →
            Tells B.remaining self.old self.new bytes before moment.new more) }
        ensures fault { (n : ℕ) (bytes : List ℕ) (before : List Item) → result ≡ Err (Line n) →
            Stands B.remaining self.old bytes before → IsFaultAt bytes n }
    {
        let Ahead::Begin { t, n } = self.ahead else {
            return Ok(false);
        };
        moment.begin(t, n);
        'lines: for _ in 0..u64::MAX {
            match next_item(&mut self.lines, &mut self.rows)? {
                Item::Row(TraceLine::Value { port, value }) => moment.put(port, value),
                Item::Row(TraceLine::At { t, n }) => {
                    self.ahead = Ahead::Begin { t, n };
                    return Ok(true);
                }
                Item::End { kind, t } => {
                    self.lines.finish()?;
                    self.ahead = Ahead::Finish { kind, t };
                    return Ok(true);
                }
            }
        }
        Err(StreamFault::Read)
    }
}
