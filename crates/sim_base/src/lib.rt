//! What every crate of the simulator stands on: limits, numbers of components, ports and sources, lists and texts that contracts compare, and the outside as traits with forms in memory.
#![tactic(auto)]

mod escaping;
mod folder;
mod items;
mod limits;
mod numbers;
mod parted_text;
mod path;
mod read_book;
mod shared_bytes;
mod sink;
mod source;
mod text;

pub use escaping::{EscapedByte, escape, escaped_byte};
pub use folder::{Folder, MemFile, MemFolder, ReadFault};
pub use items::Items;
pub use limits::{MOST_COUNTS, MOST_FILE_BYTES, MOST_INSTANTS, MOST_NAME_BYTES};
pub use numbers::{CompId, PortId, SourceId};
pub use parted_text::{PartedText, TextParts};
pub use path::{join_path, kept_segments, plain_path};
pub use read_book::{ReadBook, ReadNote};
pub use shared_bytes::SharedBytes;
pub use sink::{MemSink, Sink, SinkFault};
pub use source::{MemSource, Source, SourceFault};
pub use text::Text;
