//! The outside of the program, seen by contracts: where bytes come from and where they go. Each object
//! counts its faults, and a call answers a fault only where that count rose. What an object holds is told
//! by the forms in memory, and not by the adapters over real streams, of which no contract can know it.
//!
//! ```
//! let text = read_whole(alloc, &mut ReaderSource::new(stdin), 65536)?;
//! write_all(&mut WriterSink::new(stdout), text.as_slice())?;
//!
//! let mut dial = TcpDial::new(&net);
//! dial.reach("b.example", 81)?;
//! send_all(&mut dial, b"hello")?;
//! ```
#![tactic(auto)]

mod adapters;
mod dial;
mod memory;
mod memory_dial;
mod sink;
mod source;

pub use adapters::{ReaderSource, TcpDial, WriterSink};
pub use dial::{Dial, DialFault, send_all};
pub use memory::{MemorySink, MemorySource};
pub use memory_dial::{Conversation, MemoryDial, Reply};
pub use sink::{Sink, WriteFault, write_all};
pub use source::{ReadFault, ReadWholeRefusal, Source, read_whole};
