//! A disk whose meaning is written down: what a read gives, what a crash may leave, and how often it has failed; a disk
//! in memory that can tear and fail, and the few lines over a real file.
//!
//! ```
//! let mut disk = FileDisk::open(&rt, "journal");
//! disk.write_at(0, b"one two")?; // a crash may tear it
//! disk.sync()?; // and from here on leaves it whole
//! disk.cut(3)?;
//! let length = disk.len()?; // 3
//! ```
#![tactic(auto)]

mod act;
mod disk;
mod file;
mod memory;
mod record;

pub use act::{Act, Call, DiskFault, Written};
pub use disk::Disk;
pub use file::FileDisk;
pub use memory::MemoryDisk;
