//! Values as bytes: numbers, texts, options, lists and volumes, as a supplier's book and other stores keep them.
//!
//! ```
//! let mut bytes = Vec::new(alloc);
//! 7u32.put(&mut bytes)?; // b"\0\0\0\x07"
//! name.put(&mut bytes)?;
//! let (number, rest) = u32::take(alloc, &bytes)?; // 7, and the bytes after it
//! let (name, rest) = Name::take(alloc, rest)?;
//! ```
//!
//! `specs/Spelling.antt` says how a value is written, `specs/Reading.antt` how it is read, and `specs/Coded.antt` that the two agree:
//! what is read is spelled so, each byte of it, and what is spelled so is read. Each type here carries that law.
#![tactic(auto)]

mod coded;
mod lists;
mod numbers;
mod texts;
mod volumes;

pub use coded::{Coded, Unread};
pub use lists::{put_list, put_option, put_short_list, take_list, take_option, take_short_list};
