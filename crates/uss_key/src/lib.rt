//! The cache of heard pairs: the operational intents of others that a supplier has heard of since it last started.
//!
//! ```
//! let mut cache = Cache::new(alloc);
//! cache.reserve()?; // room for one more pair
//! cache.hear(pair)?;
//! if let Some(pair) = cache.pair(flight) {
//!     let version = pair.reference().version;
//! }
//! cache.forget(flight);
//! ```
//!
//! A contract sees the kept pairs as a list, the one heard longest ago first, and for how many more there is room without further
//! memory. Which pairs are kept is the fold over what was heard, as the duties of a supplier define it.
//!
//! A pair is found in the logarithm of the number of kept pairs, and the one heard longest ago is forgotten in as much.
#![tactic(auto)]

mod cache;
mod store;

pub use cache::Cache;
