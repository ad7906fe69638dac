//! The limits of the calls and lists of the discovery service, each with the name of its definition. This project's own.

/// The OVNs of one key.
pub const MOST_OVNS: usize = 1024;

/// The extents of one intent, volumes and off-nominal volumes together.
pub const MOST_EXTENTS: usize = 64;

/// The vertices of all extents of one intent together.
pub const MOST_VERTICES: usize = 10_000;

/// The references that the service keeps at one moment.
pub const MOST_REFERENCES: usize = 4096;

/// The tickets (subscriptions) that the service keeps at one moment; no change notifies more.
pub const MOST_TICKETS: usize = 8192;

/// The last version of a reference.
pub const LAST_VERSION: u32 = 4_294_967_295;

/// The landings of a service in all, so that each one's number is written in at most 16 digits.
pub const MOST_LANDINGS: usize = 9_999_999_999_999_999;
