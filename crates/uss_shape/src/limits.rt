//! The limits of outlines, each with the name of its definition. This project's own.

/// The vertices of an outline, at least: fewer enclose nothing.
pub const FEWEST_OUTLINE_VERTICES: usize = 3;

/// The vertices of an outline, at most, so that two outlines are compared in bounded time.
pub const MOST_OUTLINE_VERTICES: usize = 1000;

/// 180 degrees, in units of 1e-7 degrees: how far a longitude is from 0.
pub const FURTHEST_LONGITUDE: i64 = 1_800_000_000;

/// 90 degrees, in units of 1e-7 degrees: how far a latitude is from 0.
pub const FURTHEST_LATITUDE: i64 = 900_000_000;
