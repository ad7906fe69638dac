//! Tests of a supplier's book and the crates under it (`uss_book_codec`, `uss_book_rules`, `uss_book_index`, `uss_book`), and of the cache
//! of heard pairs, `uss_key`. All of it goes through the public calls.
//!
//! | Module | Tests |
//! |---|---|
//! | `codings` | `uss_book_codec`: entries as bytes |
//! | `rules` | `uss_book_rules`: which entry is due |
//! | `index` | `uss_book_index`: the entries with their index |
//! | `mounts`, `telling`, `remounts` | `uss_book`: mounted by records and after a stop at each call; what it tells; mounted again, also on a disk that isn't honest (`turning`) |
//! | `cache` | `uss_key`: which pairs are kept |
//!
//! Several of them use `bytes`, `records` and `volumes`.
#![tactic(auto)]

#[cfg(test)]
mod bytes;
#[cfg(test)]
mod cache;
#[cfg(test)]
mod codings;
#[cfg(test)]
mod index;
#[cfg(test)]
mod mounts;
#[cfg(test)]
mod records;
#[cfg(test)]
mod remounts;
#[cfg(test)]
mod rules;
#[cfg(test)]
mod telling;
#[cfg(test)]
mod turning;
#[cfg(test)]
mod volumes;
