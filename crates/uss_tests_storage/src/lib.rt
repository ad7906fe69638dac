//! Tests of the storage: of disks (`uss_disk`), and of the journal on them (`uss_journal`).
//!
//! `disks` calls each kind of disk, also with one of the calls failing; `journals` mounts files, appends to them and stops at each call,
//! on a disk in memory, on one that loses what it kept (`losing`) and on a real file. All of it goes through the public calls.
#![tactic(auto)]

#[cfg(test)]
mod disks;
#[cfg(test)]
mod journals;
#[cfg(test)]
mod losing;
