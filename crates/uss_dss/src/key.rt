//! The key of a change: its OVNs in an ordered set, made once for a call.

ghost use Rattle.std.specs.Prelude.{◌≡◌, ℕ, List, true, Some, is_some, IfOk, OnOk, bytes_eq};
ghost use Rattle.std.specs.Cmp.Lexicographic.{slice_cmp};
ghost use Rattle.std.specs.Ordering.{nat_cmp};
ghost use Rattle.std.specs.BTreeMap as tree;
ghost use Rattle.std.specs.Map.{update};
ghost use Rattle.uss_law_dss.specs.Service.{in_key};
ghost use Rattle.uss_dss.specs.Keys.{Finds};

use std::alloc::{AllocError, Global};
use std::collections::BTreeMap;
use uss_intent::{Ovn, Reference};

fn put_text<'a>(set: &mut BTreeMap<&'a str, bool>, text: &'a str) -> Result<(), AllocError>
    ensures put { OnOk result ((q : List ℕ) → tree.get_by (λ k. slice_cmp nat_cmp q k.now) set.new ≡ update bytes_eq (λ ds. tree.get_by (λ k. slice_cmp nat_cmp ds k.now) set.old) text.now (Some true) q) }
{
    set.insert(text, true)?;
    Ok(())
}

/// The OVNs of a key, each once.
pub(crate) fn key_set<'a>(
    alloc: Global,
    key: &'a [Ovn],
) -> Result<BTreeMap<&'a str, bool>, AllocError>
    ensures { IfOk result (λ set. Finds set key.now) }
{
    let mut set = BTreeMap::new(alloc);
    for ovn in key {
        put_text(&mut set, ovn.as_str())?;
    }
    Ok(set)
}

fn finds(set: &BTreeMap<&str, bool>, text: &str) -> bool
    ensures { result ≡ is_some (tree.get_by (λ k. slice_cmp nat_cmp text.now k.now) set.now) }
{
    set.contains_key(text)
}

/// Whether the key has the reference's OVN.
pub(crate) fn has_ovn_of(set: &BTreeMap<&str, bool>, r: &Reference) -> bool
    ensures { (key : List (List ℕ)) → Finds set.now key → result ≡ in_key key r.now }
{
    match &r.ovn {
        Some(ovn) => finds(set, ovn.as_str()),
        None => false,
    }
}
