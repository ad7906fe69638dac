ghost use Rattle.std.specs.Prelude.{◌≡◌, ◌↔◌, ◌+◌, ◌<◌, ℕ, IsTrue, IfOk, IfErr, IsErrOf, length, drop, slice_index};
ghost use Rattle.std.specs.List.{list_any};
ghost use Rattle.uss_intent.specs.Numbers.{is_one_of};
ghost use Rattle.uss_event.specs.Rules.{is_below, ascend, is_table, table_from, is_too_great, are_in_range, IsTable};

use crate::DetailsRefusal;
use std::alloc::{AllocError, Global};
use std::marker::Model;

/// The greatest priority. This project's own.
pub const GREATEST_PRIORITY: u16 = 1000;

/// What comes of holding a candidate against a pair.
#[derive(Clone, Copy, Debug, PartialEq, Eq)]
pub enum Verdict {
    /// Nothing stands against the candidate.
    Clear,
    /// Both have one priority, at which the table forbids conflict.
    EqualForbidden,
    /// The pair has the greater priority.
    HigherStands,
}

/// The set of the priorities at which conflict of equal priorities is forbidden. A contract sees it as a list, ascending.
#[derive(Debug, Drop)]
pub struct RuleTable {
    priorities: Vec<u16>,
}

impl Model for RuleTable {
    ghost use Rattle.std.specs.Prelude.{List, ℕ};
    ghost use Rattle.uss_event.specs.Rules.{IsTable};

    ghost Value = { List ℕ };

    ghost view = { λ a. a.priorities.items };

    ghost invariant = { λ a. IsTable a.priorities.items };
}

/// Whether the number at this place is less than the next, if there is one.
fn rises_at(numbers: &[u16], i: usize) -> bool
    requires { i < length numbers.now }
    ensures { result ≡ is_below (slice_index numbers.now i) (drop (i + 1) numbers.now) }
{
    let number = numbers[i];
    match &numbers[i + 1..] {
        [] => true,
        [next, ..] => number < *next,
    }
}

/// Whether each number is less than the next.
fn ascend(numbers: &[u16]) -> bool
    ensures { result ≡ ascend numbers.now }
{
    for i in 0..numbers.len() {
        if !rises_at(numbers, i) {
            return false;
        }
    }
    true
}

fn are_in_range(priorities: &[u16]) -> bool
    ensures { result ≡ are_in_range priorities.now }
{
    priorities.iter().all(|p| *p <= GREATEST_PRIORITY)
}

fn is_table(priorities: &[u16]) -> bool
    ensures { result ≡ is_table priorities.now }
{
    ascend(priorities) && are_in_range(priorities)
}

fn is_any_too_great(list: &[u16]) -> bool
    ensures { result ≡ list_any is_too_great list.now }
{
    list.iter().any(|p| *p > GREATEST_PRIORITY)
}

/// The priorities, ascending and each once.
fn in_order(mut priorities: Vec<u16>) -> Vec<u16>
    requires { IsTrue (are_in_range priorities.items) }
    ensures table { IsTable result.items }
    ensures set { (p : ℕ) → is_one_of p result.items ≡ is_one_of p priorities.items }
{
    priorities.sort_unstable();
    priorities.dedup();
    priorities
}

impl Clone for RuleTable {
    ghost is_clone = { λ table copy. copy ≡ table };

    fn clone(&self) -> Result<RuleTable, AllocError> {
        Ok(RuleTable {
            priorities: self.priorities.clone()?,
        })
    }
}

impl RuleTable {
    ghost use Rattle.uss_event.specs.declared.refusals.DetailsRefusal.TheVariants as DetailsRefusal;
    ghost use Rattle.uss_event.specs.Refusals.{IsPriorityRefusal};

    /// The table that lists these priorities, in whatever order and however often each stands among them. Refused is a priority above
    /// 1000.
    #[tactic(auto, using(crate::proofs::Tables::in_range_without_too_great))]
    pub fn of(alloc: Global, list: &[u16]) -> Result<RuleTable, DetailsRefusal>
        ensures table { IfOk result IsTable }
        ensures set { IfOk result (λ t. (p : ℕ) → is_one_of p t ≡ is_one_of p list.now) }
        ensures range { IsErrOf result DetailsRefusal.PriorityRange ↔ IsTrue (list_any is_too_great list.now) }
        ensures refused { IfErr result IsPriorityRefusal }
    {
        if is_any_too_great(list) {
            return Err(DetailsRefusal::PriorityRange);
        }
        match Vec::from_slice(alloc, list) {
            Ok(priorities) => Ok(RuleTable {
                priorities: in_order(priorities),
            }),
            Err(_) => Err(DetailsRefusal::Memory),
        }
    }

    /// The table that lists these priorities in this order, where they ascend from 0 to 1000. Takes no memory.
    pub fn from_ascending(priorities: Vec<u16>) -> Option<RuleTable>
        ensures { result ≡ table_from priorities.items }
    {
        if is_table(priorities.as_slice()) {
            Some(RuleTable { priorities })
        } else {
            None
        }
    }

    /// Whether conflict at this priority is forbidden. Takes no memory.
    pub fn forbids(&self, priority: u16) -> bool
        ensures { result ≡ is_one_of priority self.now }
    {
        self.priorities.binary_search(&priority).is_ok()
    }

    /// The priorities, ascending. Takes no memory.
    pub fn priorities(&self) -> &[u16]
        ensures value { result.now ≡ self.now }
        ensures valid { IsTable self.now }
    {
        self.priorities.as_slice()
    }
}
