ghost use Rattle.std.specs.Prelude.{◌≡◌, ◌++◌, ◌∷◌, [], List, length, IsTrue, OnOk};
ghost use Rattle.uss_event.specs.declared.entries.Entry.{Entry};
ghost use Rattle.uss_law_book.specs.Contents.{is_ended};
ghost use Rattle.uss_law_book.specs.Legal.{IsDue};
ghost use Rattle.uss_law_book.specs.Orderly.{IsOrderly};
ghost use Rattle.uss_book_index.specs.Flights.{AreFlights, IsFlight, flight_in, flight_after, has_row_for};

use crate::flight::Flight;
use std::alloc::{AllocError, Global};
use std::collections::BTreeMap;
use uss_event::{Closing, Ending, Entry};

/// What is kept of each flight that a list of entries speaks of.
#[derive(Drop)]
pub(crate) struct Flights {
    flights: BTreeMap<u64, Flight>,
}

fn ends(end: &Ending) -> bool
    ensures { result ≡ is_ended end.now }
{
    matches!(end, Ending::Ended { .. })
}

fn after(flight: Flight, e: &Entry, place: usize) -> Flight
    ensures { result ≡ flight_after flight e.now place }
{
    match e {
        Entry::Opened(_) => Flight {
            last: Some(place),
            recorded: flight.recorded,
            ended: flight.ended,
        },
        Entry::Held(_) => Flight {
            last: flight.last,
            recorded: Some(place),
            ended: flight.ended,
        },
        Entry::Done(Closing { end, .. }) => Flight {
            last: flight.last,
            recorded: flight.recorded,
            ended: flight.ended || ends(end),
        },
        Entry::Owner(_)
        | Entry::TicketOpen { .. }
        | Entry::Pending(_)
        | Entry::Deciding(_)
        | Entry::TicketGone { .. }
        | Entry::Sent(_) => flight,
    }
}

impl Flights {
    /// Of no entry. Takes no memory.
    pub(crate) fn new(alloc: Global) -> Flights
        ensures { AreFlights result.flights [] }
    {
        Flights {
            flights: BTreeMap::new(alloc),
        }
    }

    /// Makes room for what is kept of this flight.
    pub(crate) fn make_room(&mut self, flight: Option<u64>) -> Result<(), AllocError>
        ensures kept { (es : List Entry) → AreFlights self.old.flights es → AreFlights self.new.flights es }
        ensures room { OnOk result (IsTrue (has_row_for self.new.flights flight)) }
    {
        let Some(flight) = flight else {
            return Ok(());
        };
        if self.flights.contains_key(&flight) {
            return Ok(());
        }
        let none = Flight {
            last: None,
            recorded: None,
            ended: false,
        };
        match self.flights.insert(flight, none) {
            Ok(_) => Ok(()),
            Err(_) => Err(AllocError),
        }
    }

    /// Takes an entry down that changes what is kept of this flight, and that comes at this place. Takes no memory.
    pub(crate) fn enter(&mut self, flight: Option<u64>, e: &Entry, place: usize)
        requires { IsTrue (has_row_for self.old.flights flight) }
        ensures { (es : List Entry) → AreFlights self.old.flights es → IsOrderly es → IsDue es e.now → flight_in es e.now ≡ flight → length es ≡ place → AreFlights self.new.flights (es ++ e.now ∷ []) }
    {
        match flight {
            Some(flight) => match self.flights.get(&flight) {
                Some(row) => {
                    let more = after(*row, e, place);
                    let _ = self.flights.insert(flight, more);
                }
                None => {}
            },
            None => {}
        }
    }

    /// What is kept of the flight.
    pub(crate) fn flight(&self, flight: u64) -> Flight
        ensures { (es : List Entry) → AreFlights self.now.flights es → IsFlight es flight (Some result) }
    {
        match self.flights.get(&flight) {
            Some(row) => *row,
            None => Flight {
                last: None,
                recorded: None,
                ended: false,
            },
        }
    }
}
