use std::fmt;
use uss_intent::FlightId;

/// Flights, each after a space.
#[derive(Clone, Copy)]
struct EachFlight<'a> {
    flights: &'a [FlightId],
}

impl<'a> fmt::Display for EachFlight<'a> {
    ghost use Rattle.std.specs.Prelude.{Some};
    ghost use Rattle.std.specs.List.{flat_map};
    ghost use Rattle.uss_intent.specs.Identifiers.{identifier_text};
    ghost use Rattle.uss_outcome.specs.Outcomes.{behind};

    ghost output = { λ l. Some (flat_map (behind identifier_text) l.flights.now) };

    fn fmt<W: fmt::Write>(&self, f: &mut fmt::Formatter<W>) -> fmt::Result {
        for flight in self.flights {
            write!(f, " {flight}")?;
        }
        Ok(())
    }
}

/// How many flights there are, and each after a space.
#[derive(Clone, Copy)]
pub struct CountedFlights<'a> {
    pub flights: &'a [FlightId],
}

impl<'a> fmt::Display for CountedFlights<'a> {
    ghost use Rattle.std.specs.Prelude.{Some};
    ghost use Rattle.uss_intent.specs.Identifiers.{identifier_text};
    ghost use Rattle.uss_outcome.specs.Outcomes.{sentence, counted};

    ghost output = { λ l. Some (sentence (counted identifier_text l.flights.now)) };

    fn fmt<W: fmt::Write>(&self, f: &mut fmt::Formatter<W>) -> fmt::Result {
        let count = self.flights.len();
        let each = EachFlight {
            flights: self.flights,
        };
        write!(f, "{count}{each}")
    }
}

/// Tags, each after a space.
#[derive(Clone, Copy)]
struct EachTag<'a> {
    tags: &'a [u64],
}

impl<'a> fmt::Display for EachTag<'a> {
    ghost use Rattle.std.specs.Prelude.{Some, decimal};
    ghost use Rattle.std.specs.List.{flat_map};
    ghost use Rattle.uss_outcome.specs.Outcomes.{behind};

    ghost output = { λ l. Some (flat_map (behind decimal) l.tags.now) };

    fn fmt<W: fmt::Write>(&self, f: &mut fmt::Formatter<W>) -> fmt::Result {
        for tag in self.tags {
            write!(f, " {tag}")?;
        }
        Ok(())
    }
}

/// How many tags there are, and each after a space.
#[derive(Clone, Copy)]
pub struct CountedTags<'a> {
    pub tags: &'a [u64],
}

impl<'a> fmt::Display for CountedTags<'a> {
    ghost use Rattle.std.specs.Prelude.{Some, decimal};
    ghost use Rattle.uss_outcome.specs.Outcomes.{sentence, counted};

    ghost output = { λ l. Some (sentence (counted decimal l.tags.now)) };

    fn fmt<W: fmt::Write>(&self, f: &mut fmt::Formatter<W>) -> fmt::Result {
        let count = self.tags.len();
        let each = EachTag { tags: self.tags };
        write!(f, "{count}{each}")
    }
}
