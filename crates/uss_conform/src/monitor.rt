ghost use Rattle.std.specs.Prelude.{◌≡◌, ◌↔◌, ℤ, ◌<ℤ◌, ◌-ℤ◌, int_le, [], ◌∷◌, ◌++◌, List, IsOk, IsErr, IsSomeAnd, IfOk, IfErr, OnOk, OnErr, is_some};
ghost use Rattle.std.specs.List.{list_any};
ghost use Rattle.uss_vol4.specs.Sharing.{volume_holds};
ghost use Rattle.uss_event.specs.Pairs.{OperationalIntent};
ghost use Rattle.uss_event.specs.declared.asks.Conform.TheVariants.{Contingent};
ghost use Rattle.uss_event.specs.declared.asks.PositionAsk.{PositionAsk};
ghost use Rattle.uss_law_supplier.specs.Monitor.{Sighting, patience, no_watch, outside, seen, watched, finding, is_later_than};
ghost use Rattle.uss_law_supplier.specs.Positions.{sighting_of};
ghost use Rattle.uss_law_supplier.specs.Straying.{AreInOrder, IsLost};
ghost use Rattle.uss_conform.specs.Judged.{IsOf, Judges, last_of};

use crate::ConformRefusal;
use std::marker::Model;
use uss_event::Conform;
use uss_shape::Place;
use uss_vol4::Volume4;

/// So long outside is too long, in ns: 60 seconds.
pub const PATIENCE: i64 = 60_000_000_000;

/// What is known of one flight by the positions that were counted. A contract sees when the flight was last seen, since when it is outside
/// its volumes, if it is, and whether it was found Contingent.
#[derive(Clone, Copy, Debug)]
pub struct Monitor {
    last: Option<i64>,
    outside_since: Option<i64>,
    contingent: bool,
}

impl Model for Monitor {
    ghost use Rattle.uss_law_supplier.specs.Monitor.{Watch};

    ghost Value = { Watch };

    ghost view = { λ m. record { last = m.last; outside_since = m.outside_since; contingent = m.contingent } };

    ghost inverse = { λ w. record { last = w.last; outside_since = w.outside_since; contingent = w.contingent } };
}

impl Monitor {
    /// No position yet. Takes no memory.
    pub fn new() -> Monitor
        ensures none { result ≡ no_watch }
        ensures watched { result ≡ watched [] }
    {
        Monitor {
            last: None,
            outside_since: None,
            contingent: false,
        }
    }

    /// Counts a position of the flight, and tells what it is found with it: Conforming where a volume holds it, Contingent once it is outside
    /// for 60 seconds, and from then on, and Nonconforming elsewhere. The volumes are those that are held of the flight, without its
    /// off-nominal ones; the place is in units of 1e-7 degrees, the altitude in mm above the datum and the moment in ns since 1970. A
    /// position before the last one is refused, as 161, and isn't counted. Takes no memory.
    pub fn position(
        &mut self,
        volumes: &[Volume4],
        place: Place,
        altitude: i64,
        moment: i64,
    ) -> Result<Conform, ConformRefusal>
        // refused exactly where the moment is before the last, which is named; then nothing changes
        ensures late { IsErr result ↔ IsSomeAnd self.old.last (λ last. moment <ℤ last) }
        ensures last { IfErr result (λ e. is_later_than moment self.old.last ≡ Some (last_of e)) }
        ensures refused { OnErr result (self.new ≡ self.old) }

        // else counted, as a position of a flight of which these volumes are held is
        ensures found { IfOk result (λ found. found ≡ finding self.new) }
        ensures counted { (pair : OperationalIntent) (p : PositionAsk) → IsOf volumes.now place altitude pair p
            → OnOk result (self.new ≡ seen self.old (sighting_of pair p moment)) }

        // whatever positions were counted before
        ensures every { (before : List Sighting) (pair : OperationalIntent) (p : PositionAsk) → self.old ≡ watched before
            → IsOf volumes.now place altitude pair p → Judges before (sighting_of pair p moment) result self.new }

        // in the words of positions
        ensures in_order { (before : List Sighting) (pair : OperationalIntent) (p : PositionAsk) → self.old ≡ watched before → AreInOrder before
            → OnOk result (AreInOrder (before ++ sighting_of pair p moment ∷ [])) }
        ensures lost { (before : List Sighting) (pair : OperationalIntent) (p : PositionAsk) → self.old ≡ watched before → AreInOrder before
            → IsOf volumes.now place altitude pair p
            → IfOk result (λ found. (found ≡ Contingent) ↔ IsLost (before ++ sighting_of pair p moment ∷ [])) }
    {
        if let Some(last) = self.later(moment) {
            return Err(ConformRefusal::OldPosition(last));
        }
        *self = self.seen(volumes, place, altitude, moment);
        Ok(self.finding())
    }

    /// The moment of the last position, where the given one is before it.
    fn later(self, moment: i64) -> Option<i64>
        ensures { result ≡ is_later_than moment self.last }
    {
        match self.last {
            Some(last) => { if moment < last { Some(last) } else { None } }
            None => None,
        }
    }

    /// What is known with a position more. Of a flight that was found Contingent no volume is looked at.
    fn seen(self, volumes: &[Volume4], place: Place, altitude: i64, moment: i64) -> Monitor
        ensures { result ≡ seen self (record { moment = moment; inside = list_any (λ v. volume_holds v place altitude moment) volumes.now }) }
    {
        if self.contingent {
            return Monitor {
                last: Some(moment),
                outside_since: self.outside_since,
                contingent: true,
            };
        }
        if is_inside(volumes, place, altitude, moment) {
            return Monitor {
                last: Some(moment),
                outside_since: None,
                contingent: false,
            };
        }
        self.outside(moment)
    }

    fn outside(self, moment: i64) -> Monitor
        ensures { result ≡ outside self moment }
    {
        let since = self.outside_since.unwrap_or(moment);
        Monitor {
            last: Some(moment),
            outside_since: Some(since),
            contingent: is_too_long(since, moment),
        }
    }

    fn finding(self) -> Conform
        ensures { result ≡ finding self }
    {
        if self.contingent {
            return Conform::Contingent;
        }
        match self.outside_since {
            Some(_) => Conform::Nonconforming,
            None => Conform::Conforming,
        }
    }
}

fn is_inside(volumes: &[Volume4], place: Place, altitude: i64, moment: i64) -> bool
    ensures { result ≡ list_any (λ v. volume_holds v place altitude moment) volumes.now }
{
    volumes.iter().any(|v| v.holds(place, altitude, moment))
}

/// The moments may be any: their difference may have 65 bits.
fn is_too_long(since: i64, moment: i64) -> bool
    ensures { result ≡ int_le patience (moment -ℤ since) }
{
    moment as i128 - since as i128 >= PATIENCE as i128
}
