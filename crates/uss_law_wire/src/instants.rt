ghost use Rattle.std.specs.Prelude.{◌≡◌, pos, codes, Ok, Err};
ghost use Rattle.uss_wire_base.specs.declared.instants.InstantRefusal.TheVariants.{BadTime, TimeRange};
ghost use Rattle.uss_wire_base.specs.InstantText.{read_instant};

/// Texts of instants, with the moments that were worked out by hand, in ns since 1970-01-01T00:00:00Z, and texts that are none. The
/// function does nothing: its contract holds the definition against them.
pub fn worked_instants()
    ensures ahead { read_instant (codes "2023-11-15T00:13:20+01:00") ≡ Ok (pos 1700003600000000000) }
    ensures behind { read_instant (codes "2023-11-14t18:58:20.5-04:15") ≡ Ok (pos 1700003600500000000) }
    ensures leap_day { read_instant (codes "2024-02-29T23:59:59.999999999Z") ≡ Ok (pos 1709251199999999999) }
    ensures too_early { read_instant (codes "1999-12-31T23:59:59.999999999z") ≡ Err TimeRange }
    ensures no_leap_day { read_instant (codes "2023-02-29T00:00:00Z") ≡ Err BadTime }
    ensures day_31_of_april { read_instant (codes "2023-04-31T00:00:00Z") ≡ Err BadTime }
    ensures second_60 { read_instant (codes "2016-12-31T23:59:60Z") ≡ Err BadTime }
    ensures ten_decimals { read_instant (codes "2023-11-14T23:13:20.0000000000Z") ≡ Err BadTime }
    ensures no_offset { read_instant (codes "2023-11-14T23:13:20") ≡ Err BadTime }
{}
