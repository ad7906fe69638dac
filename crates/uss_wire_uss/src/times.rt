ghost use Rattle.std.specs.Prelude.{◌≡◌, int_le};
ghost use Rattle.std.specs.List.{list_all, list_any};
ghost use Rattle.std.specs.Ordering.{int_eq};
ghost use Rattle.uss_event.specs.Plans.{extents_of, is_least_start};

use uss_event::Details;
use uss_vol4::Volume4;

fn none_starts_before(moment: i64, volumes: &[Volume4]) -> bool
    ensures { result ≡ list_all (λ v. int_le moment v.start) volumes.now }
{
    volumes.iter().all(|v| moment <= v.start())
}

fn some_starts_at(moment: i64, volumes: &[Volume4]) -> bool
    ensures { result ≡ list_any (λ v. int_eq v.start moment) volumes.now }
{
    volumes.iter().any(|v| v.start() == moment)
}

#[tactic(auto, using(uss_event::proofs::Extents::all_of_both))]
fn all_start_from(moment: i64, details: &Details) -> bool
    ensures { result ≡ list_all (λ v. int_le moment v.start) (extents_of details.now) }
{
    none_starts_before(moment, details.volumes.as_slice())
        && none_starts_before(moment, details.off_nominal.as_slice())
}

#[tactic(auto, using(uss_event::proofs::Extents::any_of_both))]
fn any_starts_at(moment: i64, details: &Details) -> bool
    ensures { result ≡ list_any (λ v. int_eq v.start moment) (extents_of details.now) }
{
    some_starts_at(moment, details.volumes.as_slice())
        || some_starts_at(moment, details.off_nominal.as_slice())
}

/// Whether this is the least start of the extents. Linear in the volumes.
pub fn starts_at(moment: i64, details: &Details) -> bool
    ensures { result ≡ is_least_start moment (extents_of details.now) }
{
    all_start_from(moment, details) && any_starts_at(moment, details)
}
