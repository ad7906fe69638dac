// What an opening says.
ghost use Rattle.std.specs.Prelude.{◌≡◌};
ghost use Rattle.std.specs.Option.{option_copied, option_map};

use uss_event::Opening;

/// The job that was opened.
pub(crate) fn job_of(opening: Option<&Opening>) -> Option<u64>
    ensures { result ≡ option_map (λ o. o.job) (option_copied opening.entry) }
{
    match opening {
        Some(opening) => Some(opening.job),
        None => None,
    }
}

/// The number of the request, and the job that was opened for it.
pub(crate) fn request_of(opening: Option<&Opening>) -> Option<(u64, u64)>
    ensures { result ≡ option_map (λ o. (o.ask.number, o.job)) (option_copied opening.entry) }
{
    match opening {
        Some(opening) => Some((opening.ask.number, opening.job)),
        None => None,
    }
}
