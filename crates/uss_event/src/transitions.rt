ghost use Rattle.std.specs.Prelude.{◌≡◌};
ghost use Rattle.uss_event.specs.Transitions.{may_go, goes};

use uss_intent::State;

fn goes(from: State, to: State) -> bool
    ensures { result ≡ goes from to }
{
    match (from, to) {
        (State::Accepted, _) => true,
        (State::Activated | State::Nonconforming, State::Accepted) => false,
        (State::Activated | State::Nonconforming, _) => true,
        (State::Contingent, State::Contingent) => true,
        (State::Contingent, _) => false,
    }
}

/// Whether an operational intent in the old state, or one that isn't recorded yet, may go to the new state. Takes no memory.
pub fn may_go(old: Option<State>, new: State) -> bool
    ensures { result ≡ may_go old new }
{
    match old {
        None => new == State::Accepted,
        Some(from) => goes(from, new),
    }
}
