ghost use Rattle.uss_http_request.specs.Dials.{HeardFrom, IsOver};
ghost use Rattle.uss_http_request.specs.NothingHeard.{heard_nothing};

use crate::stream::{Stream, StreamFault};
use uss_link::{Dial, DialFault};

/// The bytes come over the open stream of a dial.
#[derive(Clone, Copy)]
pub struct FromDial;

impl<G: Dial> Stream<FromDial> for G {
    ghost faults = { G.faults };

    ghost gave = { λ s t bytes. HeardFrom (G.talks s) (G.talks t) (G.is_open s) (G.is_open t) bytes };

    ghost ended = { λ s. IsOver (G.talks s) };

    fn next(&mut self, buffer: &mut [u8]) -> Result<usize, StreamFault> {
        match self.receive(buffer) {
            Ok(count) => Ok(count),
            Err(DialFault) => Err(StreamFault),
        }
    }

    ghost nothing = { λ s. heard_nothing (G.talks s) (G.is_open s) };
}
