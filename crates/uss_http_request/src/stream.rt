ghost use Rattle.std.specs.Prelude.{◌≡◌, ℕ, ◌<◌, ◌≤◌, ◌++◌, [], List, length, IfOk};
ghost use Rattle.uss_cause.specs.Cause.{Counts};
ghost use Rattle.uss_http_request.specs.Streams.{come};

/// A call of the source or the dial beneath a stream answered a fault.
#[derive(Clone, Copy)]
pub struct StreamFault;

/// Bytes that come, whether from a source or over a dial.
pub trait Stream<K> {
    /// How many faults were answered: it never falls.
    ghost faults: { Self → ℕ };

    /// These bytes came between the two moments of the stream.
    ghost gave: { Self → Self → List ℕ → Type 0 };

    /// Nothing more comes.
    ghost ended: { Self → Type 0 };

    /// Takes bytes into the start of the buffer, and says how many. None in a buffer that isn't empty is the end.
    fn next(&mut self, buffer: &mut [u8]) -> Result<usize, StreamFault>
        ensures counts { Counts (faults self.old) (faults self.new) result }
        ensures within { IfOk result (λ n. n ≤ length buffer.old) }
        ensures bytes { (origin : Self) (past : List ℕ) → gave origin self.old past → gave origin self.new (past ++ come result buffer.new) }
        ensures end { IfOk result (λ n. n ≡ 0 → 0 < length buffer.old → ended self.new) };

    /// Between a moment and itself nothing came.
    ghost nothing: { (s : Self) → gave s s [] };
}
