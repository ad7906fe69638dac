ghost use Rattle.std.specs.Prelude.{◌≡◌, ℕ, ◌≤◌, ◌<◌, ◌++◌, List, length, Option, Some, OnOk, OnErr};
ghost use Rattle.uss_cause.specs.Cause.{Counts};
ghost use Rattle.uss_link.specs.Bytes.{Writes, TookFront};

/// A write was not carried out. The sink's count of faults rose, or stands at its greatest value.
#[derive(Clone, Copy, Debug, PartialEq, Eq)]
pub struct WriteFault;

/// Where bytes go, as standard output or a connection.
pub trait Sink {
    /// How many faults this sink has answered: it never falls.
    ghost faults: { Self → ℕ };

    /// The bytes that the sink has taken, where it tells them. What is told stays told.
    ghost taken: { Self → Option (List ℕ) };

    /// Writes bytes from the start of the piece, and says how many. To take none of a piece that isn't empty
    /// is a counted fault.
    fn write(&mut self, bytes: &[u8]) -> Result<usize, WriteFault>
        ensures counts { Counts (faults self.old) (faults self.new) result }
        ensures bytes { Writes (taken self.old) (taken self.new) bytes.now result };
}

/// Writes all the bytes. On a fault a prefix of them was written.
pub fn write_all<K: Sink>(output: &mut K, bytes: &[u8]) -> Result<(), WriteFault>
    ensures counts { Counts (K.faults output.old) (K.faults output.new) result }
    ensures written { (taken : List ℕ) → K.taken output.old ≡ Some taken → OnOk result (K.taken output.new ≡ Some (taken ++ bytes.now)) }
    ensures front { (taken : List ℕ) → K.taken output.old ≡ Some taken → OnErr result (TookFront taken (K.taken output.new) bytes.now) }
{
    let mut done = 0;
    while done < bytes.len() {
        done += output.write(&bytes[done..])?;
    }
    Ok(())
}
