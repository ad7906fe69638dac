ghost use Rattle.std.specs.Prelude.{◌≡◌, ◌≤◌, ◌<◌, ℕ, Bool, IsTrue, List, length, Option, Some, OnOk, OnErr};
ghost use Rattle.uss_cause.specs.Cause.{Counts};
ghost use Rattle.uss_link.specs.Talks.{Talk, Reaches, Sends, Receives, SentFront, Opens, Speaks, Stays, Closes};

/// A call of a dial was not carried out. The dial's count of faults rose, or stands at its greatest value.
#[derive(Clone, Copy, Debug, PartialEq, Eq)]
pub struct DialFault;

/// A client's way to servers: one stream at a time, opened to a host and a port.
pub trait Dial {
    /// How many faults this dial has answered: it never falls.
    ghost faults: { Self → ℕ };

    /// The streams that were opened, oldest first, each with the bytes sent and received over it, where the
    /// dial tells them. What is told stays told.
    ghost talks: { Self → Option (List Talk) };

    /// Whether a stream is open, where the dial tells it. What is told stays told.
    ghost is_open: { Self → Option Bool };

    /// Opens the one stream to this host (a name, an IPv4 address, or an IPv6 address in square brackets) and
    /// port. A stream that was open before is closed; on a fault it stays open.
    fn reach(&mut self, host: &str, port: u16) -> Result<(), DialFault>
        ensures counts { Counts (faults self.old) (faults self.new) result }
        ensures opened { Reaches (talks self.old) (talks self.new) host.now port result }
        ensures stream { Opens (is_open self.old) (is_open self.new) result };

    /// Sends bytes from the start of the piece, and says how many. To take none of a piece that isn't empty is a
    /// counted fault, and so is sending while no stream is open.
    fn send(&mut self, bytes: &[u8]) -> Result<usize, DialFault>
        ensures counts { Counts (faults self.old) (faults self.new) result }
        ensures bytes { Sends (talks self.old) (talks self.new) bytes.now result }
        ensures stream { Speaks (is_open self.old) (is_open self.new) result };

    /// Receives bytes into the start of the buffer, and says how many. None in a buffer that isn't empty is the
    /// end of the stream. Receiving while no stream is open is a counted fault.
    fn receive(&mut self, buffer: &mut [u8]) -> Result<usize, DialFault>
        ensures counts { Counts (faults self.old) (faults self.new) result }
        ensures bytes { Receives (talks self.old) (talks self.new) buffer.old buffer.new result }
        ensures stream { Speaks (is_open self.old) (is_open self.new) result };

    /// Closes the stream, if one is open: until the next one is opened, sending and receiving are faults. Never fails.
    fn close(&mut self)
        ensures counts { faults self.new ≡ faults self.old }
        ensures told { talks self.new ≡ talks self.old }
        ensures stream { Closes (is_open self.old) (is_open self.new) };
}

/// Sends all the bytes over the open stream. On a fault a prefix of them was sent.
pub fn send_all<G: Dial>(dial: &mut G, bytes: &[u8]) -> Result<(), DialFault>
    ensures counts { Counts (G.faults dial.old) (G.faults dial.new) result }
    ensures sent { (talks : List Talk) → G.talks dial.old ≡ Some talks → OnOk result (SentFront talks (G.talks dial.new) bytes.now (length bytes.now)) }
    ensures front { (talks : List Talk) → G.talks dial.old ≡ Some talks → OnErr result ((n : ℕ) × SentFront talks (G.talks dial.new) bytes.now n) }
    ensures stream { Stays (G.is_open dial.old) (G.is_open dial.new) }
    ensures over { (was : Bool) → G.is_open dial.old ≡ Some was → 0 < length bytes.now → OnOk result (IsTrue was) }
{
    let mut done = 0;
    while done < bytes.len() {
        match dial.send(&bytes[done..]) {
            Ok(count) => done += count,
            Err(DialFault) => return Err(DialFault),
        }
    }
    Ok(())
}
