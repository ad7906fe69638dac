ghost use Rattle.std.specs.Prelude.{◌≡◌, ℕ, ◌≤◌, ◌-◌, ◌++◌, [], ◌∷◌, List, Some, None, drop, length, max, min, true, false, IfOk, IfNone, OnOk, OnErr};
ghost use Rattle.std.specs.Option.{option_to_list, option_copied};
ghost use Rattle.uss_cause.specs.Cause.{Counts, Rose};
ghost use Rattle.uss_link.specs.Bytes.{Takes};
ghost use Rattle.uss_link.specs.Stores.{IsCall, first_or, is_listed, one_more};
ghost use Rattle.uss_link.specs.Talks.{Talk, Reaches, Sends, Receives, Opens, Speaks, Closes, fresh_talk, with_sent, with_received};

use crate::dial::{Dial, DialFault};
use std::alloc::{AllocError, Global};
use std::marker::Model;
use uss_cause::raised;

/// The bytes that a dial in memory gives over one stream, seen as their list.
#[derive(Debug, Drop)]
pub struct Reply {
    bytes: Vec<u8>,
}

impl Model for Reply {
    ghost use Rattle.std.specs.Prelude.{List, ℕ};

    ghost Value = { List ℕ };

    ghost view = { λ r. r.bytes.items };
}

impl Reply {
    /// A reply of these bytes.
    pub fn new(bytes: Vec<u8>) -> Reply
        ensures { result ≡ bytes.items }
    {
        Reply { bytes }
    }
}

/// One stream over a dial in memory: where it was opened to, and what was sent and received over it.
#[derive(Debug, Drop)]
pub struct Conversation {
    host: Vec<u8>,
    port: u16,
    sent: Vec<u8>,
    received: Vec<u8>,
    ended: bool,
}

impl Model for Conversation {
    ghost use Rattle.uss_link.specs.Talks.{Talk};

    ghost Value = { Talk };

    ghost view = { λ c. record { host = c.host.items; port = c.port; sent = c.sent.items; received = c.received.items; ended = c.ended } };
}

impl Conversation {
    /// A stream to this host and port, over which nothing went yet.
    fn new(alloc: Global, host: &str, port: u16) -> Result<Conversation, AllocError>
        ensures { IfOk result (λ c. c ≡ fresh_talk host.now port) }
    {
        Ok(Conversation {
            host: Vec::from_slice(alloc, host.as_bytes())?,
            port,
            sent: Vec::new(alloc),
            received: Vec::new(alloc),
            ended: false,
        })
    }

    /// The bytes of the host that was reached.
    pub fn host(&self) -> &[u8]
        ensures { result.now ≡ self.now.host }
    {
        self.host.as_slice()
    }

    /// The port that was reached.
    pub fn port(&self) -> u16
        ensures { result ≡ self.now.port }
    {
        self.port
    }

    /// The bytes that were sent.
    pub fn sent(&self) -> &[u8]
        ensures { result.now ≡ self.now.sent }
    {
        self.sent.as_slice()
    }

    /// The bytes that were received.
    pub fn received(&self) -> &[u8]
        ensures { result.now ≡ self.now.received }
    {
        self.received.as_slice()
    }

    /// Whether the end of the stream was given.
    pub fn ended(&self) -> bool
        ensures { result ≡ self.now.ended }
    {
        self.ended
    }

    /// Adds to the bytes that were sent.
    fn send(&mut self, bytes: &[u8]) -> Result<(), AllocError>
        ensures done { OnOk result (self.new ≡ with_sent bytes.now self.old) }
        ensures same { OnErr result (self.new ≡ self.old) }
    {
        self.sent.extend_from_slice(bytes)
    }

    /// Adds to the bytes that were received, and notes the end where this is it.
    fn receive(&mut self, bytes: &[u8], is_end: bool) -> Result<(), AllocError>
        ensures done { OnOk result (self.new ≡ with_received bytes.now is_end self.old) }
        ensures same { OnErr result (self.new ≡ self.old) }
    {
        self.received.extend_from_slice(bytes)?;
        self.ended = self.ended || is_end;
        Ok(())
    }
}

/// A dial in memory, which tells what went over it. It has a list of replies: each stream that is opened gives
/// the next one, whose end is the end of the stream, and after the last an empty one. The calls of `reach`, `send`
/// and `receive` are numbered together from 1, and those whose number is listed answer a fault and change nothing
/// but the two counts. At most `piece` bytes are taken or given at a call. Where memory is wanting, or no stream
/// is open, that is a counted fault too.
#[derive(Drop)]
pub struct MemoryDial {
    alloc: Global,
    past: Vec<Conversation>,
    last: Option<Conversation>,
    is_open: bool,
    reply: Reply,
    place: usize,
    replies: Vec<Reply>,
    piece: usize,
    failing: Vec<u64>,
    calls: u64,
    faults: u64,
}

impl Model for MemoryDial {
    ghost use Rattle.std.specs.Prelude.{◌≡◌, ◌≤◌, ◌<◌, ◌++◌, [], IsTrue, IfSome, IfNone, length, drop};
    ghost use Rattle.std.specs.Option.{option_to_list};
    ghost use Rattle.uss_link.specs.Stores.{Exchanges};

    ghost Value = { Exchanges };

    ghost view = { λ s. record { talks = s.past.items ++ option_to_list s.last; is_open = s.is_open; left = drop s.place s.reply; replies = s.replies.items; piece = s.piece; failing = s.failing.items; calls = s.calls; faults = s.faults } };

    ghost invariant = { λ s. (s.place ≤ length s.reply) × (0 < s.piece) × IfSome s.last (λ t. IsTrue t.ended → s.place ≡ length s.reply) × IfNone s.last (s.past.items ≡ []) };
}

impl MemoryDial {
    /// A dial over which no stream was opened yet, whose streams give these replies, as many bytes at a call as
    /// the buffer takes, and of whose calls none fails.
    pub fn new(alloc: Global, replies: Vec<Reply>) -> MemoryDial
        ensures { result ≡ record { talks = []; is_open = false; left = []; replies = replies.items; piece = 18446744073709551615; failing = []; calls = 0; faults = 0 } }
    {
        MemoryDial {
            alloc,
            past: Vec::new(alloc),
            last: None,
            is_open: false,
            reply: Reply::new(Vec::new(alloc)),
            place: 0,
            replies,
            piece: usize::MAX,
            failing: Vec::new(alloc),
            calls: 0,
            faults: 0,
        }
    }

    /// The same dial, of whose calls those with these numbers fail.
    pub fn failing_at(self, failing: Vec<u64>) -> MemoryDial
        ensures { result ≡ record self { failing = failing.items } }
    {
        MemoryDial { failing, ..self }
    }

    /// The same dial, which takes and gives at most so many bytes at a call, and at least one.
    pub fn in_pieces_of(self, piece: usize) -> MemoryDial
        ensures { result ≡ record self { piece = max 1 piece } }
    {
        MemoryDial {
            piece: piece.max(1),
            ..self
        }
    }

    /// The streams that were opened before the last one, oldest first.
    pub fn past(&self) -> &[Conversation]
        ensures before { (last : List Talk) × (self.now.talks ≡ result.now ++ last) }
        ensures but_one { length result.now ≡ length self.now.talks - 1 }
    {
        self.past.as_slice()
    }

    /// The stream that was opened last, if any was.
    pub fn last(&self) -> Option<&Conversation>
        ensures behind { (past : List Talk) × (self.now.talks ≡ past ++ option_to_list (option_copied result)) }
        ensures none { IfNone result (self.now.talks ≡ []) }
    {
        self.last.as_ref()
    }

    /// How many calls were made, up to `u64::MAX`.
    pub fn calls(&self) -> u64
        ensures { result ≡ self.now.calls }
    {
        self.calls
    }

    /// How many calls answered a fault, up to `u64::MAX`.
    pub fn faults(&self) -> u64
        ensures { result ≡ self.now.faults }
    {
        self.faults
    }

    /// Counts a call, and says whether it is to fail.
    fn next_call_fails(&mut self) -> bool
        ensures counted { self.new ≡ record self.old { calls = one_more self.old.calls } }
        ensures listed { result ≡ is_listed self.new.calls self.old.failing }
    {
        self.calls = self.calls.saturating_add(1);
        self.failing.contains(&self.calls)
    }

    /// Counts a fault.
    fn refuse(&mut self) -> DialFault
        ensures count { Rose self.old.faults self.new.faults }
        ensures kept { self.old.faults ≤ self.new.faults }
        ensures same { self.new ≡ record self.old { faults = one_more self.old.faults } }
    {
        self.faults = raised(self.faults);
        DialFault
    }

    /// Opens a stream to this host and port, which is then the last one.
    fn begin(&mut self, host: &str, port: u16) -> Result<(), AllocError>
        ensures done { OnOk result (self.new ≡ record self.old { talks = self.old.talks ++ fresh_talk host.now port ∷ []; is_open = true; left = first_or [] self.old.replies; replies = drop 1 self.old.replies }) }
        ensures same { OnErr result (self.new ≡ self.old) }
    {
        let talk = Conversation::new(self.alloc, host, port)?;
        put_away(&mut self.past, &mut self.last)?;
        self.reply = next_reply(self.alloc, &mut self.replies);
        self.place = 0;
        self.last = Some(talk);
        self.is_open = true;
        Ok(())
    }
}

/// Takes the first reply of the list, or makes an empty one where there is none.
fn next_reply(alloc: Global, replies: &mut Vec<Reply>) -> Reply
    ensures first { result ≡ first_or [] replies.old.items }
    ensures rest { replies.new.items ≡ drop 1 replies.old.items }
{
    if replies.is_empty() {
        Reply::new(Vec::new(alloc))
    } else {
        replies.remove(0)
    }
}

/// Puts the last stream after those before it.
fn put_away(past: &mut Vec<Conversation>, last: &mut Option<Conversation>) -> Result<(), AllocError>
    ensures done { OnOk result (past.new.items ≡ past.old.items ++ option_to_list last.old) }
    ensures none { OnOk result (last.new ≡ None) }
    ensures same { OnErr result ((past.new.items ≡ past.old.items) × (last.new ≡ last.old)) }
{
    match last.take() {
        Some(talk) => match past.push(talk) {
            Ok(()) => Ok(()),
            Err(failed) => {
                *last = Some(failed.value);
                Err(AllocError)
            }
        },
        None => Ok(()),
    }
}

impl Dial for MemoryDial {
    ghost use Rattle.std.specs.Prelude.{Some};

    ghost faults = { λ s. s.faults };

    ghost talks = { λ s. Some s.talks };

    ghost is_open = { λ s. Some s.is_open };

    fn reach(&mut self, host: &str, port: u16) -> Result<(), DialFault>
        ensures counts { Counts self.old.faults self.new.faults result }
        ensures opened { Reaches (Some self.old.talks) (Some self.new.talks) host.now port result }
        ensures stream { Opens (Some self.old.is_open) (Some self.new.is_open) result }
        ensures reply { OnOk result ((self.new.left ≡ first_or [] self.old.replies) × (self.new.replies ≡ drop 1 self.old.replies)) }
        ensures same { OnErr result ((self.new.left ≡ self.old.left) × (self.new.replies ≡ self.old.replies)) }
        ensures call { IsCall self.old.failing self.old.calls self.old.faults self.new.failing self.new.calls self.new.faults result }
        ensures piece { self.new.piece ≡ self.old.piece }
    {
        if self.next_call_fails() {
            return Err(self.refuse());
        }
        match self.begin(host, port) {
            Ok(()) => Ok(()),
            Err(AllocError) => Err(self.refuse()),
        }
    }

    fn send(&mut self, bytes: &[u8]) -> Result<usize, DialFault>
        ensures counts { Counts self.old.faults self.new.faults result }
        ensures bytes { Sends (Some self.old.talks) (Some self.new.talks) bytes.now result }
        ensures stream { Speaks (Some self.old.is_open) (Some self.new.is_open) result }
        ensures same { (self.new.left ≡ self.old.left) × (self.new.replies ≡ self.old.replies) }
        ensures call { IsCall self.old.failing self.old.calls self.old.faults self.new.failing self.new.calls self.new.faults result }
        ensures most { IfOk result (λ n. n ≡ min (length bytes.now) self.old.piece) }
        ensures piece { self.new.piece ≡ self.old.piece }
    {
        if self.next_call_fails() {
            return Err(self.refuse());
        }
        let count = bytes.len().min(self.piece);
        match &mut self.last {
            Some(talk) if self.is_open => match talk.send(&bytes[..count]) {
                Ok(()) => Ok(count),
                Err(AllocError) => Err(self.refuse()),
            },
            _ => Err(self.refuse()),
        }
    }

    fn receive(&mut self, buffer: &mut [u8]) -> Result<usize, DialFault>
        ensures counts { Counts self.old.faults self.new.faults result }
        ensures bytes { Receives (Some self.old.talks) (Some self.new.talks) buffer.old buffer.new result }
        ensures stream { Speaks (Some self.old.is_open) (Some self.new.is_open) result }
        ensures given { IfOk result (Takes self.old.left (Some self.new.left) buffer.old buffer.new) }
        ensures same { OnErr result (self.new.left ≡ self.old.left) }
        ensures replies { self.new.replies ≡ self.old.replies }
        ensures call { IsCall self.old.failing self.old.calls self.old.faults self.new.failing self.new.calls self.new.faults result }
        ensures most { IfOk result (λ n. n ≡ min (min (length self.old.left) (length buffer.old)) self.old.piece) }
        ensures piece { self.new.piece ≡ self.old.piece }
    {
        if self.next_call_fails() {
            return Err(self.refuse());
        }
        let left = self.reply.bytes.len() - self.place;
        let count = left.min(buffer.len()).min(self.piece);
        let end = self.place + count;
        let is_end = count == 0 && !buffer.is_empty();
        let given = &self.reply.bytes.as_slice()[self.place..end];
        match &mut self.last {
            Some(talk) if self.is_open => match talk.receive(given, is_end) {
                Ok(()) => {
                    buffer[..count].copy_from_slice(given);
                    self.place = end;
                    Ok(count)
                }
                Err(AllocError) => Err(self.refuse()),
            },
            _ => Err(self.refuse()),
        }
    }

    fn close(&mut self)
        ensures counts { self.new.faults ≡ self.old.faults }
        ensures told { Some self.new.talks ≡ Some self.old.talks }
        ensures stream { Closes (Some self.old.is_open) (Some self.new.is_open) }
        ensures same { self.new ≡ record self.old { is_open = false } }
    {
        self.is_open = false;
    }
}
