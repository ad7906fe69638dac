ghost use Rattle.std.specs.Prelude.{◌≡◌, ◌≢◌, ◌<◌, ◌^◌, ◌≤◌, ◌↔◌, ℕ, IsTrue, Some, IfSome, length};
ghost use Rattle.uss_intent.specs.Identifiers.{identifier_number, flight_number, ticket_number, identifier_text, identifier_of};

use std::marker::Model;
use std::{fmt, str};
use uuid::Uuid;

/// The identifier of an operational intent, which is one flight's. A UUID; a contract sees its number.
#[derive(Clone, Copy, Debug, PartialEq, Eq, PartialOrd, Ord)]
pub struct FlightId {
    number: u128,
}

impl Model for FlightId {
    ghost use Rattle.std.specs.Prelude.{ℕ};

    ghost Value = { ℕ };

    ghost view = { λ a. a.number };

    ghost inverse = { λ n. record { number = n } };
}

/// The identifier of a ticket: a subscription that belongs to one job. A UUID; a contract sees its number.
#[derive(Clone, Copy, Debug, PartialEq, Eq, PartialOrd, Ord)]
pub struct TicketId {
    number: u128,
}

impl Model for TicketId {
    ghost use Rattle.std.specs.Prelude.{ℕ};

    ghost Value = { ℕ };

    ghost view = { λ a. a.number };

    ghost inverse = { λ n. record { number = n } };
}

const SUPPLIER: u128 = 1 << 96;

const KIND: u128 = 1 << 80;

const HIGH: u128 = 1 << 64;

const LOW: u128 = 1 << 60;

const VERSION_AND_VARIANT: u128 = (4 << 76) + (2 << 62);

fn identifier_number(kind: u8, supplier: u32, number: u64) -> u128
    ensures { result ≡ identifier_number kind supplier number }
{
    let number = u128::from(number);
    let high = number / LOW;
    let low = number % LOW;
    u128::from(supplier) * SUPPLIER
        + u128::from(kind) * KIND
        + high * HIGH
        + VERSION_AND_VARIANT
        + low
}

/// The identifier of a supplier's flight, by the supplier's number and its own number of the flight.
pub fn flight_id(supplier: u32, flight: u64) -> FlightId
    ensures value { result ≡ flight_number supplier flight }
    ensures only { (s n : ℕ) → s < 2 ^ 32 → n < 2 ^ 64 → result ≡ flight_number s n → (s ≡ supplier) × (n ≡ flight) }
    ensures no_ticket { (s n : ℕ) → s < 2 ^ 32 → n < 2 ^ 64 → result ≢ ticket_number s n }
{
    FlightId {
        number: identifier_number(0, supplier, flight),
    }
}

/// The identifier of the ticket of a supplier's job, by the supplier's number and the job's.
pub fn ticket_id(supplier: u32, job: u64) -> TicketId
    ensures value { result ≡ ticket_number supplier job }
    ensures only { (s n : ℕ) → s < 2 ^ 32 → n < 2 ^ 64 → result ≡ ticket_number s n → (s ≡ supplier) × (n ≡ job) }
    ensures no_flight { (s n : ℕ) → s < 2 ^ 32 → n < 2 ^ 64 → result ≢ flight_number s n }
{
    TicketId {
        number: identifier_number(1, supplier, job),
    }
}

#[tactic(auto, unfolding(crate::specs::Identifiers::identifier_text))]
fn print(number: u128, buffer: &mut [u8]) -> &str
    requires { 36 ≤ length buffer.old }
    ensures { result.now ≡ identifier_text number }
{
    Uuid::from_u128(number).hyphenated().encode_lower(buffer)
}

fn prints_as(number: u128, text: &str) -> bool
    ensures { IsTrue result ↔ (text.now ≡ identifier_text number) }
{
    let mut buffer = Uuid::encode_buffer();
    text == print(number, &mut buffer)
}

// `uuid` reads other forms and capital letters too.
fn number_of_text(text: &str) -> Option<u128>
    ensures { result ≡ identifier_of text.now }
{
    match Uuid::parse_str(text) {
        Ok(id) => {
            let number = id.as_u128();
            if prints_as(number, text) {
                Some(number)
            } else {
                None
            }
        }
        Err(_) => None,
    }
}

fn read_number(bytes: &[u8]) -> Option<u128>
    ensures { result ≡ identifier_of bytes.now }
{
    match str::from_utf8(bytes) {
        Ok(text) => number_of_text(text),
        Err(_) => None,
    }
}

impl FlightId {
    /// The identifier with this number.
    pub fn from_number(number: u128) -> FlightId
        ensures { result ≡ number }
    {
        FlightId { number }
    }

    /// The identifier's number.
    pub fn number(self) -> u128
        ensures { result ≡ self }
    {
        self.number
    }

    /// The identifier with this text, in the hyphenated lower-case form alone. Takes no memory.
    pub fn read(bytes: &[u8]) -> Option<FlightId>
        ensures value { result ≡ identifier_of bytes.now }
        ensures found { IfSome result (λ id. bytes.now ≡ identifier_text id) }
        ensures every { (id : ℕ) → id < 2 ^ 128 → bytes.now ≡ identifier_text id → result ≡ Some id }
    {
        match read_number(bytes) {
            Some(number) => Some(FlightId { number }),
            None => None,
        }
    }
}

impl TicketId {
    /// The identifier with this number.
    pub fn from_number(number: u128) -> TicketId
        ensures { result ≡ number }
    {
        TicketId { number }
    }

    /// The identifier's number.
    pub fn number(self) -> u128
        ensures { result ≡ self }
    {
        self.number
    }

    /// The identifier with this text, in the hyphenated lower-case form alone. Takes no memory.
    pub fn read(bytes: &[u8]) -> Option<TicketId>
        ensures value { result ≡ identifier_of bytes.now }
        ensures found { IfSome result (λ id. bytes.now ≡ identifier_text id) }
        ensures every { (id : ℕ) → id < 2 ^ 128 → bytes.now ≡ identifier_text id → result ≡ Some id }
    {
        match read_number(bytes) {
            Some(number) => Some(TicketId { number }),
            None => None,
        }
    }
}

impl fmt::Display for FlightId {
    ghost output = { λ id. Some (identifier_text id) };

    fn fmt<W: fmt::Write>(&self, f: &mut fmt::Formatter<W>) -> fmt::Result {
        let mut buffer = Uuid::encode_buffer();
        f.write_str(print(self.number, &mut buffer))
    }
}

impl fmt::Display for TicketId {
    ghost output = { λ id. Some (identifier_text id) };

    fn fmt<W: fmt::Write>(&self, f: &mut fmt::Formatter<W>) -> fmt::Result {
        let mut buffer = Uuid::encode_buffer();
        f.write_str(print(self.number, &mut buffer))
    }
}
