use crate::lists::{CountedFlights, CountedTags};
use crate::words::{conform_word, field_word, verdict_word};
use std::fmt;
use uss_event::{Answer, AskRefusal, Tags};
use uss_intent::{Name, Ovn};

/// What comes of a request that a supplier carries out, with the calls that it makes for it. It is printed as one line of words.
#[derive(Debug, Drop)]
pub enum Outcome {
    /// The supplier's answer.
    Answer(Answer),
    /// The supplier refused the request.
    Refused(AskRefusal),
    /// A call of the discovery service failed.
    DssFault {
        /// The sum of the service's counts of faults and of unreadable replies.
        count: u64,
        /// The attempts of the job that may still be recorded.
        tags: Tags,
    },
    /// A call of another supplier failed.
    PeerFault {
        /// The supplier that the call named.
        peer: Name,
        /// The sum of the counts of faults and of unreadable replies.
        count: u64,
    },
    /// The supplier's journal failed.
    JournalFault,
    /// There was no memory. It prints nothing.
    Memory,
}

/// What is recorded of a flight: `tag G alternative I ovn O version V`.
#[derive(Clone, Copy)]
struct Recorded<'a> {
    tag: u64,
    alternative: u8,
    ovn: &'a Ovn,
    version: u32,
}

impl<'a> fmt::Display for Recorded<'a> {
    ghost use Rattle.std.specs.Prelude.{Some};
    ghost use Rattle.uss_outcome.specs.Outcomes.{sentence, recorded_words};

    ghost output = { λ r. Some (sentence (recorded_words r.tag r.alternative r.ovn.now r.version)) };

    fn fmt<W: fmt::Write>(&self, f: &mut fmt::Formatter<W>) -> fmt::Result {
        let tag = self.tag;
        let alternative = self.alternative;
        let ovn = self.ovn;
        let version = self.version;
        write!(
            f,
            "tag {tag} alternative {alternative} ovn {ovn} version {version}"
        )
    }
}

/// An answer, as it is printed.
#[derive(Clone, Copy)]
struct AnswerText<'a> {
    answer: &'a Answer,
}

impl<'a> fmt::Display for AnswerText<'a> {
    ghost use Rattle.std.specs.Prelude.{Some};
    ghost use Rattle.uss_outcome.specs.Outcomes.{sentence, answer_words};

    ghost output = { λ t. Some (sentence (answer_words t.answer.now)) };

    fn fmt<W: fmt::Write>(&self, f: &mut fmt::Formatter<W>) -> fmt::Result {
        match self.answer {
            Answer::Planned {
                tag,
                alternative,
                ovn,
                version,
                ..
            } => {
                let recorded = Recorded {
                    tag: *tag,
                    alternative: *alternative,
                    ovn,
                    version: *version,
                };
                write!(f, "planned {recorded}")
            }
            Answer::Changed {
                tag,
                alternative,
                ovn,
                version,
                ..
            } => {
                let recorded = Recorded {
                    tag: *tag,
                    alternative: *alternative,
                    ovn,
                    version: *version,
                };
                write!(f, "changed {recorded}")
            }
            Answer::Ended { .. } => f.write_str("ended"),
            Answer::Conflict {
                flight,
                manager,
                rule,
            } => {
                let rule = verdict_word(*rule);
                write!(f, "conflict {flight} {manager} {rule}")
            }
            Answer::Stale { missing } => {
                let missing = CountedFlights {
                    flights: missing.as_slice(),
                };
                write!(f, "stale {missing}")
            }
            Answer::Cancelled => f.write_str("cancelled"),
            Answer::Steady { verdict } => {
                let verdict = conform_word(*verdict);
                write!(f, "steady {verdict}")
            }
            Answer::Crowded { count } => write!(f, "crowded {count}"),
            Answer::DssRefused { number } => write!(f, "dss-refused {number}"),
            Answer::PeerRefused { peer, status } => write!(f, "peer-refused {peer} {status}"),
            Answer::Unsettled { tag } => write!(f, "unsettled {tag}"),
        }
    }
}

/// A refusal, as it is printed.
#[derive(Clone, Copy)]
struct RefusalText<'a> {
    refusal: &'a AskRefusal,
}

impl<'a> fmt::Display for RefusalText<'a> {
    ghost use Rattle.std.specs.Prelude.{Some};
    ghost use Rattle.uss_outcome.specs.Outcomes.{sentence, refusal_words};

    ghost output = { λ t. Some (sentence (refusal_words t.refusal.now)) };

    fn fmt<W: fmt::Write>(&self, f: &mut fmt::Formatter<W>) -> fmt::Result {
        match self.refusal {
            AskRefusal::BadPlan(reason) => write!(f, "301 {reason}"),
            AskRefusal::WrongTransition(from, to) => write!(f, "302 {from} {to}"),
            AskRefusal::TooFar(limit) => write!(f, "303 {limit}"),
            AskRefusal::Past => f.write_str("304"),
            AskRefusal::Busy(number) => write!(f, "305 {number}"),
            AskRefusal::OldNumber(last) => write!(f, "306 {last}"),
            AskRefusal::DifferentRepeat(field) => {
                let field = field_word(*field);
                write!(f, "307 {field}")
            }
            AskRefusal::NoSuchFlight => f.write_str("308"),
            AskRefusal::Closed => f.write_str("309"),
            AskRefusal::BookFull(used, need) => write!(f, "310 {used} {need}"),
            AskRefusal::NotAsked(last) => write!(f, "312 {last}"),
            AskRefusal::OldPosition(last) => write!(f, "313 {last}"),
        }
    }
}

impl fmt::Display for Outcome {
    ghost use Rattle.std.specs.Prelude.{Some};
    ghost use Rattle.uss_outcome.specs.Outcomes.{outcome_text};

    ghost output = { λ outcome. Some (outcome_text outcome) };

    fn fmt<W: fmt::Write>(&self, f: &mut fmt::Formatter<W>) -> fmt::Result {
        match self {
            Outcome::Answer(answer) => {
                let answer = AnswerText { answer };
                write!(f, "{answer}")
            }
            Outcome::Refused(refusal) => {
                let refusal = RefusalText { refusal };
                write!(f, "refused {refusal}")
            }
            Outcome::DssFault { count, tags } => {
                let tags = CountedTags {
                    tags: tags.as_slice(),
                };
                write!(f, "dss-fault {count} tags {tags}")
            }
            Outcome::PeerFault { peer, count } => write!(f, "peer-fault {peer} {count}"),
            Outcome::JournalFault => f.write_str("journal-fault"),
            Outcome::Memory => Ok(()),
        }
    }
}
