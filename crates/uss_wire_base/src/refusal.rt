ghost use Rattle.std.specs.Prelude.{◌≡◌};
ghost use Rattle.uss_wire_base.specs.Names.{name};
ghost use Rattle.uss_wire_base.specs.Refusals as spec;

use std::alloc::{AllocError, AllocFailed};

/// A member of a message, by its name.
#[derive(Clone, Copy, Debug, PartialEq, Eq)]
pub enum Member {
    /// The whole message, which has no name.
    Whole,
    /// `lat`: a latitude in degrees: not in this profile.
    Lat,
    /// `lng`: a longitude in degrees: not in this profile.
    Lng,
    /// `lat_e7`: a latitude in 1e-7 degrees.
    LatE7,
    /// `lng_e7`: a longitude in 1e-7 degrees.
    LngE7,
    /// `vertices`: the vertices of a polygon.
    Vertices,
    /// `value`: an instant; and an altitude in metres, which isn't in this profile.
    Value,
    /// `value_mm`: an altitude in mm.
    ValueMm,
    /// `reference`: the datum of an altitude; and the reference of an intent.
    Reference,
    /// `units`: the unit of an altitude.
    Units,
    /// `format`: the format of an instant.
    Format,
    /// `outline_polygon`: the outline of a volume.
    OutlinePolygon,
    /// `outline_circle`: an outline that is a circle: not in this profile.
    OutlineCircle,
    /// `altitude_lower`: the lower altitude of a volume.
    AltitudeLower,
    /// `altitude_upper`: the upper altitude of a volume.
    AltitudeUpper,
    /// `volume`: the space of a volume in four dimensions.
    Volume,
    /// `time_start`: the first instant.
    TimeStart,
    /// `time_end`: the last instant.
    TimeEnd,
    /// `id`: an identifier.
    Id,
    /// `manager`: the client that manages a reference.
    Manager,
    /// `version`: a version.
    Version,
    /// `state`: the state of an intent.
    State,
    /// `ovn`: an OVN.
    Ovn,
    /// `uss_base_url`: a base URL.
    UssBaseUrl,
    /// `subscription_id`: the identifier of a subscription.
    SubscriptionId,
    /// `volumes`: the volumes of an intent.
    Volumes,
    /// `off_nominal_volumes`: the off-nominal volumes of an intent.
    OffNominalVolumes,
    /// `priority`: a priority.
    Priority,
    /// `details`: the details of an intent.
    Details,
    /// `extents`: the extents of a change, or the area of a subscription.
    Extents,
    /// `key`: the OVNs that a change knows.
    Key,
    /// `new_subscription`: a subscription made with a change: not in this profile.
    NewSubscription,
    /// `subscribers`: those that are to be notified of a change.
    Subscribers,
    /// `subscriptions`: the subscriptions by which one is notified.
    Subscriptions,
    /// `notification_index`: how often a subscription was notified of a change.
    NotificationIndex,
    /// `area_of_interest`: the area of a query.
    AreaOfInterest,
    /// `operational_intent_reference`: a reference.
    OperationalIntentReference,
    /// `operational_intent_references`: references.
    OperationalIntentReferences,
    /// `notify_for_constraints`: whether a subscription is for constraints: not in this profile where true.
    NotifyForConstraints,
    /// `subscription`: a subscription.
    Subscription,
    /// `operational_intent`: an operational intent.
    OperationalIntent,
    /// `operational_intent_id`: the identifier of an operational intent.
    OperationalIntentId,
    /// `message`: the text of an error.
    Message,
    /// `refusal`: the number of an error.
    Refusal,
    /// `missing_operational_intents`: the references whose OVNs a key lacks.
    MissingOperationalIntents,
    /// `flight`: the number of a flight.
    Flight,
    /// `number`: the number of a request.
    Number,
    /// `wish`: what a request wants.
    Wish,
    /// `to`: the state that a request wants.
    To,
    /// `rounds`: how many attempts a request allows.
    Rounds,
    /// `alternatives`: the alternatives of a request.
    Alternatives,
    /// `altitude_mm`: the altitude of a position, in mm.
    AltitudeMm,
    /// `skip`: how many of those owed a sweep leaves out.
    Skip,
}

impl Member {
    /// The member's name in a message, and an empty text for the whole message.
    #[tactic(auto, unfolding(crate::specs::Names::name))]
    pub fn name(self) -> &'static str
        ensures { result.now ≡ name self }
    {
        match self {
            Member::Whole => "",
            Member::Lat => "lat",
            Member::Lng => "lng",
            Member::LatE7 => "lat_e7",
            Member::LngE7 => "lng_e7",
            Member::Vertices => "vertices",
            Member::Value => "value",
            Member::ValueMm => "value_mm",
            Member::Reference => "reference",
            Member::Units => "units",
            Member::Format => "format",
            Member::OutlinePolygon => "outline_polygon",
            Member::OutlineCircle => "outline_circle",
            Member::AltitudeLower => "altitude_lower",
            Member::AltitudeUpper => "altitude_upper",
            Member::Volume => "volume",
            Member::TimeStart => "time_start",
            Member::TimeEnd => "time_end",
            Member::Id => "id",
            Member::Manager => "manager",
            Member::Version => "version",
            Member::State => "state",
            Member::Ovn => "ovn",
            Member::UssBaseUrl => "uss_base_url",
            Member::SubscriptionId => "subscription_id",
            Member::Volumes => "volumes",
            Member::OffNominalVolumes => "off_nominal_volumes",
            Member::Priority => "priority",
            Member::Details => "details",
            Member::Extents => "extents",
            Member::Key => "key",
            Member::NewSubscription => "new_subscription",
            Member::Subscribers => "subscribers",
            Member::Subscriptions => "subscriptions",
            Member::NotificationIndex => "notification_index",
            Member::AreaOfInterest => "area_of_interest",
            Member::OperationalIntentReference => "operational_intent_reference",
            Member::OperationalIntentReferences => "operational_intent_references",
            Member::NotifyForConstraints => "notify_for_constraints",
            Member::Subscription => "subscription",
            Member::OperationalIntent => "operational_intent",
            Member::OperationalIntentId => "operational_intent_id",
            Member::Message => "message",
            Member::Refusal => "refusal",
            Member::MissingOperationalIntents => "missing_operational_intents",
            Member::Flight => "flight",
            Member::Number => "number",
            Member::Wish => "wish",
            Member::To => "to",
            Member::Rounds => "rounds",
            Member::Alternatives => "alternatives",
            Member::AltitudeMm => "altitude_mm",
            Member::Skip => "skip",
        }
    }
}

/// Why a message is refused. Where a refusal has a member, it is the first that is refused, in the order in which the message is
/// read.
#[derive(Clone, Copy, Debug, PartialEq, Eq)]
pub enum WireRefusal {
    /// 401: the message is no JSON in UTF-8, or nests deeper than 127.
    BadJson,
    /// 402: the member is missing.
    Missing(Member),
    /// 403: the member, or an item of its list, is of another kind, or outside what it may be.
    WrongKind(Member),
    /// 404: the member isn't in this profile.
    NotThisProfile(Member),
    /// 405: the member is no instant of RFC 3339 with at most nine decimals.
    BadTime(Member),
    /// 406: the member's list is too long.
    TooMany(Member),
    /// 101: an outline of fewer than 3 vertices.
    TooFewVertices,
    /// 102: an outline of more than 1,000 vertices.
    TooManyVertices,
    /// 103: the vertex with this index, from 0, is the first that is out of range.
    OutOfRange(usize),
    /// 111: the lower altitude is above the upper.
    LowAboveHigh,
    /// 112: the start is after the end.
    StartAfterEnd,
    /// 113: an altitude out of range.
    AltitudeRange,
    /// 114: an instant out of range.
    TimeRange,
    /// 121: an intent of more than 64 volumes.
    TooManyVolumes,
    /// 122: an intent of more than 10,000 vertices.
    TooManyVerticesTogether,
    /// 123: an intent with off-nominal volumes in Accepted or Activated.
    OffNominalNotAllowed,
    /// 124: an intent without a volume.
    NoVolume,
    /// 125: a priority above 1,000.
    PriorityRange,
    /// 128: a text that is due to be a client's name and isn't one.
    BadName,
    /// 129: a text that is due to be a base URL and isn't one.
    BadBase,
    /// 130: a text that is due to be an OVN and isn't one.
    BadOvn,
    /// There was no memory. It has no number.
    Memory,
}

/// The member, and none where it is the whole message.
fn named(member: Member) -> Option<Member>
    ensures { result ≡ spec.named member }
{
    match member {
        Member::Whole => None,
        _ => Some(member),
    }
}

impl WireRefusal {
    /// The number under which the refusal is printed: 101 to 130 and 401 to 406, none for out of memory.
    pub fn number(&self) -> Option<u16>
        ensures { result ≡ spec.number_of self.now }
    {
        match self {
            WireRefusal::BadJson => Some(401),
            WireRefusal::Missing(_) => Some(402),
            WireRefusal::WrongKind(_) => Some(403),
            WireRefusal::NotThisProfile(_) => Some(404),
            WireRefusal::BadTime(_) => Some(405),
            WireRefusal::TooMany(_) => Some(406),
            WireRefusal::TooFewVertices => Some(101),
            WireRefusal::TooManyVertices => Some(102),
            WireRefusal::OutOfRange(_) => Some(103),
            WireRefusal::LowAboveHigh => Some(111),
            WireRefusal::StartAfterEnd => Some(112),
            WireRefusal::AltitudeRange => Some(113),
            WireRefusal::TimeRange => Some(114),
            WireRefusal::TooManyVolumes => Some(121),
            WireRefusal::TooManyVerticesTogether => Some(122),
            WireRefusal::OffNominalNotAllowed => Some(123),
            WireRefusal::NoVolume => Some(124),
            WireRefusal::PriorityRange => Some(125),
            WireRefusal::BadName => Some(128),
            WireRefusal::BadBase => Some(129),
            WireRefusal::BadOvn => Some(130),
            WireRefusal::Memory => None,
        }
    }

    /// The member at which the message is refused, where the refusal is one of a member; none where the message is refused as a whole.
    pub fn member(&self) -> Option<Member>
        ensures { result ≡ spec.member_of self.now }
    {
        match self {
            WireRefusal::Missing(member)
            | WireRefusal::WrongKind(member)
            | WireRefusal::NotThisProfile(member)
            | WireRefusal::BadTime(member)
            | WireRefusal::TooMany(member) => named(*member),
            _ => None,
        }
    }
}

impl From<AllocError> for WireRefusal {
    ghost use Rattle.std.specs.Prelude.{◌≡◌};
    ghost use Rattle.uss_wire_base.specs.declared.refusal.WireRefusal.TheVariants.{Memory};

    ghost from_gives = { λ _ e. e ≡ Memory };

    fn from(_: AllocError) -> WireRefusal {
        WireRefusal::Memory
    }
}

impl<T: Drop> From<AllocFailed<T>> for WireRefusal {
    ghost use Rattle.std.specs.Prelude.{◌≡◌};
    ghost use Rattle.uss_wire_base.specs.declared.refusal.WireRefusal.TheVariants.{Memory};

    ghost from_gives = { λ _ e. e ≡ Memory };

    fn from(_: AllocFailed<T>) -> WireRefusal {
        WireRefusal::Memory
    }
}
