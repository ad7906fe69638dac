ghost use Rattle.std.specs.Prelude.{◌≡◌, Ok, Err};
ghost use Rattle.serde_json.specs.View.{view};
ghost use Rattle.uss_wire_base.specs.Reading.{Gives, GivesBy, field, word_at, list_at};
ghost use Rattle.uss_wire_words.specs.Volumes as spec;

use serde_json::Value;
use std::alloc::Global;
use uss_shape::{Outline, Place, ShapeRefusal};
use uss_vol4::{VolRefusal, Volume4};
use uss_wire_base::{
    Member, ReadItem, WireRefusal, each, instant, integer_of, items, member_of, object, without,
    word,
};

/// That a member is this text.
fn word_of(text: &str, member: Member, value: &Value) -> Result<(), WireRefusal>
    ensures { Gives result (field member (word_at text.now) (view value.now)) }
{
    word(text, member, member_of(member, value)?)
}

/// How the vertices of a polygon are read.
#[derive(Clone, Copy)]
struct VertexReader;

impl ReadItem<Place> for VertexReader {
    ghost use Rattle.uss_wire_words.specs.Volumes.{vertex_at};

    ghost reads = { λ _. vertex_at };

    fn read_item(&self, _: Global, place: Member, value: &Value) -> Result<Place, WireRefusal> {
        vertex(place, value)
    }
}

/// A vertex, in 1e-7 degrees.
#[tactic(auto, unfolding(crate::specs::Volumes::vertex_at))]
fn vertex(place: Member, value: &Value) -> Result<Place, WireRefusal>
    ensures { Gives result (spec.vertex_at place (view value.now)) }
{
    object(place, value)?;
    without(Member::Lat, value)?;
    without(Member::Lng, value)?;
    let y = integer_of(Member::LatE7, value)?;
    let x = integer_of(Member::LngE7, value)?;
    Ok(Place { x, y })
}

/// The vertices of a polygon, whatever they are.
fn vertices(alloc: Global, member: Member, value: &Value) -> Result<Vec<Place>, WireRefusal>
    ensures { GivesBy (λ v. v.items) result (list_at spec.vertex_at member (view value.now)) }
{
    let items = items(member, value)?;
    each(alloc, &VertexReader, member, items)
}

fn outline_refusal(refusal: ShapeRefusal) -> WireRefusal
    ensures { result ≡ spec.outline_refusal refusal }
{
    match refusal {
        ShapeRefusal::TooFewVertices => WireRefusal::TooFewVertices,
        ShapeRefusal::TooManyVertices => WireRefusal::TooManyVertices,
        ShapeRefusal::OutOfRange(index) => WireRefusal::OutOfRange(index),
        ShapeRefusal::Memory => WireRefusal::Memory,
    }
}

fn volume_refusal(refusal: VolRefusal) -> WireRefusal
    ensures { result ≡ spec.volume_refusal refusal }
{
    match refusal {
        VolRefusal::LowAboveHigh => WireRefusal::LowAboveHigh,
        VolRefusal::StartAfterEnd => WireRefusal::StartAfterEnd,
        VolRefusal::AltitudeRange => WireRefusal::AltitudeRange,
        VolRefusal::TimeRange => WireRefusal::TimeRange,
        VolRefusal::Memory => WireRefusal::Memory,
    }
}

fn outline_of(vertices: Vec<Place>) -> Result<Outline, WireRefusal>
    ensures { Gives result (spec.outline_of vertices.items) }
{
    match Outline::of(vertices) {
        Ok(outline) => Ok(outline),
        Err(refusal) => Err(outline_refusal(refusal)),
    }
}

/// A polygon.
#[tactic(auto, unfolding(crate::specs::Volumes::polygon_at))]
fn polygon(alloc: Global, place: Member, value: &Value) -> Result<Outline, WireRefusal>
    ensures { Gives result (spec.polygon_at place (view value.now)) }
{
    object(place, value)?;
    let vertices = vertices(alloc, Member::Vertices, member_of(Member::Vertices, value)?)?;
    outline_of(vertices)
}

/// The polygon of a member.
fn polygon_of(alloc: Global, member: Member, value: &Value) -> Result<Outline, WireRefusal>
    ensures { Gives result (field member spec.polygon_at (view value.now)) }
{
    polygon(alloc, member, member_of(member, value)?)
}

/// An altitude, in mm.
#[tactic(auto, unfolding(crate::specs::Volumes::altitude_at))]
fn altitude(place: Member, value: &Value) -> Result<i64, WireRefusal>
    ensures { Gives result (spec.altitude_at place (view value.now)) }
{
    object(place, value)?;
    without(Member::Value, value)?;
    let mm = integer_of(Member::ValueMm, value)?;
    word_of("W84", Member::Reference, value)?;
    word_of("MM", Member::Units, value)?;
    Ok(mm)
}

/// The altitude of a member, in mm.
fn altitude_of(member: Member, value: &Value) -> Result<i64, WireRefusal>
    ensures { Gives result (field member spec.altitude_at (view value.now)) }
{
    altitude(member, member_of(member, value)?)
}

/// An instant, in ns since 1970-01-01T00:00:00Z.
#[tactic(auto, unfolding(crate::specs::Volumes::time_at))]
fn time(place: Member, value: &Value) -> Result<i64, WireRefusal>
    ensures { Gives result (spec.time_at place (view value.now)) }
{
    object(place, value)?;
    let moment = instant(Member::Value, member_of(Member::Value, value)?)?;
    word_of("RFC3339", Member::Format, value)?;
    Ok(moment)
}

/// The instant of a member, in ns since 1970-01-01T00:00:00Z.
pub fn time_of(member: Member, value: &Value) -> Result<i64, WireRefusal>
    ensures { Gives result (field member spec.time_at (view value.now)) }
{
    time(member, member_of(member, value)?)
}

/// An outline and a range of altitude in mm.
#[derive(Drop)]
struct Space {
    outline: Outline,
    low: i64,
    high: i64,
}

impl Space {
    fn low(&self) -> i64
        ensures { result ≡ self.now.low }
    {
        self.low
    }

    fn high(&self) -> i64
        ensures { result ≡ self.now.high }
    {
        self.high
    }
}

#[tactic(auto, unfolding(crate::specs::Volumes::space_at))]
fn space_of(alloc: Global, place: Member, value: &Value) -> Result<Space, WireRefusal>
    ensures { Gives result (spec.space_at place (view value.now)) }
{
    object(place, value)?;
    without(Member::OutlineCircle, value)?;
    let outline = polygon_of(alloc, Member::OutlinePolygon, value)?;
    let low = altitude_of(Member::AltitudeLower, value)?;
    let high = altitude_of(Member::AltitudeUpper, value)?;
    Ok(Space { outline, low, high })
}

/// The volume of these parts, or the first refusal of it.
fn made(outline: Outline, low: i64, high: i64, start: i64, end: i64) -> Result<Volume4, WireRefusal>
    ensures { result ≡ spec.volume_of (record { outline = outline; low = low; high = high }) start end }
{
    match Volume4::of(outline, low, high, start, end) {
        Ok(volume) => Ok(volume),
        Err(refusal) => Err(volume_refusal(refusal)),
    }
}

fn made_in(space: Space, start: i64, end: i64) -> Result<Volume4, WireRefusal>
    ensures { result ≡ spec.volume_of space start end }
{
    let (low, high) = (space.low(), space.high());
    made(space.outline, low, high, start, end)
}

/// A volume in four dimensions. Linear in its vertices.
#[tactic(auto, unfolding(crate::specs::Volumes::volume_at))]
pub fn volume(alloc: Global, place: Member, value: &Value) -> Result<Volume4, WireRefusal>
    ensures { Gives result (spec.volume_at place (view value.now)) }
{
    object(place, value)?;
    let space = space_of(alloc, Member::Volume, member_of(Member::Volume, value)?)?;
    let start = time_of(Member::TimeStart, value)?;
    let end = time_of(Member::TimeEnd, value)?;
    made_in(space, start, end)
}

/// How the volumes of a list are read.
#[derive(Clone, Copy)]
pub struct VolumeReader;

impl ReadItem<Volume4> for VolumeReader {
    ghost use Rattle.uss_wire_words.specs.Volumes.{volume_at};

    ghost reads = { λ _. volume_at };

    fn read_item(
        &self,
        alloc: Global,
        place: Member,
        value: &Value,
    ) -> Result<Volume4, WireRefusal> {
        volume(alloc, place, value)
    }
}
