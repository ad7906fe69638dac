ghost use Rattle.std.specs.Prelude.{◌≡◌, Ok, IfOk};
ghost use Rattle.serde_json.specs.View.{view};
ghost use Rattle.uss_vol4.specs.Volume.{Volume4D, IsVolume};
ghost use Rattle.uss_wire_base.specs.Writing.{list_json};
ghost use Rattle.uss_wire_base.specs.declared.refusal.Member.{Member};
ghost use Rattle.uss_wire_words.specs.Volumes.{volume_at};
ghost use Rattle.uss_wire_words.specs.VolumeWriting as spec;

use serde_json::{Value, json};
use std::alloc::{AllocError, Global};
use uss_shape::Place;
use uss_vol4::Volume4;
use uss_wire_base::{WriteItem, instant_value, list};

/// How the vertices of a polygon are written.
#[derive(Clone, Copy)]
struct VertexWriter;

impl WriteItem<Place> for VertexWriter {
    ghost use Rattle.uss_wire_words.specs.VolumeWriting.{vertex_json};

    ghost json = { λ _. vertex_json };

    fn write_item(&self, alloc: Global, item: &Place) -> Result<Value, AllocError> {
        vertex(alloc, *item)
    }
}

fn vertex(alloc: Global, place: Place) -> Result<Value, AllocError>
    ensures { IfOk result (λ v. view v ≡ spec.vertex_json place) }
{
    json!(in alloc; {"lat_e7": place.y, "lng_e7": place.x})
}

#[tactic(auto, unfolding(crate::specs::VolumeWriting::polygon_json))]
fn polygon(alloc: Global, places: &[Place]) -> Result<Value, AllocError>
    ensures { IfOk result (λ v. view v ≡ spec.polygon_json places.now) }
{
    let vertices = list(alloc, &VertexWriter, places)?;
    json!(in alloc; {"vertices": vertices})
}

#[tactic(auto, unfolding(crate::specs::VolumeWriting::altitude_json))]
fn altitude(alloc: Global, mm: i64) -> Result<Value, AllocError>
    ensures { IfOk result (λ v. view v ≡ spec.altitude_json mm) }
{
    json!(in alloc; {"reference": "W84", "units": "MM", "value_mm": mm})
}

/// The value of a moment in ns since 1970-01-01T00:00:00Z.
#[tactic(auto, unfolding(crate::specs::VolumeWriting::time_json))]
pub fn time_value(alloc: Global, moment: i64) -> Result<Value, AllocError>
    ensures { IfOk result (λ v. view v ≡ spec.time_json moment) }
{
    let value = instant_value(alloc, moment)?;
    json!(in alloc; {"format": "RFC3339", "value": value})
}

#[tactic(auto, unfolding(crate::specs::VolumeWriting::space_json))]
fn space_of(alloc: Global, volume: &Volume4) -> Result<Value, AllocError>
    ensures { IfOk result (λ v. view v ≡ spec.space_json volume.now) }
{
    let lower = altitude(alloc, volume.low())?;
    let upper = altitude(alloc, volume.high())?;
    let outline = polygon(alloc, volume.outline().vertices())?;
    json!(in alloc; {"altitude_lower": lower, "altitude_upper": upper, "outline_polygon": outline})
}

/// The value of a volume in four dimensions.
#[tactic(auto, unfolding(crate::specs::VolumeWriting::volume_json))]
pub fn volume_value(alloc: Global, volume: &Volume4) -> Result<Value, AllocError>
    ensures { IfOk result (λ v. view v ≡ spec.volume_json volume.now) }
{
    let end = time_value(alloc, volume.end())?;
    let start = time_value(alloc, volume.start())?;
    let space = space_of(alloc, volume)?;
    json!(in alloc; {"time_end": end, "time_start": start, "volume": space})
}

/// How the volumes of a list are written.
#[derive(Clone, Copy)]
pub struct VolumeWriter;

impl WriteItem<Volume4> for VolumeWriter {
    ghost use Rattle.uss_wire_words.specs.VolumeWriting.{volume_json};

    ghost json = { λ _. volume_json };

    fn write_item(&self, alloc: Global, item: &Volume4) -> Result<Value, AllocError> {
        volume_value(alloc, item)
    }
}

/// What is written of a volume is read again as the volume. The function does nothing.
pub fn volumes_are_read_again()
    ensures { (place : Member) (v : Volume4D) → IsVolume v → volume_at place (spec.volume_json v) ≡ Ok v }
{}
