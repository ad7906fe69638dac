ghost use Rattle.std.specs.Prelude.{◌≡◌, ◌≤◌, [], ◌∷◌, ◌++◌, length, take, OnOk, IfErr};
ghost use Rattle.uss_text.specs.Reading.{Gives, GivesBy, many_at};
ghost use Rattle.uss_text.specs.Volumes as spec;

use crate::refusal::WordRefusal;
use crate::words::Words;
use std::alloc::Global;
use uss_shape::{Outline, Place, ShapeRefusal};
use uss_vol4::{VolRefusal, Volume4};

/// The two coordinates of a place.
#[tactic(auto, unfolding(crate::specs::Volumes::place_at))]
fn place(words: &mut Words) -> Result<Place, WordRefusal>
    ensures { Gives result words.new (spec.place_at words.old) }
{
    let x = words.integer()?;
    let y = words.integer()?;
    Ok(Place { x, y })
}

/// The most vertices that are kept of a polygon: one more than an outline may have, so that it is refused.
const KEPT: usize = 1001;

/// Puts a place after the first ones, where there is room among them.
fn keep(places: &mut Vec<Place>, found: Place) -> Result<(), WordRefusal>
    requires { length places.old.items ≤ KEPT }
    ensures ok { OnOk result (places.new.items ≡ take KEPT (places.old.items ++ found ∷ [])) }
    ensures memory { IfErr result (λ e. e ≡ WordRefusal.Memory) }
{
    if places.len() < KEPT {
        places.push(found)?;
    }
    Ok(())
}

/// So many places, of which the first 1,001 are kept.
fn places(alloc: Global, count: u32, words: &mut Words) -> Result<Vec<Place>, WordRefusal>
    ensures { GivesBy (λ v. v.items) result words.new (spec.kept (many_at spec.place_at count words.old)) }
{
    let mut places = Vec::new(alloc);
    let mut left = count;
    while left > 0 {
        match place(words) {
            Ok(found) => keep(&mut places, found)?,
            Err(refusal) => return Err(refusal),
        }
        left -= 1;
    }
    Ok(places)
}

/// The corners of a rectangle, from two that are opposite.
#[tactic(auto, unfolding(crate::specs::Volumes::rect_at))]
fn rect(alloc: Global, words: &mut Words) -> Result<Vec<Place>, WordRefusal>
    ensures { GivesBy (λ v. v.items) result words.new (spec.rect_at words.old) }
{
    let first = place(words)?;
    let second = place(words)?;
    let (x1, y1, x2, y2) = (first.x, first.y, second.x, second.y);
    Ok(vec![in alloc;
        Place { x: x1, y: y1 },
        Place { x: x2, y: y1 },
        Place { x: x2, y: y2 },
        Place { x: x1, y: y2 },
    ]?)
}

/// The vertices of a polygon, of which the first 1,001 are kept.
#[tactic(auto, unfolding(crate::specs::Volumes::poly_at))]
fn poly(alloc: Global, words: &mut Words) -> Result<Vec<Place>, WordRefusal>
    ensures { GivesBy (λ v. v.items) result words.new (spec.kept (spec.poly_at words.old)) }
{
    let count = words.count()?;
    places(alloc, count, words)
}

/// The vertices of an outline, by the word for its kind.
#[tactic(auto, unfolding(crate::specs::Volumes::kept_vertices_at))]
fn vertices(alloc: Global, words: &mut Words) -> Result<Vec<Place>, WordRefusal>
    ensures { GivesBy (λ v. v.items) result words.new (spec.kept_vertices_at words.old) }
{
    let kind = words.word()?;
    if kind == b"rect".as_slice() {
        return rect(alloc, words);
    }
    if kind == b"poly".as_slice() {
        return poly(alloc, words);
    }
    Err(WordRefusal::BadLine)
}

fn outline_refusal(refusal: ShapeRefusal) -> WordRefusal
    ensures { result ≡ spec.outline_refusal refusal }
{
    match refusal {
        ShapeRefusal::TooFewVertices => WordRefusal::TooFewVertices,
        ShapeRefusal::TooManyVertices => WordRefusal::TooManyVertices,
        ShapeRefusal::OutOfRange(_) => WordRefusal::OutOfRange,
        ShapeRefusal::Memory => WordRefusal::Memory,
    }
}

fn volume_refusal(refusal: VolRefusal) -> WordRefusal
    ensures { result ≡ spec.volume_refusal refusal }
{
    match refusal {
        VolRefusal::LowAboveHigh => WordRefusal::LowAboveHigh,
        VolRefusal::StartAfterEnd => WordRefusal::StartAfterEnd,
        VolRefusal::AltitudeRange => WordRefusal::AltitudeRange,
        VolRefusal::TimeRange => WordRefusal::TimeRange,
        VolRefusal::Memory => WordRefusal::Memory,
    }
}

/// A volume: its refusals come after its last word.
pub fn volume(alloc: Global, words: &mut Words) -> Result<Volume4, WordRefusal>
    ensures { Gives result words.new (spec.volume_at words.old) }
{
    let vertices = vertices(alloc, words)?;
    volume_behind(vertices, words)
}

/// The volume of these vertices and of the four numbers after them.
#[tactic(auto, unfolding(crate::specs::Volumes::volume_behind))]
fn volume_behind(vertices: Vec<Place>, words: &mut Words) -> Result<Volume4, WordRefusal>
    ensures { Gives result words.new (spec.volume_behind vertices.items words.old) }
{
    let low = words.integer()?;
    let high = words.integer()?;
    let start = words.integer()?;
    let end = words.integer()?;
    made(vertices, low, high, start, end)
}

/// The volume of these parts, or the first refusal of its outline and then of its own.
fn made(
    vertices: Vec<Place>,
    low: i64,
    high: i64,
    start: i64,
    end: i64,
) -> Result<Volume4, WordRefusal>
    ensures { result ≡ spec.volume_of vertices.items low high start end }
{
    let outline = match Outline::of(vertices) {
        Ok(outline) => outline,
        Err(refusal) => return Err(outline_refusal(refusal)),
    };
    match Volume4::of(outline, low, high, start, end) {
        Ok(volume) => Ok(volume),
        Err(refusal) => Err(volume_refusal(refusal)),
    }
}
