//! Outlines with known answers. The answers of the tables were computed apart, by rational arithmetic along level lines.

use std::alloc::{AllocError, Global};
use std::test::Fail;
use uss_shape::{Outline, Place, Rect, ShapeRefusal};

fn add(list: &mut Vec<Place>, x: i64, y: i64) -> Result<(), AllocError> {
    list.push(Place { x, y })?;
    Ok(())
}

fn coordinate(word: Option<&str>) -> Result<i64, Fail> {
    Ok(word.ok_or("no coordinate")?.parse::<i64>()?)
}

fn place(text: &str) -> Result<Place, Fail> {
    let mut words = text.split_whitespace();
    let x = coordinate(words.next())?;
    let y = coordinate(words.next())?;
    Ok(Place { x, y })
}

fn places(alloc: Global, text: &str) -> Result<Vec<Place>, Fail> {
    let mut list = Vec::new(alloc);
    for pair in text.split(',') {
        let p = place(pair)?;
        add(&mut list, p.x, p.y)?;
    }
    Ok(list)
}

fn outline(alloc: Global, text: &str) -> Result<Outline, Fail> {
    Ok(Outline::of(places(alloc, text)?)?)
}

fn field<'a>(text: Option<&'a str>) -> Result<&'a str, Fail> {
    Ok(text.ok_or("no field")?)
}

// whether they meet, the one outline, the other, and what they are
const MEETINGS: &str = "\
meet | 0 0, 10 3, 10 4, 0 1 | 3 -5, 4 -5, 4 9, 3 9 | bars that cross, no vertex in the other\n\
apart | 0 0, 30 0, 30 30, 20 30, 20 10, 10 10, 10 30, 0 30 | 12 15, 18 15, 18 25, 12 25 | a rectangle in the notch of a U\n\
meet | 0 0, 30 0, 30 30, 20 30, 20 10, 10 10, 10 30, 0 30 | 12 10, 18 10, 18 25, 12 25 | a rectangle on the notch's floor\n\
meet | 0 0, 30 0, 30 30, 20 30, 20 10, 10 10, 10 30, 0 30 | 10 15, 18 15, 18 25, 10 25 | a rectangle on the notch's wall\n\
meet | 0 0, 30 0, 30 30, 20 30, 20 10, 10 10, 10 30, 0 30 | 5 15, 25 15, 25 16, 5 16 | a rectangle through the notch\n\
apart | 0 0, 10 10, 10 0, 0 10 | 4 7, 6 7, 6 9, 4 9 | a bow tie and a box beside its waist\n\
meet | 0 0, 10 10, 10 0, 0 10 | 4 4, 4 4, 4 4, 4 4 | a bow tie and a place on it\n\
meet | 0 0, 10 10, 10 0, 0 10 | 5 5, 5 5, 5 5 | a bow tie and its waist\n\
meet | 0 0, 10 10, 10 0, 0 10 | 1 4, 2 4, 2 6, 1 6 | a bow tie and a box in its left lobe\n\
apart | 0 0, 10 10, 10 0, 0 10 | 4 1, 6 1, 6 3, 4 3 | a bow tie and a box under its waist\n\
meet | 10 10, 20 10, 15 20 | 0 0, 100 0, 100 100, 0 100 | a triangle in a square\n\
meet | 5 5, 5 5, 5 5 | 0 0, 5 0, 5 5, 0 5 | one place three times at a corner\n\
apart | 6 5, 6 5, 6 5 | 0 0, 5 0, 5 5, 0 5 | one place beside a corner\n\
meet | 0 0, 10 0, 10 10, 0 10 | 10 10, 20 10, 20 20, 10 20 | squares touching at a corner\n\
apart | 0 0, 10 0, 10 10, 0 10 | 11 10, 20 10, 20 20, 11 20 | squares apart at a corner\n\
meet | 0 0, 10 0, 10 10, 0 10 | 10 0, 20 0, 20 10, 10 10 | squares touching along an edge\n\
meet | 0 0, 10 0, 10 10, 0 10 | 10 3, 20 3, 20 7, 10 7 | squares touching along a part of an edge\n\
apart | 0 0, 10 0, 10 10, 0 10 | 11 0, 20 0, 20 10, 11 10 | squares apart along an edge\n\
meet | 10 10, 0 10, 0 0, 10 0 | 5 5, 5 5, 5 5, 5 5 | a corner order turned round\n\
meet | 0 0, 10 0, 5 10 | 0 10, 10 10, 10 20, 0 20 | a tip on an edge\n\
apart | 0 0, 10 0, 5 9 | 0 10, 10 10, 10 20, 0 20 | a tip below an edge\n\
meet | 0 0, 3 1, 3 1 | 0 1, 3 0, 3 0 | segments crossing at a half\n\
apart | 0 0, 3 1, 3 1 | 0 1, 3 2, 3 2 | segments in parallel\n\
apart | 0 0, 3 1, 3 1 | 1 0, 1 0, 1 0 | a place beside a segment by a third\n\
meet | 0 0, 3 1, 3 1 | 3 1, 3 1, 3 1 | a place on a segment\n\
meet | 0 0, 7 2, 7 -5 | 0 5, 7 -1, 9 9 | triangles touching in a point of sevenths\n\
meet | 0 0, 1000 1, 1000 1 | 999 0, 1000 2, 1000 2 | segments crossing near their ends\n\
apart | 0 0, 1000 1, 1000 1 | 999 1, 1000 2, 1000 2 | segments that just miss\n\
apart | 0 0, 5 0, 5 0 | 6 0, 9 0, 9 0 | collinear segments apart\n\
meet | 0 0, 5 0, 5 0 | 5 0, 9 0, 9 0 | collinear segments end to end\n\
meet | 0 0, 5 0, 5 0 | 3 0, 9 0, 9 0 | collinear segments overlapping\n\
apart | 2 0, 2 5, 2 5 | 2 6, 2 9, 2 9 | upright segments apart\n\
meet | 2 0, 2 5, 2 5 | 2 9, 2 5, 2 5 | upright segments end to end\n\
meet | 2 0, 2 5, 2 5 | 2 9, 2 3, 2 3 | upright segments overlapping\n\
apart | 0 0, 4 2, 4 2 | 6 3, 8 4, 8 4 | slanting segments on one line apart\n\
meet | 0 0, 4 2, 4 2 | 2 1, 8 4, 8 4 | slanting segments on one line overlapping\n\
apart | 0 0, 8 4, 8 4 | 1 1, 9 5, 9 5 | slanting segments in parallel, boxes overlapping\n\
meet | 0 0, 10 0, 10 10, 20 10, 10 10, 0 10 | 15 10, 16 10, 16 11, 15 11 | a spike and a box on it\n\
apart | 0 0, 10 0, 10 10, 20 10, 10 10, 0 10 | 15 11, 16 11, 16 12, 15 12 | a spike and a box over it\n\
apart | 0 0, 10 0, 10 10, 20 10, 10 10, 0 10 | 21 9, 22 9, 22 11, 21 11 | a spike and a box past its end\n\
apart | 0 0, 60 90, 120 0, -10 60, 130 60 | 55 45, 65 45, 65 50, 55 50 | a star and a box in its middle\n\
meet | 0 0, 60 90, 120 0, -10 60, 130 60 | 58 80, 62 80, 62 85, 58 85 | a star and a box in its tip\n\
meet | 0 0, 60 90, 120 0, -10 60, 130 60 | 55 45, 65 45, 65 70, 55 70 | a star and a box that leaves its middle\n\
apart | 0 0, 10 0, 10 10, 0 10, 0 0, 10 0, 10 10, 0 10 | 4 4, 6 4, 6 6, 4 6 | a square run round twice and a box inside\n\
meet | 0 0, 10 0, 10 10, 0 10, 0 0, 10 0, 10 10, 0 10 | 4 0, 6 0, 6 1, 4 1 | a square run round twice and a box on its border\n\
apart | 0 0, 30 0, 30 30, 0 30, 0 0, 10 10, 10 20, 20 20, 20 10, 10 10 | 11 11, 19 11, 19 19, 11 19 | a ring and a box in its hole\n\
meet | 0 0, 30 0, 30 30, 0 30, 0 0, 10 10, 10 20, 20 20, 20 10, 10 10 | 10 10, 20 10, 20 20, 10 20 | a ring and a box that fills its hole\n\
meet | 0 0, 30 0, 30 30, 0 30, 0 0, 10 10, 10 20, 20 20, 20 10, 10 10 | 9 9, 11 9, 11 11, 9 11 | a ring and a box across its inner border\n\
meet | 0 0, 30 0, 30 30, 0 30, 0 0, 10 10, 10 20, 20 20, 20 10, 10 10 | -5 -5, 40 -5, 40 40, -5 40 | a ring and a box round it\n\
meet | 40 40, 41 40, 41 41, 40 41 | 0 0, 100 0, 100 100, 0 100 | a small square in a large one\n\
meet | 0 0, 60 90, 120 0, -10 60, 130 60 | 0 0, 60 90, 120 0, -10 60, 130 60 | the same outline\n\
meet | 0 0, 60 90, 120 0, -10 60, 130 60 | 130 60, -10 60, 120 0, 60 90, 0 0 | the same outline run the other way\n\
meet | 0 0, 0 0, 10 0, 10 0, 10 10, 0 10, 0 10 | 4 4, 5 4, 5 5, 4 5 | repeated vertices and a box inside\n\
meet | 0 0, 3 0, 7 0, 10 0, 10 10 | 4 -3, 5 -3, 5 0, 4 0 | collinear vertices and a box on them\n\
apart | 0 0, 30 0, 30 5, 5 5, 5 25, 30 25, 30 30, 0 30 | 10 8, 40 8, 40 22, 10 22, 10 18, 35 18, 35 12, 10 12 | hooks that do not touch\n\
meet | 0 0, 30 0, 30 5, 5 5, 5 25, 30 25, 30 30, 0 30 | 10 5, 40 8, 40 22, 10 22, 10 18, 35 18, 35 12, 10 12 | hooks that touch\n\
apart | 0 0, 20 20, 20 0, 0 20 | 8 15, 12 15, 12 25, 8 25 | a figure eight and a box over its crossing\n\
meet | 0 0, 20 20, 20 0, 0 20 | 15 9, 18 9, 18 11, 15 11 | a figure eight and a box in its right lobe\n\
meet | -1800000000 -900000000, 1800000000 -900000000, 1800000000 900000000, -1800000000 900000000 | 1800000000 900000000, 1800000000 900000000, 1800000000 900000000 | the whole plane and its corner\n\
meet | -1800000000 -900000000, 1800000000 900000000, 1800000000 900000000 | -1800000000 900000000, 1800000000 -900000000, 1800000000 -900000000 | the diagonals of the plane\n\
apart | -1800000000 -900000000, 1800000000 900000000, 1800000000 900000000 | 1799999999 899999999, 1799999999 899999999, 1799999999 899999999 | the diagonal and a place beside it by a half\n\
meet | -1800000000 -900000000, 1800000000 900000000, 1800000000 900000000 | 1799999998 899999999, 1799999998 899999999, 1799999998 899999999 | the diagonal and a place on it\n\
apart | -1800000000 -900000000, 1800000000 900000000, 1800000000 899999999 | 4 1, 4 1, 4 1 | thin triangles at the limits\n\
meet | -1800000000 -900000000, 1800000000 900000000, 1800000000 899999999 | 4 2, 4 2, 4 2 | thin triangles at the limits, on an edge\n\
apart | -1800000000 -900000000, 1800000000 900000000, -1800000000 900000000 | 1800000000 -900000000, -1799999998 -900000000, 1800000000 899999999 | triangles at the limits that just miss\n\
meet | -1800000000 -900000000, 1800000000 900000000, -1800000000 900000000 | 1800000000 -900000000, -1800000000 -900000000, 1800000000 900000000 | triangles at the limits that share an edge\n\
apart | -1800000000 -900000000, -1800000000 -900000000, -1800000000 900000000, -1800000000 900000000 | 1800000000 -900000000, 1800000000 -900000000, 1800000000 900000000, 1800000000 900000000 | opposite limits\n\
";

#[test]
fn outlines_meet(rt: HostRuntime) -> Result<(), Fail> {
    for line in MEETINGS.lines() {
        let mut fields = line.split('|');
        let wanted = field(fields.next())?.trim() == "meet";
        let a = outline(rt.alloc(), field(fields.next())?)?;
        let b = outline(rt.alloc(), field(fields.next())?)?;
        assert!(rt; a.meets(&b) == wanted);
        assert!(rt; b.meets(&a) == wanted);
    }
    Ok(())
}

// the outline, places in its region, and places outside
const REGIONS: &str = "\
0 0, 60 90, 120 0, -10 60, 130 60 | 60 80, 60 90, 0 0, 30 45, 120 0, 10 60, -10 60, 130 60, 60 60, 60 61 | 60 48, 60 91, 0 1, 31 45, -11 60\n\
0 0, 10 10, 10 0, 0 10 | 5 5, 0 0, 0 5, 10 10, 3 3, 3 4, 9 9 | 5 4, 5 6, 10 11, 4 3, 9 10\n\
0 0, 2 4, 4 0, 6 4, 8 0, 10 4, 12 0 | 2 1, 4 0, 6 4, 2 0, 0 0, 12 0, 10 2 | 4 1, 6 5, 4 -1, 13 0, 8 1\n\
0 0, 0 10, 0 10, 5 10, 5 0 | 0 5, 5 5, 2 10, 3 0 | 0 11, 5 -1, 2 11, -1 5\n\
";

#[test]
fn outlines_hold(rt: HostRuntime) -> Result<(), Fail> {
    for line in REGIONS.lines() {
        let mut fields = line.split('|');
        let region = outline(rt.alloc(), field(fields.next())?)?;
        for pair in field(fields.next())?.split(',') {
            assert!(rt; region.holds(place(pair)?));
        }
        for pair in field(fields.next())?.split(',') {
            assert!(rt; !region.holds(place(pair)?));
        }
    }
    Ok(())
}

// A comb of 249 teeth with 998 vertices, its teeth at 10 apart from x = left.
fn comb(alloc: Global, left: i64, root: i64, tip: i64, back: i64) -> Result<Outline, Fail> {
    let mut list = Vec::new(alloc);
    let mut x = left;
    for _ in 0..249u32 {
        for (along, y) in [(0, root), (0, tip), (3, tip), (3, root)] {
            add(&mut list, x.wrapping_add(along), y)?;
        }
        x = x.wrapping_add(10);
    }
    add(&mut list, x, back)?;
    add(&mut list, left, back)?;
    Ok(Outline::of(list)?)
}

#[test]
fn combs_of_many_vertices(rt: HostRuntime) -> Result<(), Fail> {
    let up = comb(rt.alloc(), 0, 0, 100, -10)?;
    let down = comb(rt.alloc(), 5, 110, 5, 120)?;
    let touching = comb(rt.alloc(), 3, 110, 5, 120)?;
    let below = comb(rt.alloc(), 0, 1, 90, -9)?;
    assert!(rt; !up.meets(&down));
    assert!(rt; !down.meets(&up));
    assert!(rt; up.meets(&touching));
    assert!(rt; touching.meets(&up));
    assert!(rt; up.meets(&below));
    assert!(rt; up.vertices().len() == 998);
    assert!(rt;
        up.bounds()
            == Rect {
                x1: 0,
                y1: -10,
                x2: 2490,
                y2: 100
            }
    );
    Ok(())
}

fn many(alloc: Global, count: usize) -> Result<Vec<Place>, Fail> {
    let mut list = Vec::new(alloc);
    for _ in 0..count {
        add(&mut list, 7, -7)?;
    }
    Ok(list)
}

#[test]
fn vertices_are_counted(rt: HostRuntime) -> Result<(), Fail> {
    let few = Outline::of(many(rt.alloc(), 2)?);
    assert!(rt; few == Err(ShapeRefusal::TooFewVertices));
    assert!(rt; Outline::of(many(rt.alloc(), 3)?).is_ok());
    let most = Outline::of(many(rt.alloc(), 1000)?)?;
    assert!(rt; most.holds(Place { x: 7, y: -7 }));
    assert!(rt; !most.holds(Place { x: 7, y: -6 }));
    let over = Outline::of(many(rt.alloc(), 1001)?);
    assert!(rt; over == Err(ShapeRefusal::TooManyVertices));
    assert!(rt; ShapeRefusal::TooFewVertices.number() == Some(101));
    assert!(rt; ShapeRefusal::TooManyVertices.number() == Some(102));
    assert!(rt; ShapeRefusal::OutOfRange(4).number() == Some(103));
    assert!(rt; ShapeRefusal::Memory.number().is_none());
    Ok(())
}

// the least index out of range, or none, and the vertices
const RANGES: &str = "\
- | -1800000000 -900000000, 1800000000 900000000, 0 0\n\
0 | -1800000001 0, 0 0, 0 0\n\
1 | 0 0, 1800000001 0, 0 900000001\n\
2 | 0 0, 0 0, 0 900000001\n\
3 | 0 0, 0 0, 0 0, 0 -900000001, 1800000001 0\n\
0 | 9223372036854775807 -9223372036854775808, 0 0, 0 0\n\
";

#[test]
fn vertices_out_of_range(rt: HostRuntime) -> Result<(), Fail> {
    for line in RANGES.lines() {
        let mut fields = line.split('|');
        let wanted = field(fields.next())?.trim().parse::<usize>().ok();
        let made = Outline::of(places(rt.alloc(), field(fields.next())?)?);
        match (wanted, made) {
            (None, made) => assert!(rt; made.is_ok()),
            (Some(index), made) => assert!(rt; made == Err(ShapeRefusal::OutOfRange(index))),
        }
    }
    Ok(())
}

#[test]
fn rectangles(rt: HostRuntime) -> Result<(), Fail> {
    let turned = Outline::rect(
        rt.alloc(),
        Rect {
            x1: 10,
            y1: -1,
            x2: 0,
            y2: -5,
        },
    )?;
    assert!(rt; turned.vertices()[2] == Place { x: 0, y: -5 });
    assert!(rt;
        turned.bounds()
            == Rect {
                x1: 0,
                y1: -5,
                x2: 10,
                y2: -1
            }
    );
    assert!(rt; turned.holds(Place { x: 10, y: -5 }));
    assert!(rt; turned.holds(Place { x: 4, y: -3 }));
    assert!(rt; !turned.holds(Place { x: 4, y: 0 }));
    assert!(rt;
        !turned.holds(Place {
            x: i64::MAX,
            y: i64::MIN
        })
    );
    let copy = turned.clone()?;
    assert!(rt; copy.is_same(&turned));
    assert!(rt; copy == turned);
    let other = Outline::rect(
        rt.alloc(),
        Rect {
            x1: 0,
            y1: -5,
            x2: 10,
            y2: -1,
        },
    )?;
    assert!(rt; !other.is_same(&turned));
    assert!(rt; other.meets(&turned));
    let far = Outline::rect(
        rt.alloc(),
        Rect {
            x1: 0,
            y1: 0,
            x2: 1,
            y2: 900_000_001,
        },
    );
    assert!(rt; far == Err(ShapeRefusal::OutOfRange(2)));
    Ok(())
}
