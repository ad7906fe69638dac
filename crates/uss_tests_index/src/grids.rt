// Boxes that are found, how many are looked at for it, and boxes that come and go.
use std::process::Abort;
use std::test::Fail;
use uss_index::{CELL_SIDE, Grid, have_common_point};
use uss_shape::Rect;
use uss_vol4::{Box4, EARLIEST};

// All boxes but those that say otherwise have these altitudes and times.
fn over(x1: i64, y1: i64, x2: i64, y2: i64) -> Box4 {
    Box4 {
        rect: Rect { x1, y1, x2, y2 },
        low: 0,
        high: 100,
        start: EARLIEST,
        end: EARLIEST + 1_000,
    }
}

// Puts a box in, in place of the one that stands there. Out of memory, nothing changes, so it can be tried again: run the tests with
// one allocation failing to see it.
fn put(rt: &impl Abort, grid: &mut Grid, id: u64, b: Box4) -> Result<(), Fail> {
    let _ = grid.remove(id);
    let looked = grid.looked(&b);
    if grid.insert(id, b).is_ok() {
        return Ok(());
    }
    assert_eq!(rt; grid.looked(&b), looked, "after a refused insert of {id}");
    grid.insert(id, b)?;
    Ok(())
}

// The candidates are these, and so many boxes are looked at. Out of memory, there are none, and it can be tried again.
fn finds(
    rt: &impl Abort,
    grid: &Grid,
    q: &Box4,
    found: &mut Vec<u64>,
    wanted: &[u64],
    looked: usize,
    at: usize,
) -> Result<(), Fail> {
    if grid.candidates(q, found).is_err() {
        assert_eq!(rt; found.len(), 0, "at {at}");
        grid.candidates(q, found)?;
    }
    assert_eq!(rt; found.as_slice(), wanted, "at {at}");
    assert_eq!(rt; grid.looked(q), looked, "at {at}");
    Ok(())
}

// A box and a query, whether they have a common point, and whether the query looks at the box.
fn pairs() -> [(Box4, Box4, bool, bool); 16] {
    let one = over(0, 0, 10, 10);
    [
        (one, one, true, true),
        // at a corner, and one unit beside it
        (one, over(10, 10, 20, 20), true, true),
        (one, over(11, 0, 20, 10), false, true),
        // corners in another order
        (over(10, 0, 0, 10), over(5, 20, 5, 5), true, true),
        // the last unit of a cell, and the first of the next
        (
            over(999_999, 0, 999_999, 0),
            over(1_000_000, 0, 1_000_000, 0),
            false,
            false,
        ),
        (
            over(999_990, 0, 1_000_000, 10),
            over(1_000_000, 0, 1_000_010, 10),
            true,
            true,
        ),
        // the same below 0
        (over(-1, -1, -1, -1), over(0, 0, 0, 0), false, false),
        (
            over(-1, -1, -1, -1),
            over(-1_000_000, -1_000_000, -1_000_000, -1_000_000),
            false,
            true,
        ),
        (
            over(-1, 0, -1, 0),
            over(-1_000_001, 0, -1_000_001, 0),
            false,
            false,
        ),
        (
            over(-1_000_000, 0, -1, 0),
            over(-1_000_000, 0, -1_000_000, 0),
            true,
            true,
        ),
        (
            over(-1_500_000, -1_500_000, 1_500_000, 1_500_000),
            over(-1_500_000, 0, -1_500_000, 0),
            true,
            true,
        ),
        // far ends of the earth
        (
            over(-1_800_000_000, -900_000_000, -1_800_000_000, -900_000_000),
            over(1_800_000_000, 900_000_000, 1_800_000_000, 900_000_000),
            false,
            false,
        ),
        // altitudes and times
        (
            one,
            Box4 {
                low: 100,
                high: 200,
                ..one
            },
            true,
            true,
        ),
        (
            one,
            Box4 {
                low: 101,
                high: 200,
                ..one
            },
            false,
            true,
        ),
        (
            one,
            Box4 {
                start: EARLIEST + 1_000,
                end: EARLIEST + 2_000,
                ..one
            },
            true,
            true,
        ),
        (
            one,
            Box4 {
                start: EARLIEST + 1_001,
                end: EARLIEST + 2_000,
                ..one
            },
            false,
            true,
        ),
    ]
}

#[test]
fn boxes_are_found_where_they_have_a_common_point(rt: HostRuntime) -> Result<(), Fail> {
    let alloc = rt.alloc();
    let mut grid = Grid::new(alloc);
    let mut found = Vec::new(alloc);
    for (i, (b, q, meet, looked)) in pairs().iter().enumerate() {
        put(&rt, &mut grid, 7, *b)?;
        let wanted: &[u64] = if *meet { &[7] } else { &[] };
        finds(&rt, &grid, q, &mut found, wanted, usize::from(*looked), i)?;
        assert_eq!(rt; have_common_point(b, q), *meet, "at {i}");
        put(&rt, &mut grid, 7, *q)?;
        finds(&rt, &grid, b, &mut found, wanted, usize::from(*looked), i)?;
    }
    Ok(())
}

#[test]
fn wide_boxes_are_looked_at_by_each_query(rt: HostRuntime) -> Result<(), Fail> {
    let alloc = rt.alloc();
    let mut grid = Grid::new(alloc);
    let mut found = Vec::new(alloc);
    let far = over(-50_000_000, -50_000_000, -50_000_000, -50_000_000);
    let near = over(30_000_000, 0, 30_000_000, 0);
    // 64 cells in a row, then 65, and 65 in a column below 0
    put(&rt, &mut grid, 1, over(0, 0, 63_999_999, 0))?;
    finds(&rt, &grid, &far, &mut found, &[], 0, 0)?;
    finds(&rt, &grid, &near, &mut found, &[1], 1, 1)?;
    put(&rt, &mut grid, 1, over(0, 0, 64_000_000, 0))?;
    finds(&rt, &grid, &far, &mut found, &[], 1, 2)?;
    finds(&rt, &grid, &near, &mut found, &[1], 1, 3)?;
    put(
        &rt,
        &mut grid,
        2,
        over(30_000_000, -64_000_001, 30_000_000, 0),
    )?;
    put(&rt, &mut grid, 0, near)?;
    finds(&rt, &grid, &near, &mut found, &[0, 1, 2], 3, 4)?;
    finds(&rt, &grid, &far, &mut found, &[], 2, 5)?;
    // the whole earth as a query
    let earth = over(-1_800_000_000, -900_000_000, 1_800_000_000, 900_000_000);
    finds(&rt, &grid, &earth, &mut found, &[0, 1, 2], 3, 6)?;
    // and as a box
    put(&rt, &mut grid, 3, earth)?;
    finds(&rt, &grid, &far, &mut found, &[3], 3, 7)?;
    Ok(())
}

#[test]
fn boxes_are_removed_and_come_back(rt: HostRuntime) -> Result<(), Fail> {
    let alloc = rt.alloc();
    let mut grid = Grid::new(alloc);
    let mut found = Vec::new(alloc);
    let here = over(-10, -10, 10, 10);
    let there = over(5_000_000, 5_000_000, 70_000_000, 70_000_000);
    assert!(rt; !grid.remove(5));
    for (i, b) in [here, there, here].iter().enumerate() {
        assert!(rt; !grid.remove(5), "at {i}");
        put(&rt, &mut grid, 5, *b)?;
        put(&rt, &mut grid, u64::MAX, here)?;
        finds(
            &rt,
            &grid,
            b,
            &mut found,
            if i == 1 { &[5] } else { &[5, u64::MAX] },
            2,
            i,
        )?;
        assert!(rt; grid.remove(5), "at {i}");
        finds(
            &rt,
            &grid,
            b,
            &mut found,
            if i == 1 { &[] } else { &[u64::MAX] },
            1,
            i,
        )?;
    }
    assert!(rt; grid.remove(u64::MAX));
    finds(&rt, &grid, &here, &mut found, &[], 0, 3)?;
    finds(&rt, &grid, &there, &mut found, &[], 0, 4)?;
    Ok(())
}

// A box of ten units in each of 100 columns and 40 rows.
fn numbered(i: u16) -> Box4 {
    let x = i64::from(i % 100) * CELL_SIDE;
    let y = i64::from(i / 100) * CELL_SIDE;
    over(x, y, x + 10, y + 10)
}

#[test]
fn one_of_four_thousand_boxes_is_looked_at(rt: HostRuntime) -> Result<(), Fail> {
    let alloc = rt.alloc();
    let mut grid = Grid::new(alloc);
    let mut found = Vec::new(alloc);
    for i in 0..4_000 {
        put(&rt, &mut grid, u64::from(i), numbered(i))?;
    }
    for i in 0..4_000 {
        finds(
            &rt,
            &grid,
            &numbered(i),
            &mut found,
            &[u64::from(i)],
            1,
            usize::from(i),
        )?;
    }
    // all of them
    let all = over(0, 0, 99_000_010, 39_000_010);
    grid.candidates(&all, &mut found)?;
    assert_eq!(rt; found.len(), 4_000);
    for (i, id) in found.iter().enumerate() {
        assert_eq!(rt; *id, i as u64);
    }
    assert_eq!(rt; grid.looked(&all), 4_000);
    // four cells, with a box in each
    finds(
        &rt,
        &grid,
        &over(999_999, 1_999_999, 1_000_005, 2_000_005),
        &mut found,
        &[201],
        4,
        0,
    )?;
    finds(
        &rt,
        &grid,
        &over(10, 10, 1_000_000, 1_000_000),
        &mut found,
        &[0, 1, 100, 101],
        4,
        1,
    )?;
    Ok(())
}
