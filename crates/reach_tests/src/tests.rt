// What the calls do on small maps.
use crate::at_least::AtLeast;
use criteria::{Counted, Limits, MapFault, Part, ReflectanceBits, Step, Tolerance, Turn};
use maps::{Map, first_inadmissible, tile_pixels};
use neighbourhoods::{flood, reach_symmetric, reach_weak};
use std::test::Fail;

// The sheet of the weak neighbourhood of pixel 0 on the map 0 50 50 0, two by two, with step 0.
fn weak_of_0(joining: u8) -> Result<[u8; 4], MapFault> {
    let step = Step::try_from(Tolerance::Step(0))?;
    let values = [0, 50, 50, 0];
    let mut map = Map::empty();
    map.make(2, 2, joining, &values)?;
    let mut sheet = [9; 4];
    let mut marks = [7; 5];
    let mut queue = [7; 4];
    reach_weak(&step, &map, 0, &mut sheet, &mut marks, &mut queue)?;
    Ok(sheet)
}

#[test]
fn corners_are_joined_with_8_alone(rt: HostRuntime) -> Result<(), Fail> {
    assert!(rt; weak_of_0(4)? == [1, 0, 0, 0]);
    assert!(rt; weak_of_0(8)? == [1, 0, 0, 1]);
    Ok(())
}

#[test]
fn tiles_have_sides_and_pixels_in_range(rt: HostRuntime) -> Result<(), Fail> {
    assert_eq!(rt; tile_pixels(64, 64, 4)?, 4096);
    assert_eq!(rt; tile_pixels(255, 16, 8)?, 4080);
    assert_eq!(rt; tile_pixels(64, 65, 4), Err(MapFault::Tile));
    assert_eq!(rt; tile_pixels(256, 1, 8), Err(MapFault::Tile));
    Ok(())
}

// The centre decides: 2 is at least 1, and 1 is not at least 2.
#[test]
fn the_centre_is_the_centre(rt: HostRuntime) -> Result<(), Fail> {
    let values = [1, 2];
    let mut map = Map::empty();
    map.make(2, 1, 4, &values)?;
    let mut sheet = [9; 2];
    let mut marks = [0; 2];
    let mut queue = [0; 2];
    reach_weak(&AtLeast, &map, 0, &mut sheet, &mut marks, &mut queue)?;
    assert!(rt; sheet == [1, 1]);
    reach_weak(&AtLeast, &map, 1, &mut sheet, &mut marks, &mut queue)?;
    assert!(rt; sheet == [0, 1]);
    reach_symmetric(&AtLeast, &map, 1, &mut sheet, &mut marks, &mut queue)?;
    assert!(rt; sheet == [1, 1]);
    Ok(())
}

#[test]
fn a_refused_reach_leaves_the_sheet(rt: HostRuntime) -> Result<(), Fail> {
    let turn = Turn::try_from(Tolerance::Turn(5))?;
    let values = [10, 200, 10];
    let mut map = Map::empty();
    map.make(3, 1, 4, &values)?;
    let mut sheet = [9; 3];
    let mut long = [9; 4];
    let mut marks = [7; 4];
    let mut queue = [7; 4];
    assert_eq!(rt;
        reach_weak(&turn, &map, 3, &mut sheet, &mut marks, &mut queue),
        Err(MapFault::Pixel(3))
    );
    assert_eq!(rt;
        reach_weak(&turn, &map, 0, &mut long, &mut marks, &mut queue),
        Err(MapFault::Misfit(Counted::Sheet))
    );
    assert_eq!(rt;
        reach_symmetric(&turn, &map, 0, &mut sheet, &mut marks, &mut queue),
        Err(MapFault::Inadmissible(1))
    );
    assert!(rt; sheet == [9; 3] && long == [9; 4]);
    assert!(rt; marks == [0; 4] && queue == [0; 4]);
    Ok(())
}

#[test]
fn the_empty_map_has_no_pixel(rt: HostRuntime) -> Result<(), Fail> {
    let turn = Turn::try_from(Tolerance::Turn(5))?;
    let map = Map::empty();
    assert_eq!(rt;
        reach_weak(&turn, &map, 0, &mut [], &mut [], &mut []),
        Err(MapFault::Pixel(0))
    );
    assert_eq!(rt; first_inadmissible(&turn, &map), None);
    Ok(())
}

#[test]
fn a_map_may_be_filled_again(rt: HostRuntime) -> Result<(), Fail> {
    let first = [1, 2];
    let second = [3, 4, 5];
    let mut map = Map::empty();
    map.make(2, 1, 4, &first)?;
    assert_eq!(rt; map.make(3, 1, 6, &second), Err(MapFault::Joining(6)));
    assert_eq!(rt;
        map.make(2, 2, 8, &second),
        Err(MapFault::Misfit(Counted::Values))
    );
    assert_eq!(rt; map.pixels(), 2);
    map.make(1, 3, 8, &second)?;
    assert_eq!(rt; map.height(), 3);
    assert_eq!(rt; u8::from(map.joining()), 8);
    Ok(())
}

#[test]
fn short_scratch_is_refused_and_cleared(rt: HostRuntime) -> Result<(), Fail> {
    let step = Step::try_from(Tolerance::Step(0))?;
    let values = [1, 1, 1];
    let mut map = Map::empty();
    map.make(1, 3, 8, &values)?;
    let mut sheet = [9; 3];
    let mut marks = [7; 3];
    let mut queue = [7; 3];
    let mut short_marks = [7; 2];
    let mut short_queue = [7; 2];
    assert_eq!(rt;
        reach_weak(&step, &map, 0, &mut sheet, &mut short_marks, &mut queue),
        Err(MapFault::Scratch(Part::Marks))
    );
    assert_eq!(rt;
        reach_symmetric(&step, &map, 0, &mut sheet, &mut marks, &mut short_queue),
        Err(MapFault::Scratch(Part::Queue))
    );
    assert!(rt; sheet == [9; 3] && short_marks == [0; 2] && short_queue == [0; 2]);
    assert!(rt; marks == [0; 3] && queue == [0; 3]);
    Ok(())
}

// A NaN is near nothing, so its own neighbourhood is empty.
#[test]
fn a_flood_may_find_nothing(rt: HostRuntime) -> Result<(), Fail> {
    let limits = Limits::try_from(Tolerance::Limits(1.0, 1.0))?;
    let values = [
        ReflectanceBits {
            mean: 0x7fc0_0001,
            slope: 0,
        },
        ReflectanceBits { mean: 0, slope: 0 },
    ];
    let mut map = Map::empty();
    map.make(2, 1, 4, &values)?;
    let mut marks = [0; 2];
    let mut queue = [7; 2];
    assert_eq!(rt; flood(&limits, &map, 0, &mut marks, &mut queue)?, 0);
    assert_eq!(rt; flood(&limits, &map, 1, &mut marks, &mut queue)?, 1);
    assert!(rt; marks == [0; 2] && queue == [1, 7]);
    Ok(())
}
