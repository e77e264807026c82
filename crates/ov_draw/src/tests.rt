use crate::laws::ended;
use crate::{DrawSeat, Draws};
use ov_model::Drawn;
use std::test::Fail;

#[test]
fn each_key_counts_on_from_the_first_number(rt: HostRuntime) -> Result<(), Fail> {
    let (draws, seat) = Draws::new(rt.alloc(), 7)?;
    let (mut one, mut two) = draws.split(seat);
    assert_eq!(rt; draws.draw(&mut one, 0), Drawn::Id(7));
    assert_eq!(rt; draws.draw(&mut two, 0), Drawn::Id(8));
    assert_eq!(rt; draws.draw(&mut one, 65_535), Drawn::Id(7));
    assert_eq!(rt; draws.draw(&mut one, 0), Drawn::Id(9));
    let seat = draws.join(one, two);
    let _seat: DrawSeat = ended(draws, seat);
    Ok(())
}

#[test]
fn the_greatest_first_number_is_the_last(rt: HostRuntime) -> Result<(), Fail> {
    let (draws, mut seat) = Draws::new(rt.alloc(), u32::MAX)?;
    assert_eq!(rt; draws.draw(&mut seat, 3), Drawn::Id(u32::MAX));
    assert_eq!(rt; draws.draw(&mut seat, 3), Drawn::Spent);
    assert_eq!(rt; draws.draw(&mut seat, 3), Drawn::Spent);
    assert_eq!(rt; draws.draw(&mut seat, 4), Drawn::Id(u32::MAX));
    Ok(())
}
