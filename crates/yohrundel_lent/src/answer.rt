// A turn with its answer as numbers.
ghost use Rattle.device.specs.State.{state};
ghost use Rattle.update.specs.Turn.{turn_of};
ghost use Rattle.yohrundel_lent.specs.Answer.{TurnGives};

use device::record::Device;
use geometry::banks::Geometry;
use update_turn::turn;

// What a turn tells beside the device.
#[repr(C)]
#[derive(Clone, Copy)]
pub struct TurnOutcome {
    pub decline: u32,
    pub place: u32,
    pub done: bool,
    pub event: bool,
}

// A turn with the device lent, its answer as numbers.
pub fn turn_answer(
    g: Geometry,
    d: &mut Device,
    one: &mut [u32],
    two: &mut [u32],
    image: &[u32],
    sram: &[u32],
    place: u32,
) -> TurnOutcome
    ensures { TurnGives (turn_of g (state d.old one.old two.old) image.now sram.now place) result
        (state d.new one.new two.new) }
{
    match turn(g, *d, one, two, image, sram, place) {
        Ok(t) => {
            *d = t.device;
            TurnOutcome {
                decline: 0,
                place: t.place,
                done: t.done,
                event: t.event,
            }
        }
        Err(decline) => TurnOutcome {
            decline: decline.number(),
            place,
            done: false,
            event: false,
        },
    }
}
