// The exported turn with the device record lent.
ghost use Rattle.device.specs.State.{state};
ghost use Rattle.update.specs.Turn.{turn_of};
ghost use Rattle.yohrundel_lent.specs.Answer.{TurnGives};

use crate::answer::{TurnOutcome, turn_answer};
use device::record::Device;
use geometry::banks::Geometry;

// One turn with the device record lent.
#[unsafe(no_mangle)]
pub extern "C" fn yohrundel_turn_lent_2(
    g: Geometry,
    d: &mut Device,
    one: &mut [u32],
    two: &mut [u32],
    image: &[u32],
    sram: &[u32],
    place: u32,
) -> TurnOutcome
    ensures { TurnGives (turn_of g (state d.old one.old two.old) image.now sram.now place) result
        (state d.new one.new two.new) }
{
    turn_answer(g, d, one, two, image, sram, place)
}
