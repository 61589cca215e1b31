// The exported update start.
ghost use Rattle.std.specs.Prelude.{◌≡◌};
ghost use Rattle.device.specs.State.{lent};
ghost use Rattle.update.specs.Start.{start_of};
ghost use Rattle.yohrundel.specs.Answers.{update_start_answer_of};

use crate::answers::UpdateStartAnswer;
use device::record::Device;
use geometry::banks::Geometry;
use update_start::start;

#[unsafe(no_mangle)]
pub extern "C" fn yohrundel_update_start_2(
    g: Geometry,
    d: Device,
    one: &[u32],
    two: &[u32],
    image: &[u32],
) -> UpdateStartAnswer
    ensures { result ≡ update_start_answer_of (start_of g (lent d one.entry two.entry) image.now) }
{
    match start(g, d, one, two, image) {
        Ok(s) => UpdateStartAnswer {
            decline: 0,
            place: s.place,
            total: s.total,
        },
        Err(decline) => UpdateStartAnswer {
            decline: decline.number(),
            place: 0,
            total: 0,
        },
    }
}
