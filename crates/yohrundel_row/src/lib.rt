// The call with a lent list of records, for programs in other languages.
#![tactic(auto)]

ghost use Rattle.std.specs.Prelude.{◌≡◌};
ghost use Rattle.yohrundel_row.specs.Schedule.{rowed, schedule_of};

use geometry::banks::Geometry;
use row_list::{few, gather, keep_sign};
use row_schedule::answer::ScheduleAnswer;
use row_schedule::{schedule_row, whom};
use row_signs::queue::Queue;
use row_signs::row::Row;
use row_signs::sign::Sign;

// The records are gathered by value, the call reads them, and the one record that it served is kept.
#[unsafe(no_mangle)]
pub extern "C" fn yohrundel_schedule(
    g: Geometry,
    k: u32,
    signs: &mut [Sign],
    queue: Queue,
    last: u32,
    store: &mut [u32],
    image: &[u32],
    sram: &[u32],
) -> ScheduleAnswer
    ensures { rowed signs.new store.new result
        ≡ schedule_of g k signs.old queue last store.old image.now sram.now }
{
    let n = signs.len();
    let row = Row {
        signs: gather(signs, few(n)),
        count: n,
        queue,
        last,
    };
    let outcome = schedule_row(g, k, &row, store, image, sram);
    if let Some(s) = whom(&outcome) {
        keep_sign(signs, s.number as usize, s.sign);
    }
    ScheduleAnswer::of(&outcome, queue, last)
}
