// One call for a row of signs, lent to be read.
// What asks for a sound row or queue in this crate is no call of the row: schedule_row judges 1, 2 and 19 first.
#![tactic(auto)]

pub mod answer;
mod choice;
mod judged;
mod round;

ghost use Rattle.std.specs.Prelude.{◌≡◌, ◌<◌, IfSome, Ok};
ghost use Rattle.row_schedule.specs.Round.{RowSound, choice_from};
ghost use Rattle.row_schedule.specs.Schedule.{serving_of, whom_from, scheduling_from, schedule_row_of};

use crate::answer::{Scheduled, ServedSign};
use crate::choice::Choice;
use crate::judged::Judged;
use geometry::banks::Geometry;
use geometry::layout::Layout;
use row_judge::row_decline;
use row_signs::row::Row;
use row_turn::{Shared, serve};
use words::decline::Decline;

// The turn of the record that is served, or nothing where nobody is.
#[tactic(auto, unfolding(crate::specs::Schedule::serving_of))]
fn serve_choice(
    layout: Layout,
    row: &Row,
    choice: Choice,
    store: &mut [u32],
    image: &[u32],
    sram: &[u32],
) -> Scheduled
    requires row_sound { RowSound layout.geometry store.old row.now.signs row.now.count }
    requires listed { IfSome choice.served (λ j. j < row.now.count) }
    ensures { scheduling_from row.now.count row.now.queue row.now.last (Ok result) store.new
        ≡ serving_of layout.geometry row.now.signs row.now.count (choice_from row.now.count choice) row.now.last store.old image.now sram.now }
{
    let Some(number) = choice.served else {
        return Scheduled {
            served: None,
            queue: choice.queue,
        };
    };
    let t = serve(layout, row.signs[number], store, image, sram);
    Scheduled {
        served: Some(ServedSign {
            number: number as u32,
            sign: t.sign,
            event: t.event,
        }),
        queue: choice.queue,
    }
}

// One call for a row.
#[tactic(auto, unfolding(crate::specs::Schedule::schedule_row_of))]
pub fn schedule_row<'a>(
    g: Geometry,
    k: u32,
    row: &'a Row,
    store: &mut [u32],
    image: &'a [u32],
    sram: &'a [u32],
) -> Result<Scheduled, Decline>
    ensures { scheduling_from row.now.count row.now.queue row.now.last result store.new
        ≡ schedule_row_of g k row.now.signs row.now.count row.now.queue row.now.last store.old image.now sram.now }
{
    let layout = row_decline(g, k, row, store.len(), image.len(), sram.len())?;
    let judged = Judged {
        k,
        row,
        shared: Shared {
            layout,
            store,
            image,
            sram,
        },
    };
    let choice = judged.choose();
    Ok(serve_choice(layout, row, choice, store, image, sram))
}

// The record that a call serves, by what it leaves or why it is declined.
pub fn whom(outcome: &Result<Scheduled, Decline>) -> Option<ServedSign>
    ensures { result ≡ whom_from outcome.now }
{
    match outcome {
        Ok(scheduled) => scheduled.served,
        Err(_) => None,
    }
}
