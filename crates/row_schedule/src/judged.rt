// A call for a row that none of declines 1, 2 and 19 applies to.
ghost use Rattle.std.specs.Prelude.{◌≡◌, true, length};
ghost use Rattle.words.specs.Decline.{accepted_of};
ghost use Rattle.row_judge.specs.Judge.{row_decline_of};

use row_signs::row::Row;
use row_turn::Shared;

// K, the row, and what the turns of its signs share.
#[derive(Clone, Copy)]
pub struct Judged<'a> {
    pub k: u32,
    pub row: &'a Row,
    pub shared: Shared<'a>,
    pub ghost accepted: { accepted_of (row_decline_of shared.layout.geometry k row.now.signs row.now.count row.now.queue row.now.last
        (length shared.store.now) (length shared.image.now) (length shared.sram.now)) ≡ true },
}
