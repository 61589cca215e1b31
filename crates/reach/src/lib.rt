// What two images differ in, and the place of the action that differs.
// What takes a Layout or asks for lengths here is no call: reach judges its declines first.
#![tactic(auto)]

ghost use Rattle.std.specs.Prelude.{◌≡◌, ◌≤◌, ◌<◌, length};
ghost use Rattle.geometry.specs.Banks.{bank_words_of};
ghost use Rattle.update.specs.Actions.{bank_quads_of};
ghost use Rattle.reach.specs.Reach.{answer_from, reached_from, reach_number_of, with_word_of, difference_of, programmed_at_of, data_place_of, answer_of, reach_of};

use geometry::banks::Geometry;
use geometry::layout::Layout;
use geometry::lent::{Lent, lent_decline};
use sequence::sequence_quad;
use words::decline::Decline;

// How many words differ, and the lowest and the highest of them; all three 0 for equal images.
#[derive(Clone, Copy)]
pub struct Difference {
    pub count: u32,
    pub lowest: u32,
    pub highest: u32,
}

// What a difference of two images reaches.
#[derive(Clone, Copy)]
pub enum ReachAnswer {
    // The action at a place differs, and no other.
    Action(u32),
    // One word differs, in the sequence quad, and no action.
    NoAction,
    // No word differs, or several do.
    Words(Difference),
}

impl ReachAnswer {
    // Its number: 0 an action, 1 no action, 2 words. 3 is that of a call that is declined.
    pub fn number(self) -> u32
        ensures { result ≡ reach_number_of (answer_from self) }
    {
        match self {
            ReachAnswer::Action(_) => 0,
            ReachAnswer::NoAction => 1,
            ReachAnswer::Words(_) => 2,
        }
    }
}

impl Difference {
    // With word i, which is higher than the others, one more.
    fn with_word(self, i: u32) -> Difference
        requires { self.count < 2000000 }
        ensures { result ≡ with_word_of self i }
    {
        Difference {
            count: self.count + 1,
            lowest: if self.count == 0 { i } else { self.lowest },
            highest: i,
        }
    }
}

// What two images of one length differ in: one pass.
fn compare_images(image: &[u32], other: &[u32]) -> Difference
    requires other_len { length other.now ≡ length image.now }
    requires image_len_bound { length image.now ≤ 2000000 }
    ensures { result ≡ difference_of image.now other.now (length image.now) }
{
    let mut d = Difference {
        count: 0,
        lowest: 0,
        highest: 0,
    };
    for i in 0..image.len() {
        if image[i] != other[i] {
            d = d.with_word(i as u32);
        }
    }
    d
}

// The number of a quad of the bank in the order of the programming.
#[tactic(auto, unfolding(crate::specs::Reach::programmed_at_of))]
fn programmed_at(layout: Layout, quad: u32) -> u32
    requires { quad < bank_quads_of layout.geometry }
    ensures { result ≡ programmed_at_of layout.geometry quad }
{
    let boot = layout.boot_quads();
    if quad < boot {
        layout.geometry.p * layout.page_quads() + quad
    } else {
        quad - boot
    }
}

// The place of the store of a word of the image to its NVMDATA register.
#[tactic(auto, unfolding(crate::specs::Reach::data_place_of))]
fn data_place(layout: Layout, i: u32) -> u32
    requires { i < bank_words_of layout.geometry }
    ensures { result ≡ data_place_of layout.geometry i }
{
    let programming = 12 + layout.pages() * (8 + layout.page_quads());
    programming + programmed_at(layout, i / 4) * 13 + (1 + i % 4)
}

#[tactic(auto, unfolding(crate::specs::Reach::answer_of))]
fn answer_of(layout: Layout, d: Difference) -> ReachAnswer
    requires { d.lowest < bank_words_of layout.geometry }
    ensures { answer_from result ≡ answer_of layout.geometry d }
{
    if d.count != 1 {
        ReachAnswer::Words(d)
    } else if d.lowest / 4 == sequence_quad(layout) {
        ReachAnswer::NoAction
    } else {
        ReachAnswer::Action(data_place(layout, d.lowest))
    }
}

// What two images differ in, and where they differ in one word the place of the action that differs. It changes nothing.
#[tactic(auto, unfolding(crate::specs::Reach::reach_of))]
pub fn reach(g: Geometry, image: &[u32], other: &[u32]) -> Result<ReachAnswer, Decline>
    ensures { reached_from result ≡ reach_of g image.now other.now }
{
    let layout = lent_decline(g, Lent::Banks(image.len(), other.len()), 0)?;
    Ok(answer_of(layout, compare_images(image, other)))
}
