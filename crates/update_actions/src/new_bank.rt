// What an update makes of the new bank.
ghost use Rattle.std.specs.Prelude.{◌≡◌, length};
ghost use Rattle.geometry.specs.Banks.{bank_words_of};

use geometry::layout::Layout;

// The image, and the old bank's sequence word, which the new bank's sequence quad follows.
#[derive(Clone, Copy)]
pub struct NewBank<'a> {
    pub layout: Layout,
    pub image: &'a [u32],
    pub word: u32,
    pub ghost long: { length image.now ≡ bank_words_of layout.geometry },
}
