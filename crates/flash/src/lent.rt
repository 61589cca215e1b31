// What a call that no decline applies to works with.
ghost use Rattle.std.specs.Prelude.{◌≡◌, length};
ghost use Rattle.geometry.specs.Banks.{bank_words_of};
ghost use Rattle.flash.specs.Effect.{Runs};

use device::record::Device;
use geometry::layout::Layout;

// Both banks of a sign, lent to be read.
#[derive(Clone, Copy)]
pub struct Banks<'a> {
    pub layout: Layout,
    pub one: &'a [u32],
    pub two: &'a [u32],
    pub ghost lengths: { (length one.now ≡ bank_words_of layout.geometry) × (length two.now ≡ bank_words_of layout.geometry) },
}

// A device whose operation runs, and the banks that it works on.
#[derive(Clone, Copy)]
pub struct Running<'a> {
    pub banks: Banks<'a>,
    pub device: Device,
    pub ghost runs: { Runs banks.layout.geometry device },
}
