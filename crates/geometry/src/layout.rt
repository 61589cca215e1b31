// The sizes of a sign to whose geometry decline 1 does not apply.
ghost use Rattle.geometry.specs.Banks.{InRange};

use crate::banks::{Geometry, in_range};

// A geometry in range: what a call works with once decline 1 is judged.
#[derive(Clone, Copy)]
pub struct Layout {
    pub geometry: Geometry,
    pub ghost in_range: { InRange geometry },
}

impl Layout {
    ghost use Rattle.std.specs.Prelude.{◌≡◌, IfSome, is_some};
    ghost use Rattle.geometry.specs.Banks.{in_range_of};
    ghost use Rattle.geometry.specs.Banks.{pages_of, row_bytes_of, page_bytes_of, page_words_of, page_quads_of};
    ghost use Rattle.geometry.specs.Banks.{boot_bytes_of, boot_words_of, boot_quads_of, program_bytes_of, bank_words_of};

    // The layout of a geometry to which decline 1 does not apply.
    pub fn of(g: Geometry) -> Option<Self>
        ensures range { is_some result ≡ in_range_of g }
        ensures geometry { IfSome result (λ layout. layout.geometry ≡ g) }
    {
        if in_range(g) {
            Some(Layout { geometry: g })
        } else {
            None
        }
    }

    // N, the pages of a bank.
    pub fn pages(self) -> u32
        ensures { result ≡ pages_of self.geometry }
    {
        self.geometry.b + self.geometry.p
    }

    pub fn row_bytes(self) -> u32
        ensures { result ≡ row_bytes_of self.geometry }
    {
        16 * self.geometry.q
    }

    pub fn page_bytes(self) -> u32
        ensures { result ≡ page_bytes_of self.geometry }
    {
        128 * self.geometry.q
    }

    pub fn page_words(self) -> u32
        ensures { result ≡ page_words_of self.geometry }
    {
        32 * self.geometry.q
    }

    pub fn page_quads(self) -> u32
        ensures { result ≡ page_quads_of self.geometry }
    {
        8 * self.geometry.q
    }

    // The bytes of a bank's boot pages.
    pub fn boot_bytes(self) -> u32
        ensures { result ≡ boot_bytes_of self.geometry }
    {
        self.geometry.b * (128 * self.geometry.q)
    }

    // The words of a bank's boot pages: the index of its first program word.
    pub fn boot_words(self) -> u32
        ensures { result ≡ boot_words_of self.geometry }
    {
        self.geometry.b * (32 * self.geometry.q)
    }

    // The quads of a bank's boot pages: the index of its first program quad.
    pub fn boot_quads(self) -> u32
        ensures { result ≡ boot_quads_of self.geometry }
    {
        self.geometry.b * (8 * self.geometry.q)
    }

    // The bytes of a bank's program pages.
    pub fn program_bytes(self) -> u32
        ensures { result ≡ program_bytes_of self.geometry }
    {
        self.geometry.p * (128 * self.geometry.q)
    }

    pub fn bank_words(self) -> u32
        ensures { result ≡ bank_words_of self.geometry }
    {
        (self.geometry.b + self.geometry.p) * (32 * self.geometry.q)
    }
}
