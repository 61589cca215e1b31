// The one write of a call: at most one quad of two banks.
ghost use Rattle.std.specs.Prelude.{◌≡◌};
ghost use Rattle.flash.specs.Write.{no_write, one_after, two_after, write_from, Fits};

use words::quad::put_quad;

// A quad of a bank, and its words where it is written.
#[derive(Clone, Copy, PartialEq, Eq, Debug)]
pub struct Write {
    pub second: bool,
    pub quad: u32,
    pub words: Option<[u32; 4]>,
}

// Nothing is written.
pub fn no_write() -> Write
    ensures { write_from result ≡ no_write }
{
    Write {
        second: false,
        quad: 0,
        words: None,
    }
}

// Writes the quad where there is one to write. No call of the device: callers show that it lies in the banks.
pub fn apply(one: &mut [u32], two: &mut [u32], w: Write)
    requires { Fits one.old two.old (write_from w) }
    ensures { (one.new ≡ one_after one.old (write_from w)) × (two.new ≡ two_after two.old (write_from w)) }
{
    let Some(words) = w.words else {
        return;
    };
    let quad = w.quad as usize;
    if w.second {
        put_quad(two, quad, words);
    } else {
        put_quad(one, quad, words);
    }
}
