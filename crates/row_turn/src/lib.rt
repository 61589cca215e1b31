// The turn of one sign of a row, over its two parts of the store.
// What takes a Layout or asks for Lies here is no call of the row: its callers judge 1, 2 and 19 first.
#![tactic(auto)]

ghost use Rattle.std.specs.Prelude.{◌≡◌, ◌⊎◌, ◌+◌, ◌≤◌, length};
ghost use Rattle.geometry.specs.Banks.{bank_words_of};
ghost use Rattle.flash.specs.Write.{Fits, write_from};
ghost use Rattle.update.specs.Answers.{turn_effect_from};
ghost use Rattle.update.specs.Turn.{effected_of};
ghost use Rattle.row_turn.specs.SignTurn.{part_of, sign_state_of, sign_turn_of, look_of, sign_turning, sign_turning_of, put_write_of, Lies};

use device::registers::Nvmcon;
use flash::write::Write;
use geometry::layout::Layout;
use row_signs::sign::Sign;
use update::turn::TurnChange;
use update_turn::turn_effect;
use words::decline::Decline;
use words::quad::put_quad;
use words::word::has;

// Whether a sign's turn is neither declined nor done, and whether it would set WR.
#[derive(Clone, Copy)]
pub struct Look {
    pub can: bool,
    pub sets: bool,
}

// A sign's record after its turn, and the turn's event.
#[derive(Clone, Copy)]
pub struct SignTurned {
    pub sign: Sign,
    pub event: bool,
}

// What the turns of a row's signs share: the layout, the store with all their banks, the image and the SRAM.
#[derive(Clone, Copy)]
pub struct Shared<'a> {
    pub layout: Layout,
    pub store: &'a [u32],
    pub image: &'a [u32],
    pub sram: &'a [u32],
}

impl Shared<'_> {
    // What a sign's turn does, from its two parts of the store, both only read.
    fn effect(&self, s: Sign) -> Result<TurnChange, Decline>
        requires { Lies self.now.layout.geometry self.now.store.now s }
        ensures result_value { effected_of (sign_state_of self.now.layout.geometry self.now.store.now s) (turn_effect_from s.device s.place result)
            ≡ sign_turn_of self.now.layout.geometry self.now.store.now self.now.image.now self.now.sram.now s }
        ensures fits { Fits (part_of self.now.store.now s.one (bank_words_of self.now.layout.geometry)) (part_of self.now.store.now s.two (bank_words_of self.now.layout.geometry))
            (turn_effect_from s.device s.place result).write }
    {
        let words = self.layout.bank_words() as usize;
        let one = s.one as usize;
        let two = s.two as usize;
        turn_effect(
            self.layout.geometry,
            s.device,
            &self.store[one..one + words],
            &self.store[two..two + words],
            self.image,
            self.sram,
            s.place,
        )
    }

    // What a sign's turn would do, for the choice.
    pub fn look_at(&self, s: Sign) -> Look
        requires { Lies self.now.layout.geometry self.now.store.now s }
        ensures { result ≡ look_of self.now.layout.geometry self.now.store.now self.now.image.now self.now.sram.now s }
    {
        match self.effect(s) {
            Ok(change) => {
                let t = change.outcome;
                Look {
                    can: !t.done,
                    sets: !has(s.device.nvmcon.0, Nvmcon::WR) & has(t.device.nvmcon.0, Nvmcon::WR),
                }
            }
            Err(_) => Look {
                can: false,
                sets: false,
            },
        }
    }
}

// Writes the quad where there is one to write, into the bank of so many words that it stands in.
fn put_write(store: &mut [u32], one: usize, two: usize, words: usize, w: Write)
    requires words_in_bounds { one + words ≤ length store.old }
    requires words_in_bounds_2 { two + words ≤ length store.old }
    requires fact { (one + words ≤ two) ⊎ (two + words ≤ one) }
    requires fits { Fits (part_of store.old one words) (part_of store.old two words) (write_from w) }
    ensures { store.new ≡ put_write_of store.old one two words (write_from w) }
{
    let Some(four) = w.words else {
        return;
    };
    let quad = w.quad as usize;
    if w.second {
        put_quad(&mut store[two..two + words], quad, four);
    } else {
        put_quad(&mut store[one..one + words], quad, four);
    }
}

// A sign's turn: its record taken, turned by value, and given back.
pub fn serve(layout: Layout, s: Sign, store: &mut [u32], image: &[u32], sram: &[u32]) -> SignTurned
    requires { Lies layout.geometry store.old s }
    ensures { sign_turning result store.new ≡ sign_turning_of layout.geometry store.old image.now sram.now s }
{
    let shared = Shared {
        layout,
        store,
        image,
        sram,
    };
    let Ok(change) = shared.effect(s) else {
        return SignTurned {
            sign: s,
            event: false,
        };
    };
    put_write(
        store,
        s.one as usize,
        s.two as usize,
        layout.bank_words() as usize,
        change.write,
    );
    let t = change.outcome;
    SignTurned {
        sign: Sign {
            device: t.device,
            place: t.place,
            ..s
        },
        event: t.event,
    }
}
