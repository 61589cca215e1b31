// The exported calls on a device and its banks.
ghost use Rattle.std.specs.Prelude.{◌≡◌, length, take, drop};
ghost use Rattle.device.specs.State.{state};
ghost use Rattle.flash.specs.Step.{step_of};
ghost use Rattle.resets.specs.Reset.{explained_of};
ghost use Rattle.reads.specs.Read.{flash_read_of};
ghost use Rattle.bank_parts.specs.Parts.{page_part_of};
ghost use Rattle.yohrundel.specs.Answers.{lower_bank_answer_of, page_answer_of, FlashReadGives, StepGives, ResetGives};

use crate::answers::{
    EventAnswer, FlashReadAnswer, LowerBankAnswer, Mask, PageAnswer, ResetAnswer,
};
use bank_parts::{lower_bank_decline, page_decline};
use device::record::Device;
use device::registers::Nvmcon;
use flash::step::step;
use geometry::banks::Geometry;
use reads::flash_read;
use resets::reset;
use words::word::has;

#[unsafe(no_mangle)]
pub extern "C" fn yohrundel_flash_read_3(
    g: Geometry,
    d: Device,
    one: &mut [u32],
    two: &mut [u32],
    sram: &[u32],
    address: u32,
) -> FlashReadAnswer
    ensures { FlashReadGives (flash_read_of g (state d one.old two.old) sram.now address) result one.new two.new }
{
    match flash_read(g, d, one, two, sram, address) {
        Ok(r) => FlashReadAnswer {
            decline: 0,
            word: r.word,
            event: r.event,
            device: r.device,
        },
        Err(decline) => FlashReadAnswer {
            decline: decline.number(),
            word: 0,
            event: false,
            device: d,
        },
    }
}

// The bank on the lower alias by its number: the lent bank itself.
#[tactic(auto, unfolding(bank_parts::specs::Parts::lower_bank_of, crate::specs::Answers::lower_bank_answer_of))]
#[unsafe(no_mangle)]
pub extern "C" fn yohrundel_lower_bank_2(
    g: Geometry,
    d: Device,
    one: &[u32],
    two: &[u32],
) -> LowerBankAnswer
    ensures { result ≡ lower_bank_answer_of g d one.now two.now }
{
    if let Err(decline) = lower_bank_decline(g, d, one, two) {
        return LowerBankAnswer {
            decline: decline.number(),
            bank: 0,
            length: 0,
        };
    }
    if has(d.nvmcon.0, Nvmcon::BFSWAP) {
        LowerBankAnswer {
            decline: 0,
            bank: 2,
            length: two.len(),
        }
    } else {
        LowerBankAnswer {
            decline: 0,
            bank: 1,
            length: one.len(),
        }
    }
}

// A page of a lent bank by where it starts there and how long it is.
#[tactic(auto, using(bank_parts::proofs::AcceptedLaws::page_lies), unfolding(bank_parts::specs::Parts::page_part_of, crate::specs::Answers::page_answer_of))]
#[unsafe(no_mangle)]
pub extern "C" fn yohrundel_page(g: Geometry, bank: &[u32], page: u32) -> PageAnswer
    ensures value { result ≡ page_answer_of g (length bank.now) page }
    ensures bank_value { take result.length (drop result.offset bank.now) ≡ page_part_of g bank.now page }
{
    match page_decline(g, bank, page) {
        Ok(layout) => {
            let words = layout.page_words() as usize;
            PageAnswer {
                decline: 0,
                offset: page as usize * words,
                length: words,
            }
        }
        Err(decline) => PageAnswer {
            decline: decline.number(),
            offset: 0,
            length: 0,
        },
    }
}

#[unsafe(no_mangle)]
pub extern "C" fn yohrundel_step_2(
    g: Geometry,
    d: Device,
    one: &mut [u32],
    two: &mut [u32],
    sram: &[u32],
) -> EventAnswer
    ensures { StepGives (step_of g (state d one.old two.old) sram.now) result one.new two.new }
{
    EventAnswer::of(d, step(g, d, one, two, sram))
}

#[unsafe(no_mangle)]
pub extern "C" fn yohrundel_reset_2(
    g: Geometry,
    d: Device,
    one: &mut [u32],
    two: &mut [u32],
    sram: &[u32],
    kind: u32,
    mask: Mask,
) -> ResetAnswer
    ensures { ResetGives (explained_of g (state d one.old two.old) sram.now kind mask.words) result one.new two.new }
{
    match reset(g, d, one, two, sram, kind, mask.words) {
        Ok(r) => ResetAnswer {
            decline: 0,
            reason: r.reason.number(),
            device: r.device,
        },
        Err(decline) => ResetAnswer {
            decline: decline.number(),
            reason: 4,
            device: d,
        },
    }
}
