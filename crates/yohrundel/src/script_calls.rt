// The exported calls that play a script, that write an update's, and that find the smallest which shows a decline.
ghost use Rattle.std.specs.Prelude.{◌≡◌};
ghost use Rattle.device.specs.State.{lent, state};
ghost use Rattle.script_play.specs.Play.{play_of, play_length_of};
ghost use Rattle.script_write.specs.Script.{write_script_of};
ghost use Rattle.script_smallest.specs.Smallest.{smallest_of};
ghost use Rattle.yohrundel.specs.Answers.{play_length_answer_of, PlayGives, WriteScriptGives, SmallestGives};

use crate::answers::{PlayAnswer, PlayLengthAnswer, SmallestAnswer, WriteScriptAnswer};
use device::record::Device;
use geometry::banks::Geometry;
use script_play::{play, play_length};
use script_smallest::smallest;
use script_write::write_script;

#[unsafe(no_mangle)]
pub extern "C" fn yohrundel_play_2(
    g: Geometry,
    d: Device,
    one: &mut [u32],
    two: &mut [u32],
    sram: &[u32],
    script: &[u8],
    out: &mut [u8],
) -> PlayAnswer
    ensures { PlayGives (play_of g sram.now (state d one.old two.old) script.now out.old) result
        one.new two.new out.new }
{
    match play(g, d, one, two, sram, script, out) {
        Ok(p) => PlayAnswer {
            decline: 0,
            bytes: p.bytes,
            device: p.device,
        },
        Err(decline) => PlayAnswer {
            decline: decline.number(),
            bytes: 0,
            device: d,
        },
    }
}

#[unsafe(no_mangle)]
pub extern "C" fn yohrundel_play_length_2(
    g: Geometry,
    d: Device,
    one: &[u32],
    two: &[u32],
    sram: &[u32],
    script: &[u8],
) -> PlayLengthAnswer
    ensures { result ≡ play_length_answer_of (play_length_of g sram.now (lent d one.entry two.entry) script.now) }
{
    match play_length(g, d, one, two, sram, script) {
        Ok(bytes) => PlayLengthAnswer { decline: 0, bytes },
        Err(decline) => PlayLengthAnswer {
            decline: decline.number(),
            bytes: 0,
        },
    }
}

// Writes every action of an update as a record into a buffer.
#[unsafe(no_mangle)]
pub extern "C" fn yohrundel_write_script(
    g: Geometry,
    d: Device,
    one: &[u32],
    two: &[u32],
    image: &[u32],
    out: &mut [u8],
) -> WriteScriptAnswer
    ensures { WriteScriptGives (write_script_of g (lent d one.entry two.entry) image.now out.old) result out.new }
{
    match write_script(g, d, one, two, image, out) {
        Ok(records) => WriteScriptAnswer {
            decline: 0,
            records,
        },
        Err(decline) => WriteScriptAnswer {
            decline: decline.number(),
            records: 0,
        },
    }
}

// Finds the smallest script that shows a decline's number, with two scratch banks to play on.
#[unsafe(no_mangle)]
pub extern "C" fn yohrundel_smallest(
    g: Geometry,
    d: Device,
    one: &[u32],
    two: &[u32],
    sram: &[u32],
    scratch1: &mut [u32],
    scratch2: &mut [u32],
    script: &[u8],
    number: u32,
    res: &mut [u8],
) -> SmallestAnswer
    ensures { SmallestGives
        (smallest_of g sram.now (lent d one.entry two.entry) script.now number
        scratch1.old scratch2.old res.old) result
        scratch1.new scratch2.new res.new }
{
    match smallest(
        g, d, one, two, sram, scratch1, scratch2, script, number, res,
    ) {
        Ok(records) => SmallestAnswer {
            decline: 0,
            records,
        },
        Err(decline) => SmallestAnswer {
            decline: decline.number(),
            records: 0,
        },
    }
}
