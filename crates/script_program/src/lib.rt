// What the play program prints for a script, and reading until a buffer is full.
#![tactic(auto)]

pub mod input;

ghost use Rattle.std.specs.Prelude.{◌≡◌, []};
ghost use Rattle.script_play.specs.Play.{play_of, play_length_from};
ghost use Rattle.script_program.specs.Program.{smallest, start_of, decline_line, printout, taken_of, written_of, print_of};

use device::builders::power_on;
use geometry::banks::Geometry;
use script_play::play;
use text::buffer::put_front;
use text::lines::{LINE_FEED, put_decimal};
use words::decline::Decline;

// The longest script in bytes.
pub const LONGEST: usize = 65536;

// Room for every output: 18 bytes for each of 8,192 records, whose numbers have at most four digits.
pub const OUTPUT: usize = 147456;

// The words of a bank of one boot page and one program page, each of one quad a row, and the index of its sequence word.
const BANK: usize = 64;

const SEQUENCE: usize = 28;

// Plays a script after power-on on banks of all ones but bank 1's sequence word.
fn play_after_power_on(script: &[u8], out: &mut [u8]) -> Result<usize, Decline>
    ensures decline_value { (play_length_from result).decline ≡ (play_of smallest [] start_of script.now out.old).decline }
    ensures out_after { printout (play_length_from result).bytes out.new ≡ taken_of (play_of smallest [] start_of script.now out.old) }
{
    let g = Geometry { q: 1, b: 1, p: 1 };
    let mut one = [0xFFFF_FFFFu32; BANK];
    let mut two = [0xFFFF_FFFFu32; BANK];
    let sram = [0u32; 1];
    one[SEQUENCE] = 0xFFFE_0001;
    let played = play(g, power_on(), &mut one, &mut two, &sram[0..0], script, out)?;
    Ok(played.bytes)
}

// Writes the line of decline 14; gives its bytes.
fn print_decline(out: &mut [u8]) -> usize
    ensures { printout result out.new ≡ written_of decline_line out.old }
{
    let mut line = [0u8; 3];
    let number = Decline::Script.number();
    let count = put_decimal(&mut line, 0, number as usize, LINE_FEED);
    put_front(out, 0, &line);
    count
}

// Writes what is printed for a script into a buffer of any length, as much of its front as fits; gives the bytes of all of it.
pub fn print(script: &[u8], out: &mut [u8]) -> usize
    ensures { printout result out.new ≡ print_of script.now out.old }
{
    if LONGEST < script.len() {
        return print_decline(out);
    }
    match play_after_power_on(script, out) {
        Ok(bytes) => bytes,
        Err(_) => print_decline(out),
    }
}
