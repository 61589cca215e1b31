// The smallest script that shows a decline: one of which no record can go.
// What asks for lengths here is no call of the script: its callers judge them first.
#![tactic(auto)]

ghost use Rattle.std.specs.Prelude.{◌≡◌, ◌++◌, ◌*◌, ◌+◌, ◌%◌, ◌≤◌, ◌<◌, length, take, replicate};
ghost use Rattle.script_format.specs.Records.{record_of, records_of};
ghost use Rattle.device.specs.State.{lent, state};
ghost use Rattle.script_smallest.specs.Smallest.{gives_of, shows_of, without_of, smallest_script_of, unplayed_decline_of, with_zeros};
ghost use Rattle.script_smallest.specs.Smallest.{smallest_from, searched_of, smallest_of};

use common_declines::common_decline::common_decline;
use device::record::Device;
use geometry::banks::Geometry;
use geometry::lent::{Lent, lent_decline};
use script_format::{Record, is_script, record_at};
use script_record::play_record;
use words::decline::Decline;

// The bytes of a record, and the most records of a script that is searched.
const RECORD_BYTES: usize = 8;

const MOST_RECORDS: usize = 64;

// Sets a slice to the elements of another of its length. By a loop, as below: std's copies would have the archive for C ask for memmove.
fn set_all<T: Copy>(to: &mut [T], from: &[T])
    requires { length to.old ≡ length from.now }
    ensures { to.new ≡ from.now }
{
    for i in 0..from.len() {
        to[i] = from[i];
    }
}

// Record k of a script without one of its records; without none where that one lies past the last.
#[tactic(auto, using(crate::proofs::WithoutLaws::record_below, crate::proofs::WithoutLaws::record_above))]
fn record_without(script: &[u8], removed: usize, k: usize) -> Record
    requires removed_in_bounds { 8 * removed ≤ length script.now }
    requires k_in_bounds { 8 * k + 8 ≤ length (without_of script.now removed) }
    ensures { result ≡ record_of (without_of script.now removed) k }
{
    if k < removed {
        return record_at(script, k);
    }
    record_at(script, k + 1)
}

// Removes a record: those after it move down, and zeros follow.
#[tactic(auto, using(crate::proofs::RemoveLaws::remove_next))]
fn remove_record(script: &mut [u8], removed: usize)
    requires { 8 * removed + 8 ≤ length script.old }
    ensures { script.new ≡ without_of script.old removed ++ replicate 8 0 }
{
    let kept = script.len() - RECORD_BYTES;
    for k in RECORD_BYTES * removed..kept {
        script[k] = script[k + RECORD_BYTES];
    }
    script[kept..].fill(0);
}

// What every play of a search begins with, and the number that it is to give.
#[derive(Clone, Copy)]
struct Trial<'a> {
    g: Geometry,
    device: Device,
    one: &'a [u32],
    two: &'a [u32],
    sram: &'a [u32],
    number: u32,
}

impl Trial<'_> {
    // Sets the scratch banks from the originals.
    fn set_banks(&self, scratch1: &mut [u32], scratch2: &mut [u32])
        requires scratch1_len { length scratch1.old ≡ length self.now.one.now }
        requires scratch2_len { length scratch2.old ≡ length self.now.two.now }
        ensures scratch1_after { scratch1.new ≡ self.now.one.now }
        ensures scratch2_after { scratch2.new ≡ self.now.two.now }
    {
        set_all(scratch1, self.one);
        set_all(scratch2, self.two);
    }

    // Whether a play on two banks of the first `count` records of a script without one of them gives the number.
    fn gives_without(
        &self,
        one: &mut [u32],
        two: &mut [u32],
        script: &[u8],
        removed: usize,
        count: usize,
    ) -> bool
        requires removed_in_bounds { 8 * removed ≤ length script.now }
        requires count_in_bounds { 8 * count ≤ length (without_of script.now removed) }
        ensures { result ≡ gives_of self.now.g self.now.sram.now (state self.now.device one.old two.old) self.now.number
            (take (8 * count) (without_of script.now removed)) }
    {
        let mut device = self.device;
        let mut given = false;
        for k in 0..count {
            let record = record_without(script, removed, k);
            let number = match play_record(self.g, device, one, two, self.sram, record) {
                Ok(outcome) => {
                    device = outcome.device;
                    0
                }
                Err(decline) => decline.number(),
            };
            if number == self.number {
                given = true;
            }
        }
        given
    }

    // The same on scratch banks, set from the originals. 0 counts as never given.
    #[tactic(auto, unfolding(crate::specs::Smallest::shows_of), using(crate::proofs::TrialLaws::shows_on))]
    fn shows_without(
        &self,
        scratch1: &mut [u32],
        scratch2: &mut [u32],
        script: &[u8],
        removed: usize,
        count: usize,
    ) -> bool
        requires scratch1_len { length scratch1.old ≡ length self.now.one.now }
        requires scratch2_len { length scratch2.old ≡ length self.now.two.now }
        requires removed_in_bounds { 8 * removed ≤ length script.now }
        requires count_in_bounds { 8 * count ≤ length (without_of script.now removed) }
        ensures { result ≡ shows_of self.now.g self.now.sram.now (lent self.now.device self.now.one self.now.two) self.now.number
            (take (8 * count) (without_of script.now removed)) }
    {
        if self.number == 0 {
            return false;
        }
        self.set_banks(scratch1, scratch2);
        self.gives_without(scratch1, scratch2, script, removed, count)
    }

    // Drops the lowest record that can go, again and again; what is left stands in front, zeros after it. Gives the number of records left.
    fn drop_records(&self, scratch1: &mut [u32], scratch2: &mut [u32], script: &mut [u8]) -> usize
        requires scratch1_len { length scratch1.old ≡ length self.now.one.now }
        requires scratch2_len { length scratch2.old ≡ length self.now.two.now }
        requires script_len { length script.old % 8 ≡ 0 }
        ensures value { result ≡ records_of (smallest_script_of self.now.g self.now.sram.now (lent self.now.device self.now.one self.now.two)
            self.now.number script.old) }
        ensures script_after { script.new
            ≡ with_zeros (smallest_script_of self.now.g self.now.sram.now (lent self.now.device self.now.one self.now.two) self.now.number script.old)
            (length script.old) }
    {
        let mut n = script.len() / RECORD_BYTES;
        let mut i = 0;
        // not a for: n falls, and i begins again
        while i < n {
            if self.shows_without(scratch1, scratch2, script, i, n - 1) {
                remove_record(script, i);
                n -= 1;
                i = 0;
            } else {
                i += 1;
            }
        }
        n
    }

    // Which of declines 1, 2, 3, 14 and 20 applies, by the lengths of the scratch banks and of the result buffer.
    #[tactic(auto, unfolding(crate::specs::Smallest::unplayed_decline_of))]
    fn unplayed_decline(
        &self,
        script: &[u8],
        scratch1: usize,
        scratch2: usize,
        res: usize,
    ) -> Result<(), Decline>
        ensures { result ≡ unplayed_decline_of self.now.g (lent self.now.device self.now.one self.now.two) (length self.now.sram.now)
            script.now scratch1 scratch2 res }
    {
        let originals = Lent::Banks(self.one.len(), self.two.len());
        lent_decline(self.g, originals, self.sram.len())?;
        if res != script.len() {
            return Err(Decline::Length);
        }
        common_decline(self.g, self.device, Lent::Banks(scratch1, scratch2), 0)?;
        if !is_script(script) {
            return Err(Decline::Script);
        }
        if MOST_RECORDS < script.len() / RECORD_BYTES {
            return Err(Decline::Records);
        }
        Ok(())
    }

    // The smallest script of one that is played, or 21; the scratch banks are left as the last play left them.
    fn search(
        &self,
        scratch1: &mut [u32],
        scratch2: &mut [u32],
        script: &[u8],
        res: &mut [u8],
    ) -> Result<u32, Decline>
        requires scratch1_len { length scratch1.old ≡ length self.now.one.now }
        requires scratch2_len { length scratch2.old ≡ length self.now.two.now }
        requires res_len { length res.old ≡ length script.now }
        requires script_len { length script.now % 8 ≡ 0 }
        requires script_bound { records_of script.now ≤ 64 }
        ensures { smallest_from result self.now.one.now self.now.two.now res.new
            ≡ searched_of self.now.g self.now.sram.now (lent self.now.device self.now.one self.now.two) script.now self.now.number res.old }
    {
        let n = script.len() / RECORD_BYTES;
        if !self.shows_without(scratch1, scratch2, script, n, n) {
            return Err(Decline::NotShown);
        }
        set_all(res, script);
        Ok(self.drop_records(scratch1, scratch2, res) as u32)
    }
}

// Finds the smallest script that shows a decline's number, with two scratch banks to play on, and gives its number of records.
#[tactic(auto, unfolding(crate::specs::Smallest::smallest_of), using(crate::proofs::SearchLaws::went_opened))]
pub fn smallest(
    g: Geometry,
    d: Device,
    one: &[u32],
    two: &[u32],
    sram: &[u32],
    scratch1: &mut [u32],
    scratch2: &mut [u32],
    script: &[u8],
    number: u32,
    res: &mut [u8],
) -> Result<u32, Decline>
    ensures { smallest_from result scratch1.new scratch2.new res.new
        ≡ smallest_of g sram.now (lent d one.entry two.entry) script.now number
        scratch1.old scratch2.old res.old }
{
    let trial = Trial {
        g,
        device: d,
        one,
        two,
        sram,
        number,
    };
    trial.unplayed_decline(script, scratch1.len(), scratch2.len(), res.len())?;
    let found = trial.search(scratch1, scratch2, script, res);
    trial.set_banks(scratch1, scratch2);
    found
}
