// The exported calls of the later requests: the comparison, garage hours, page sheet, byte lanes, what two images differ in.
ghost use Rattle.std.specs.Prelude.{◌≡◌, length};
ghost use Rattle.words.specs.Decline.{number_of};
ghost use Rattle.planner.specs.Planner.{plan_of};
ghost use Rattle.sheet.specs.Sheet.{page_sheet_of};
ghost use Rattle.lanes.specs.Lanes.{lanes_out_of, lanes_back_of, lanes_decline_of, target_of};
ghost use Rattle.sequence.specs.Comparison.{compare_of};
ghost use Rattle.reach.specs.Reach.{reach_of};
ghost use Rattle.yohrundel.specs.Answers.{compare_answer_of, plan_answer_of, reach_result_of, PageSheetGives};

use crate::answers::{CompareAnswer, PageSheetAnswer, PlanAnswer, ReachResult};
use device::record::Device;
use geometry::banks::Geometry;
use lanes::{lanes_back, lanes_out};
use planner::plan::plan;
use reach::{ReachAnswer, reach};
use sequence::comparison::compare;
use sheet::page_sheet;

// The bank that a reset would put lower by two sequence words, and why.
#[unsafe(no_mangle)]
pub extern "C" fn yohrundel_compare(first: u32, other: u32) -> CompareAnswer
    ensures { result ≡ compare_answer_of (compare_of first other) }
{
    let c = compare(first, other);
    CompareAnswer {
        bank: if c.second { 2 } else { 1 },
        reason: c.reason.number(),
    }
}

// The least wait until a garage's hours hold a whole update. The slice counts numbers, two for each window: what counts windows stands
// over it, in include/yohrundel.h and in the wrapper.
#[unsafe(no_mangle)]
pub extern "C" fn yohrundel_plan_numbers(minute: u32, duration: u32, windows: &[u32]) -> PlanAnswer
    ensures { result ≡ plan_answer_of (plan_of minute duration windows.now) }
{
    match plan(minute, duration, windows) {
        Ok(wait) => PlanAnswer { decline: 0, wait },
        Err(decline) => PlanAnswer {
            decline: decline.number(),
            wait: 0,
        },
    }
}

// Writes a line for each page of both banks into a buffer.
#[unsafe(no_mangle)]
pub extern "C" fn yohrundel_page_sheet_2(
    g: Geometry,
    d: Device,
    one: &[u32],
    two: &[u32],
    out: &mut [u8],
) -> PageSheetAnswer
    ensures { PageSheetGives (page_sheet_of g d one.now two.now out.old) result out.new }
{
    match page_sheet(g, d, one, two, out) {
        Ok(bytes) => PageSheetAnswer { decline: 0, bytes },
        Err(decline) => PageSheetAnswer {
            decline: decline.number(),
            bytes: 0,
        },
    }
}

#[unsafe(no_mangle)]
pub extern "C" fn yohrundel_lanes_out(source: &[u8], target: &mut [u8]) -> u32
    ensures { (result ≡ number_of (lanes_decline_of (length source.now) (length target.old)))
        × (target.new ≡ target_of lanes_out_of source.now target.old) }
{
    match lanes_out(source, target) {
        Ok(()) => 0,
        Err(decline) => decline.number(),
    }
}

#[unsafe(no_mangle)]
pub extern "C" fn yohrundel_lanes_back(source: &[u8], target: &mut [u8]) -> u32
    ensures { (result ≡ number_of (lanes_decline_of (length source.now) (length target.old)))
        × (target.new ≡ target_of lanes_back_of source.now target.old) }
{
    match lanes_back(source, target) {
        Ok(()) => 0,
        Err(decline) => decline.number(),
    }
}

// What two images differ in, and where they differ in one word the place of the action that differs.
#[unsafe(no_mangle)]
pub extern "C" fn yohrundel_reach(g: Geometry, image: &[u32], other: &[u32]) -> ReachResult
    ensures { result ≡ reach_result_of (reach_of g image.now other.now) }
{
    let none = ReachResult {
        decline: 0,
        kind: 3,
        place: 0,
        count: 0,
        lowest: 0,
        highest: 0,
    };
    let answer = match reach(g, image, other) {
        Ok(answer) => answer,
        Err(decline) => {
            return ReachResult {
                decline: decline.number(),
                ..none
            };
        }
    };
    let kind = answer.number();
    match answer {
        ReachAnswer::Action(place) => ReachResult {
            kind,
            place,
            ..none
        },
        ReachAnswer::NoAction => ReachResult { kind, ..none },
        ReachAnswer::Words(d) => ReachResult {
            kind,
            count: d.count,
            lowest: d.lowest,
            highest: d.highest,
            ..none
        },
    }
}
