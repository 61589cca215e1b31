// The plan: the least wait by all windows.
ghost use Rattle.std.specs.Prelude.{◌≡◌, min};
ghost use Rattle.planner.specs.PlanLaws.{InRange};
ghost use Rattle.planner.specs.Windows.{window_count_of};
ghost use Rattle.planner.specs.Planner.{in_week, least_wait_of, planned_from, plan_of};

use crate::windows::{Window, in_range};
use words::decline::Decline;

// The smaller of two waits.
fn smaller(a: u32, b: u32) -> u32
    ensures { result ≡ min a b }
{
    if b < a {
        return b;
    }
    a
}

// The least wait by all windows, if one fits any.
fn least_wait(minute: u32, duration: u32, windows: &[u32]) -> Option<u32>
    requires { InRange minute duration windows.now }
    ensures { result ≡ in_week (least_wait_of minute duration windows.now (window_count_of windows.now)) }
{
    (0..windows.len() / 2)
        .filter_map(|i| Window::lent(windows, i).wait(minute, duration))
        .reduce(smaller)
}

// The smallest wait after which the minutes of a duration lie in one window. The windows are lent as start, length, start, length, ..
pub fn plan(minute: u32, duration: u32, windows: &[u32]) -> Result<u32, Decline>
    ensures { planned_from result ≡ plan_of minute duration windows.now }
{
    if !in_range(minute, duration, windows) {
        return Err(Decline::Hours);
    }
    least_wait(minute, duration, windows).ok_or(Decline::NoWait)
}
