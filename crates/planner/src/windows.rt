// Windows of the week, and decline 15: whether the numbers of a plan are in range.
ghost use Rattle.std.specs.Prelude.{◌≡◌, ◌+◌, ◌*◌, ◌≤◌, ◌<◌, length};
ghost use Rattle.planner.specs.Windows.{week, window_at, window_in_range_of, numbers_in_range_of, in_range_of};
ghost use Rattle.words.specs.Word.{first_from};
ghost use Rattle.planner.specs.Planner.{fits_in_of, in_week};

// The minutes of a week.
pub const WEEK: u32 = 10080;

const LONGEST_DURATION: u32 = 1440;

const MOST_WINDOWS: usize = 14;

// A start minute and a length.
#[derive(Clone, Copy, PartialEq, Eq)]
pub struct Window {
    pub start: u32,
    pub length: u32,
}

impl Window {
    // Window i of those that are lent as start, length, start, length, ..
    pub fn lent(windows: &[u32], i: usize) -> Window
        requires { 2 * i + 2 ≤ length windows.now }
        ensures { result ≡ window_at windows.now i }
    {
        Window {
            start: windows[2 * i],
            length: windows[2 * i + 1],
        }
    }

    // Whether both numbers of the window are in range.
    #[tactic(auto, unfolding(crate::specs::Windows::window_in_range_of))]
    pub fn is_in_range(self) -> bool
        ensures { result ≡ window_in_range_of self }
    {
        self.start < WEEK && 1 <= self.length && self.length <= WEEK
    }

    // The least wait for the window, if one fits: it is entered at once, or at its next first minute.
    // No call of the planner: plan judges the ranges first.
    pub fn wait(self, minute: u32, duration: u32) -> Option<u32>
        requires minute_lt_week { (minute < week) × (1 ≤ duration) × (duration ≤ 1440) }
        requires start_lt_week { (self.start < week) × (self.length ≤ week) }
        ensures { result ≡ in_week (first_from (fits_in_of minute duration self) 0 week) }
    {
        if self.length == WEEK {
            return Some(0);
        }
        if self.length < duration {
            return None;
        }
        // Counted from the start: the present minute, and the last of the minutes where there is no wait.
        let first = (minute + (WEEK - self.start)) % WEEK;
        let last = first + (duration - 1);
        if last < self.length {
            return Some(0);
        }
        Some(WEEK - first)
    }
}

// Whether the present minute, the duration and the count of windows are in range, where so many numbers are lent for the windows.
#[tactic(auto, unfolding(crate::specs::Windows::numbers_in_range_of))]
pub fn numbers_in_range(minute: u32, duration: u32, numbers: usize) -> bool
    ensures { result ≡ numbers_in_range_of minute duration numbers }
{
    minute < WEEK
        && 1 <= duration
        && duration <= LONGEST_DURATION
        && numbers % 2 == 0
        && 1 <= numbers / 2
        && numbers / 2 <= MOST_WINDOWS
}

// Whether all numbers of a plan are in range.
#[tactic(auto, unfolding(crate::specs::Windows::in_range_of))]
pub fn in_range(minute: u32, duration: u32, windows: &[u32]) -> bool
    ensures { result ≡ in_range_of minute duration windows.now }
{
    numbers_in_range(minute, duration, windows.len())
        && (0..windows.len() / 2).all(|i| Window::lent(windows, i).is_in_range())
}
