// Windows of the day: what goes with a question, question 27, and which lines are inside.
#![tactic(auto)]

ghost use Rattle.std.specs.Prelude.{◌≡◌, ◌&&◌, ◌<◌, ◌≤◌, ltb, leb};
ghost use Rattle.meaning.specs.Windows.{within as within_window, inside as inside_window, windows_allowed, plain};
ghost use Rattle.record.specs.Reading.{time_shown, written_shown};
ghost use Rattle.windows.specs.Promise.{windows_in, options_shown, open_of, close_of, options_of};

use record::Written;

// A window of the day: the second at which it opens and the one at which it closes.
#[derive(Clone, Copy, Debug, PartialEq, Eq)]
pub struct Window {
    pub opens: u32,
    pub closes: u32,
}

// What goes with a question: a window for each of the kinds 1 to 15, in their order.
#[derive(Clone, Copy, Debug, PartialEq, Eq)]
pub struct Options {
    pub windows: [Window; 15],
}

// The seconds of a day.
const DAY: u32 = 86400;

const WHOLE_DAY: Window = Window {
    opens: 0,
    closes: DAY,
};

// The whole day for every kind.
pub fn whole_day() -> Options
    ensures { options_shown result ≡ plain }
{
    Options {
        windows: [WHOLE_DAY; 15],
    }
}

impl Window {
    // Question 27: does it open before it closes, and close by the day's end?
    fn allowed(self) -> bool
        ensures { result ≡ (ltb self.opens self.closes && leb self.closes 86400) }
    {
        self.opens < self.closes && self.closes <= DAY
    }

    // Is a line inside by its time? An untimed line is inside the whole day only.
    fn within(self, time: Option<u32>) -> bool
        ensures { result ≡ within_window self.opens self.closes (time_shown time) }
    {
        match time {
            Some(t) => self.opens <= t && t < self.closes,
            None => self == WHOLE_DAY,
        }
    }
}

// Question 27 of the fifteen.
pub fn allowed(options: Options) -> bool
    ensures { result ≡ windows_allowed (options_shown options).windows }
{
    options.windows.iter().all(|w| w.allowed())
}

// Is a line inside its kind's window?
pub fn inside(w: Written, options: &Options) -> bool
    requires { (1 ≤ w.line.kind) × (w.line.kind ≤ 15) }
    ensures { result ≡ inside_window (windows_in options.now.windows) (written_shown w) }
{
    let k = usize::from(w.line.kind) - 1;
    options.windows[k].within(w.time)
}

// ---- options in a list of words

// The window of the kind after k others, by a list of words in which each kind has two, its opening and its closing second; the whole day
// where they are not both there.
fn window_of(words: &[u32], k: usize) -> Window
    requires { k < 15 }
    ensures { (result.opens ≡ open_of words.now k) × (result.closes ≡ close_of words.now k) }
{
    let at = 2 * k;
    if words.len() < at + 2 {
        return WHOLE_DAY;
    }
    Window {
        opens: words[at],
        closes: words[at + 1],
    }
}

// The options that a list of words says.
pub fn options_of(words: &[u32]) -> Options
    ensures { options_shown result ≡ options_of words.now }
{
    let mut windows = [WHOLE_DAY; 15];
    for (k, window) in windows.iter_mut().enumerate() {
        *window = window_of(words, k);
    }
    Options { windows }
}
