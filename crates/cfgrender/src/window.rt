//! The window on a line that is shown.

ghost use Rattle.std.specs.Prelude.{◌≡◌, ◌-◌, ◌≤◌, length};
ghost use Rattle.std.specs.Fmt.{take_chars};
ghost use Rattle.std.specs.Str.{IsCharBoundary};
ghost use Rattle.cfgrender.specs.Render.{characters, window_end, window_start};

use cfglines::positions::begins_character;

/// A line of more characters is cut to a window of so many.
const WIDTH: usize = 160;

/// A window begins so many characters before its span.
const LEAD: usize = 40;

/// Where the window on a line starts and ends, for a span that starts at this offset of the line.
pub(crate) fn window(line: &str, start: usize) -> (usize, usize)
    requires { IsCharBoundary line.now start }
    ensures value { result ≡ (window_start line.now start, window_end line.now start) }
    ensures ordered { result.0 ≤ result.1 }
    ensures before { result.0 ≤ start }
    ensures begins { IsCharBoundary line.now result.0 }
    ensures ends { IsCharBoundary line.now result.1 }
{
    let first = window_start(line, start);
    (first, first + characters_len(&line[first..], WIDTH))
}

/// Where that window starts.
fn window_start(line: &str, start: usize) -> usize
    requires { IsCharBoundary line.now start }
    ensures value { result ≡ window_start line.now start }
    ensures begins { IsCharBoundary line.now result }
{
    if characters_len(line, WIDTH) == line.len() {
        0
    } else {
        last_start(&line[..start], LEAD)
    }
}

/// How many bytes the first `count` characters have.
fn characters_len(text: &str, count: usize) -> usize
    ensures { result ≡ length (take_chars count text.now) }
{
    let bytes = text.as_bytes();
    let mut left = count;
    for (index, byte) in bytes.iter().enumerate() {
        if begins_character(*byte) {
            if left == 0 {
                return index;
            }
            left -= 1;
        }
    }
    bytes.len()
}

/// Where the last `count` characters start.
fn last_start(text: &str, count: usize) -> usize
    ensures { result ≡ length (take_chars (characters text.now - count) text.now) }
{
    let bytes = text.as_bytes();
    let mut start = bytes.len();
    let mut left = count;
    while start > 0 && left > 0 {
        start -= 1;
        if begins_character(bytes[start]) {
            left -= 1;
        }
    }
    start
}
