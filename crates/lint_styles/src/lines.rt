// The lines of a text.

ghost use Rattle.std.specs.Prelude.{◌≡◌, ◌<◌, ◌≤◌, ◌-◌, ◌^◌, length, take};
ghost use Rattle.lint_styles.specs.Styles.{behind_lines as behind, first_line as first, line_start as start_of_line, without_return as without};
ghost use Rattle.tac_lines.specs.Text.{column_after};

/// The column of the place behind these bytes.
pub fn column_of(before: &[u8]) -> usize
    requires { length before.now < 2 ^ 64 - 1 }
    ensures { result ≡ column_after before.now }
{
    let len = before.len();
    for back in 0..len {
        if before[len - 1 - back] == b'\n' {
            return back + 1;
        }
    }
    len + 1
}

/// What stands before a place of a text.
pub(crate) fn before_place(text: &[u8], place: u32) -> &[u8]
    ensures { result.now ≡ take place text.now }
{
    &text[..text.len().min(place as usize)]
}

/// Where the line begins in which the place behind these bytes lies.
pub(crate) fn line_start(before: &[u8]) -> usize
    requires { length before.now < 2 ^ 64 - 1 }
    ensures start { result ≡ start_of_line before.now }
    ensures within { result ≤ length before.now }
{
    before.len() + 1 - column_of(before)
}

/// The first line of a text, without its line feed.
pub fn first_line(text: &[u8]) -> &[u8]
    ensures { result.now ≡ first text.now }
{
    for (i, byte) in text.iter().enumerate() {
        if *byte == b'\n' {
            return &text[..i];
        }
    }
    text
}

/// What stands behind so many lines of a text.
pub fn behind_lines(text: &[u8], count: u32) -> &[u8]
    ensures { result.now ≡ behind count text.now }
{
    let mut left = count;
    for (i, byte) in text.iter().enumerate() {
        if left == 0 {
            return &text[i..];
        }
        if *byte == b'\n' {
            left -= 1;
        }
    }
    b""
}

/// A line without the carriage return at its end.
pub(crate) fn without_return(line: &[u8]) -> &[u8]
    ensures { result.now ≡ without line.now }
{
    let len = line.len();
    if 0 < len && line[len - 1] == b'\r' {
        &line[..len - 1]
    } else {
        line
    }
}
