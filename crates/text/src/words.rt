// The words of a line, one at a time.
ghost use Rattle.std.specs.Prelude.{◌≡◌, ◌≤◌, length};
ghost use Rattle.std.specs.List.{prefix_len};
ghost use Rattle.text.specs.Words.{blank, differs, next_word, parts, Splits};

// How many blanks `line` starts with.
fn blanks(line: &[u8]) -> usize
    ensures is { result ≡ prefix_len blank line.now }
    ensures within { result ≤ length line.now }
{
    line.iter().take_while(|b| **b == b' ').count()
}

// How many bytes stand before the first `end`; all where there is none.
pub fn until(bytes: &[u8], end: u8) -> usize
    ensures is { result ≡ prefix_len (differs end) bytes.now }
    ensures within { result ≤ length bytes.now }
{
    bytes.iter().take_while(|b| **b != end).count()
}

// The first word of `line`, and what follows it; `None` where the line is blank.
pub fn next_word(line: &[u8]) -> Option<(&[u8], &[u8])>
    ensures is { parts result ≡ next_word line.now }
    ensures splits { Splits line.now (parts result) }
{
    let line = &line[blanks(line)..];
    if line.is_empty() {
        return None;
    }
    Some(line.split_at(until(line, b' ')))
}
