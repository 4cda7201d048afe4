// The counts of lines: two for each kind, and two for lines of no kind. They are plain numbers, for the report's definitions speak of one list of them.
ghost use Rattle.std.specs.Prelude.{◌+◌, ◌*◌, ◌≤◌, ◌≡◌, length, get_or};
ghost use Rattle.octets.specs.Lists.{before};
ghost use Rattle.cases.specs.Tally.{counted, earlier, Below};

// The row of the report in which a line is counted: by its letter, the one behind the kinds for any other. An empty line has 0 for its letter.
fn row_of(kinds: &[u8], line: &[u8]) -> usize
    ensures { (result ≡ before (get_or line.now 0 0) kinds.now) × (result ≤ length kinds.now) }
{
    hexlines::place_of(kinds, line.first().copied().unwrap_or(0))
}

// Counts a line: in its row, agreed stands before failed.
pub fn count_line(kinds: &[u8], line: &[u8], agreed: bool, counts: &mut [usize])
    requires { (2 * length kinds.now + 2 ≤ length counts.old) × Below 18446744073709551615 counts.old }
    ensures { counts.new ≡ counted kinds.now counts.old line.now agreed }
{
    let row = row_of(kinds, line);
    if agreed {
        let k = 2 * row;
        counts[k] += 1;
        return;
    }
    let k = 2 * row + 1;
    counts[k] += 1;
}

// The first line that failed, after one more line.
pub fn first_failed(first: Option<usize>, line: usize, agreed: bool) -> Option<usize>
    ensures { result ≡ earlier first line agreed }
{
    if agreed {
        return first;
    }
    first.or(Some(line))
}
