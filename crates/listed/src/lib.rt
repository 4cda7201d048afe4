// Whether a record lists the rows of a window (document 02, Wish 6): one pass over the record marks each key of the window that a row has, found by
// halves, and then all must be marked. The record's order does not matter.
#![tactic(auto)]

ghost use Rattle.std.specs.Prelude.{◌≡◌, [], ◌∷◌, ◌≤◌, length};
ghost use Rattle.reach.specs.Reach.{row_in};
ghost use Rattle.listed.specs.Listed.{key_in, row_keys, all_in, Seen};

use reach::Row;
use row_window::sorted::Sorted;

// What no window has: every key is below it.
const NO_KEY: u64 = 9223372036854775808;

// The key of a row. A mask that is met has at most 12 bytes, and a kind is at most 4: other rows have none.
fn row_key(r: Row) -> u64
    ensures { result ≡ key_in (row_in r) }
{
    if 4 < r.kind {
        return NO_KEY;
    }
    if 15 < r.len {
        return NO_KEY;
    }
    let body = (r.kind as u64 * 256 + r.fd as u64) * 65536 + r.number as u64;
    (body * 4294967296 + r.offset as u64) * 16 + r.len as u64
}

// Marks a key, where the window has it.
fn see(window: &Sorted<'_>, key: u64, seen: &mut [u8])
    requires { length window.now.keys.now ≤ length seen.old }
    ensures { Seen window.now.keys.now (key ∷ []) seen.old seen.new }
{
    let i = row_window::first_at(window, key);
    if row_window::stands_at(window.keys, i, key) {
        seen[i] = 1;
    }
}

// Marks the key of each row of a record.
fn see_rows(window: &Sorted<'_>, rows: &[u8], seen: &mut [u8])
    requires { length window.now.keys.now ≤ length seen.old }
    ensures { Seen window.now.keys.now (row_keys rows.now) seen.old seen.new }
{
    for i in 0..rows.len() / 10 {
        let key = row_key(reach::row_at(rows, i));
        see(window, key, &mut *seen);
    }
}

// Whether each key of a window is that of a row of the record.
pub fn window_listed(window: &Sorted<'_>, rows: &[u8]) -> bool
    requires { length window.now.keys.now ≤ 65536 }
    ensures { result ≡ all_in (row_keys rows.now) window.now.keys.now }
{
    let n = window.keys.len();
    let mut seen = [0u8; 65536];
    see_rows(window, rows, &mut seen);
    !seen[..n].contains(&0)
}
