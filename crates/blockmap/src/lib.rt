// The blocked rows of a track, one bit a row, and the top rows at which a placement is clear of them.
#![tactic(auto)]

ghost use Rattle.std.specs.Prelude.{◌≡◌, ◌&&◌, ◌||◌, true, false, ℕ, ◌+◌, ◌-◌, ◌≤◌, eqb, leb, length, replicate};
ghost use Rattle.board.specs.Job.{closes_row};
ghost use Rattle.blockmap.specs.Bits.{is_set};
ghost use Rattle.blockmap.specs.Clear.{all_unset, flag_tops};

use board::{Block, Row, Track};

// The blocked rows of one track: one bit a row, 64 rows to a word. Shift and mask set and test a row's bit, whose index is row − 1.
#[derive(Clone, Copy)]
pub struct BlockMap {
    pub words: [u64; 16],
}

// No row is blocked.
pub fn no_rows() -> BlockMap
    ensures { (result.words ≡ replicate 16 0) × ((k : ℕ) → is_set result.words k ≡ false) }
{
    let words = [0u64; 16];
    BlockMap { words }
}

// The map with one more blocked row.
pub fn with_row(map: BlockMap, row: Row) -> BlockMap
    requires { (1 ≤ row.0) × (row.0 ≤ 1024) }
    ensures { (k : ℕ) → is_set result.words k ≡ (eqb k row.0 || is_set map.words k) }
{
    let number = row.0;
    let at = number - 1;
    let w = at / 64;
    let mut next = map;
    let word = next.words[w];
    next.words[w] = word | (1u64 << (at % 64));
    next
}

// Whether a row is blocked.
pub fn is_blocked(words: &[u64; 16], row: Row) -> bool
    requires { (1 ≤ row.0) × (row.0 ≤ 1024) }
    ensures { result ≡ is_set words.now row.0 }
{
    let number = row.0;
    let at = number - 1;
    let w = at / 64;
    let word = words[w];
    (word >> (at % 64)) & 1 == 1
}

// The map with the rows of a block blocked, its first and its last row included.
pub fn with_rows_of(map: BlockMap, block: Block) -> BlockMap
    requires { (1 ≤ block.first.0) × (block.first.0 ≤ block.last.0) × (block.last.0 ≤ 1024) }
    ensures { (k : ℕ) → is_set result.words k ≡ (leb block.first.0 k && leb k block.last.0 || is_set map.words k) }
{
    let mut next = map;
    let first = block.first.0;
    let end = block.last.0 + 1;
    for row in first..end {
        next = with_row(next, Row(row));
    }
    next
}

// The map of a track with one more block: a block of another track leaves it as it is.
pub fn with_block_on(map: BlockMap, track: Track, block: Block) -> BlockMap
    requires { (1 ≤ block.first.0) × (block.first.0 ≤ block.last.0) × (block.last.0 ≤ 1024) }
    ensures { (k : ℕ) → is_set result.words k ≡ (closes_row block track.0 k || is_set map.words k) }
{
    if block.track.0 == track.0 {
        return with_rows_of(map, block);
    }
    map
}

// Flags each top row from `first` to `last` as `clear` says.
fn flag_all(clear: bool, first: Row, last: Row, flags: &mut [u8])
    requires { (1 ≤ first.0) × (first.0 ≤ last.0) × (last.0 ≤ 1025) × (last.0 ≤ length flags.old) }
    ensures { flags.new ≡ flag_tops (λ top. clear) first.0 (last.0 + 1 - first.0) flags.old }
{
    flags[first.0 - 1..last.0].fill(u8::from(clear));
}

// Flags the top rows from `first` to `last`: byte top − 1 becomes 1 if the `rows` rows from there on are clear, otherwise 0. Nested loops
// over tops and covered rows: a top row is given up as soon as one blocked row is met, by a labelled continue that leaves the inner scan
// for the next top. `known` is the row behind the placement found clear last, `blocked` the blocked row met last, 0 before the first: a scan
// begins at `known`, and a placement with its top at `blocked` or above covers it and is not scanned, so that no row is looked at twice. The
// flags of these tops are all 0 first, so that nothing is written for a top that is given up.
pub fn clear_tops(map: BlockMap, first: Row, last: Row, rows: usize, flags: &mut [u8])
    requires { (1 ≤ first.0) × (first.0 ≤ last.0) × (last.0 + rows ≤ 1025) × (last.0 ≤ length flags.old) }
    ensures { flags.new ≡ flag_tops (λ top. all_unset map.words top rows) first.0 (last.0 + 1 - first.0) flags.old }
{
    flag_all(false, first, last, flags);
    let start = first.0;
    let stop = last.0 + 1;
    let mut known = start;
    let mut blocked = 0;
    'tops: for top in start..stop {
        if top <= blocked {
            continue;
        }
        let index = top - 1;
        let end = top + rows;
        let from = known.max(top);
        for row in from..end {
            if is_blocked(&map.words, Row(row)) {
                blocked = row;
                continue 'tops;
            }
        }
        known = end;
        flags[index] = 1;
    }
}

// The same on a track without blocks, where no row is scanned: every top row from `first` to `last` is clear.
pub fn all_tops(first: Row, last: Row, flags: &mut [u8])
    requires { (1 ≤ first.0) × (first.0 ≤ last.0) × (last.0 ≤ 1024) × (last.0 ≤ length flags.old) }
    ensures { flags.new ≡ flag_tops (λ top. true) first.0 (last.0 + 1 - first.0) flags.old }
{
    flag_all(true, first, last, flags);
}
