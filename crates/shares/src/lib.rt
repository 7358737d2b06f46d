// The number of live keys, level by level: of each level the records that are no tombstones and whose key stands in no level above.
// Which records a level above hides is found from the keys, sixteen at a time: the chunk that can have a key by comparing it with
// the chunks' first keys, which are gone over once; in that chunk all slots are compared. Where the keys of two levels interleave,
// no branch hangs on how two keys compare, for which way it would go cannot be foreseen. No levels are merged.
#![tactic(auto)]

ghost use Rattle.std.specs.Prelude.{◌≡◌, ◌∷◌, [], ℕ, ◌+◌, ◌-◌, ◌*◌, ◌≤◌, ◌<◌, ltb, length, get_or, take, drop};
ghost use Rattle.slices.specs.Ranks.{among};
ghost use Rattle.levels.specs.Map.{unmarked};
ghost use Rattle.words.specs.Stores.{word, keys_of};
ghost use Rattle.chunks.specs.Chunks.{chunk_recs};
ghost use Rattle.directory.specs.Directory.{Formed, records_of};
ghost use Rattle.walk.specs.Walk.{AllFormed, layered};
ghost use Rattle.shares.specs.Shares.{hide};
ghost use Rattle.shares.specs.Shadow.{bit_if, known_in, number, shadow, keys_in, Started, hide_all, Within, is_within, Asked, Begun, Ended, Seated, ChunkSeated};

use chunks::Chunk;
use directory::Directory;
use walk::Levels;

// The seats of sixteen keys in a level, each the only chunk that can have the key: as many before chunk `end` as `above` says.
#[derive(Clone, Copy)]
struct Seats {
    end: usize,
    above: [u32; 16],
}

// Which keys of a chunk a level has: bit l + 1 for key l. And where the search for later keys goes on.
#[derive(Clone, Copy)]
struct Met {
    end: usize,
    bits: u32,
}

// Up to so many chunks a level: small stores have short arrays, which are filled sooner.
const FEW: usize = 64;

// The most chunks that a level may have.
const MOST: usize = 1024;

// A number where something holds, else 0.
fn bit_if(holds: bool, bit: u32) -> u32
    ensures { result ≡ bit_if holds bit }
{
    if holds { bit } else { 0 }
}

// Which of the n words from word `at` on are x: bit k + 1 for word k. With a shift for each of sixteen words, and none that is
// left out, the compiler makes vectors of them.
fn bits_of(s: &[u32], at: usize, n: usize, x: u32) -> u32
    requires { (at + n ≤ length s.now) × (n ≤ 16) }
    ensures { result ≡ 2 * number (known_in (x ∷ []) (take n (drop at s.now))) }
{
    let mut bits: u32 = 0;
    for k in 0..n {
        bits = bits | bit_if(x == s[at + k], 2 << k as u32);
    }
    bits
}

// The same. Only a loop that is known to go to sixteen becomes vectors, so a block of sixteen slots has a call of its own.
fn slots_with(s: &[u32], at: usize, n: usize, x: u32) -> u32
    requires { (at + n ≤ length s.now) × (n ≤ 16) }
    ensures { result ≡ 2 * number (known_in (x ∷ []) (take n (drop at s.now))) }
{
    if n == 16 {
        return bits_of(s, at, 16, x);
    }
    bits_of(s, at, n, x)
}

// The keys of a chunk of `width` slots. Of sixteen slots all are copied, used or not, for the same reason; what stands behind the
// count is not looked at.
fn load(s: &[u32], chunk: Chunk, width: usize, keys: &mut [u32; 16])
    requires { Asked s.now chunk width }
    ensures { (l : ℕ) → l < chunk.count → get_or keys.new l 0 ≡ word s.now (chunk.keys + l) }
{
    let at = chunk.keys;
    if width == 16 {
        slices::copy(s, at, 16, keys, 0);
        return;
    }
    slices::copy(s, at, chunk.count, keys, 0);
}

// One more fence, the first key f of a chunk: it is counted for each of the sixteen keys that it is above.
fn pass_fence(keys: &[u32; 16], f: u32, above: &mut [u32; 16])
    requires { (length above.old ≡ 16) × ((l : ℕ) → l < 16 → get_or above.old l 0 ≤ 1024) }
    ensures { (length above.new ≡ 16) × ((l : ℕ) → l < 16 → get_or above.new l 0 ≡ get_or above.old l 0 + bit_if (ltb (get_or keys.now l 0) f) 1) }
{
    for l in 0..16 {
        above[l] = above[l] + bit_if(keys[l] < f, 1);
    }
}

// The seats of sixteen keys, none above `last`, among the chunks of a level from chunk `from` on.
fn fences(
    s: &[u32],
    dir: Directory,
    starts: &[u32],
    keys: &[u32; 16],
    last: u32,
    from: usize,
) -> Seats
    requires { Formed dir s.now × (Started s.now dir starts.now × (from < dir.chunks)) }
    ensures { Seated s.now dir keys.now last from result }
{
    let mut above = [0u32; 16];
    let end = dir.chunks - 1;
    for t in from..end {
        let k = slices::word(starts, t + 1);
        let f = s[k];
        if last < f {
            return Seats {
                end: t,
                above: above,
            };
        }
        pass_fence(keys, f, &mut above);
    }
    Seats {
        end: end,
        above: above,
    }
}

// The seats of the keys of a chunk of `width` slots among the chunks of a level from chunk `from` on.
fn seat_chunk(
    s: &[u32],
    chunk: Chunk,
    width: usize,
    dir: Directory,
    starts: &[u32],
    from: usize,
) -> Seats
    requires { Formed dir s.now × (Started s.now dir starts.now × (Asked s.now chunk width × Begun s.now dir from chunk)) }
    ensures { ChunkSeated s.now dir chunk result }
{
    let at = chunk.keys;
    let count = chunk.count;
    let last = s[at + (count - 1)];
    let mut keys = [0u32; 16];
    load(s, chunk, width, &mut keys);
    fences(s, dir, starts, &keys, last, from)
}

// Hides the records of a level whose key a chunk above it has. Answers where the search for later keys goes on.
fn hide_chunk(
    s: &[u32],
    chunk: Chunk,
    width: usize,
    low: Directory,
    starts: &[u32],
    from: usize,
    gone: &mut [u32],
) -> usize
    requires { Formed low s.now × (Started s.now low starts.now × (Asked s.now chunk width × (Begun s.now low from chunk × (low.chunks ≤ length gone.old)))) }
    ensures { (shadow s.now low gone.new ≡ hide (keys_of (chunk_recs s.now chunk)) (shadow s.now low gone.old))
        × Ended s.now low result chunk }
{
    let seats = seat_chunk(s, chunk, width, low, starts, from);
    let end = seats.end;
    let at = chunk.keys;
    let count = chunk.count;
    for l in 0..count {
        let p = end - seats.above[l] as usize;
        let start = slices::word(starts, p);
        let x = s[at + l];
        gone[p] = gone[p] | slots_with(s, start, low.width, x);
    }
    end
}

// Hides the records of a level whose key a level above has, key by key of the upper one. A level's chunks stand in no row: here and
// in the other loops over a level `chunk_at` reads each by its number, and an iterator over them would be a type that does the same.
fn hide_by(s: &[u32], up: Directory, low: Directory, starts: &[u32], gone: &mut [u32])
    requires { Formed up s.now × (Formed low s.now × (Started s.now low starts.now × ((1 ≤ low.chunks) × (low.chunks ≤ length gone.old)))) }
    ensures { shadow s.now low gone.new ≡ hide (keys_in s.now up) (shadow s.now low gone.old) }
{
    let n = up.chunks;
    let mut t: usize = 0;
    for i in 0..n {
        let chunk = directory::chunk_at(s, up, i);
        t = hide_chunk(s, chunk, up.width, low, starts, t, gone);
    }
}

// Whether a chunk of `width` slots has key x. Unused slots are 0, which may be a key: the count says which slots are used.
fn has(s: &[u32], chunk: Chunk, width: usize, x: u32) -> bool
    requires { Asked s.now chunk width }
    ensures { result ≡ among x (keys_of (chunk_recs s.now chunk)) }
{
    let count = chunk.count;
    let found = slots_with(s, chunk.keys, width, x);
    let used: u32 = 2 << count as u32;
    0 < found % used
}

// Which keys of a chunk a level above it has.
fn meet_chunk(
    s: &[u32],
    chunk: Chunk,
    width: usize,
    up: Directory,
    starts: &[u32],
    from: usize,
) -> Met
    requires { Formed up s.now × (Started s.now up starts.now × (Asked s.now chunk width × Begun s.now up from chunk)) }
    ensures { (result.bits ≡ 2 * number (known_in (keys_in s.now up) (keys_of (chunk_recs s.now chunk)))) × Ended s.now up result.end chunk }
{
    let seats = seat_chunk(s, chunk, width, up, starts, from);
    let end = seats.end;
    let at = chunk.keys;
    let count = chunk.count;
    let slots = up.width;
    let mut bits: u32 = 0;
    for l in 0..count {
        let p = end - seats.above[l] as usize;
        let block = directory::chunk_at(s, up, p);
        let x = s[at + l];
        bits = bits | bit_if(has(s, block, slots, x), 2 << l as u32);
    }
    Met {
        end: end,
        bits: bits,
    }
}

// Hides the records of a level whose key a level above has, key by key of the lower one.
fn hide_met(s: &[u32], up: Directory, low: Directory, gone: &mut [u32])
    requires { Formed up s.now × (Formed low s.now × ((1 ≤ up.chunks) × (low.chunks ≤ length gone.old))) }
    ensures { shadow s.now low gone.new ≡ hide (keys_in s.now up) (shadow s.now low gone.old) }
{
    let n = low.chunks;
    let mut starts = [0u32; MOST];
    let mut marks = [0u32; MOST];
    begin(s, up, &mut starts, &mut marks);
    let mut t: usize = 0;
    for i in 0..n {
        let chunk = directory::chunk_at(s, low, i);
        let met = meet_chunk(s, chunk, low.width, up, &starts, t);
        gone[i] = gone[i] | met.bits;
        t = met.end;
    }
}

// Hides the records of a level whose key a level above has. The level of fewer chunks is gone over key by key.
fn hide_under(s: &[u32], up: Directory, low: Directory, starts: &[u32], gone: &mut [u32])
    requires { Formed up s.now × (Formed low s.now × (Started s.now low starts.now × (low.chunks ≤ length gone.old))) }
    ensures { shadow s.now low gone.new ≡ hide (keys_in s.now up) (shadow s.now low gone.old) }
{
    let m = up.chunks;
    let n = low.chunks;
    if m < 1 {
        return;
    }
    if n < 1 {
        return;
    }
    if n < m {
        hide_met(s, up, low, gone);
        return;
    }
    hide_by(s, up, low, starts, gone);
}

// A level with nothing hidden but its tombstones, and where the keys of its chunks start. No chunk has more than sixteen records,
// so mark bits from 16 on mean nothing.
fn begin(s: &[u32], dir: Directory, starts: &mut [u32], gone: &mut [u32])
    requires { Formed dir s.now × ((dir.chunks ≤ length starts.old) × (dir.chunks ≤ length gone.old)) }
    ensures { (shadow s.now dir gone.new ≡ records_of s.now dir) × Started s.now dir starts.new }
{
    let n = dir.chunks;
    for i in 0..n {
        let chunk = directory::chunk_at(s, dir, i);
        starts[i] = chunk.keys as u32;
        gone[i] = chunk.marks % 65536 * 2;
    }
}

// How many records of a level show: of each chunk, as many as it has but for those whose bit is set.
fn shown(s: &[u32], dir: Directory, gone: &[u32]) -> usize
    requires { Formed dir s.now × (dir.chunks ≤ length gone.now) }
    ensures { (result ≡ length (unmarked (shadow s.now dir gone.now))) × (result ≤ 16384) }
{
    let n = dir.chunks;
    let mut total: usize = 0;
    for i in 0..n {
        let chunk = directory::chunk_at(s, dir, i);
        let count = chunk.count;
        let used: u32 = 1 << count as u32;
        total += count - (gone[i] / 2 % used).count_ones() as usize;
    }
    total
}

// A level under those above it, the upper ones first.
fn under(s: &[u32], above: &[Directory], low: Directory, starts: &mut [u32], gone: &mut [u32])
    requires { AllFormed s.now above.now × (Formed low s.now × ((low.chunks ≤ length starts.old) × (low.chunks ≤ length gone.old))) }
    ensures { shadow s.now low gone.new ≡ hide_all s.now above.now (records_of s.now low) }
{
    begin(s, low, starts, gone);
    for up in above {
        hide_under(s, *up, low, starts, gone);
    }
}

// What four levels show, each under those above it, in arrays that have room for their chunks. A level with no chunk shows
// nothing: the smallest stores have two of them, and notice each call.
fn count(s: &[u32], levels: Levels, starts: &mut [u32], gone: &mut [u32]) -> usize
    requires { AllFormed s.now levels × (Within levels (length starts.old) × Within levels (length gone.old)) }
    ensures { result ≡ length (unmarked (layered s.now levels)) }
{
    let mut total: usize = 0;
    for (i, low) in levels.iter().enumerate() {
        if low.chunks > 0 {
            under(s, &levels[..i], *low, starts, gone);
            total += shown(s, *low, gone);
        }
    }
    total
}

// Whether all levels have at most n chunks.
fn is_within(levels: &Levels, n: usize) -> bool
    ensures { result ≡ is_within levels.now n }
{
    levels.iter().all(|level| level.chunks <= n)
}

// The number of live keys of four levels.
pub fn live(s: &[u32], levels: Levels) -> usize
    requires { AllFormed s.now levels }
    ensures { result ≡ length (unmarked (layered s.now levels)) }
{
    if is_within(&levels, FEW) {
        let mut starts = [0u32; FEW];
        let mut gone = [0u32; FEW];
        return count(s, levels, &mut starts, &mut gone);
    }
    let mut starts = [0u32; MOST];
    let mut gone = [0u32; MOST];
    count(s, levels, &mut starts, &mut gone)
}
