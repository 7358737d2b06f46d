// A walk over four levels side by side: the least key leaves every level that has it, and the uppermost
// record with it decides. It lists a stretch of the live keys, of which the next live key is the first. Each level is entered at the
// slot of the first key, so that no key below it is looked at.
#![tactic(auto)]

ghost use Rattle.std.specs.Prelude.{◌≡◌, ◌∷◌, ◌+◌, ◌-◌, ◌%◌, ◌≤◌, ◌<◌, min, length, eqb, map, Option};
ghost use Rattle.levels.specs.Map.{unmarked, first_from, stretch};
ghost use Rattle.words.specs.Stores.{word};
ghost use Rattle.words.specs.Calls.{StretchAnswer, StretchOutcome, filled};
ghost use Rattle.chunks.specs.declared.Chunk.{Chunk};
ghost use Rattle.chunks.specs.Peel.{past, live_bit};
ghost use Rattle.directory.specs.Directory.{Formed, records_from};
ghost use Rattle.walk.specs.Walk.{Good, head_of, rest, FromKey, least_of, upper_of, Abreast, rests_of, Copies, AllFormed, SameLevels, layered, Entered, Ahead, Walked, kept_of, entered, following_of, KeyFits};

use chunks::Chunk;
use directory::Directory;

// Above every key: the next key of a level that is used up.
const END: usize = 4294967296;

// No record left of a chunk.
const NONE: Chunk = Chunk {
    marks: 0,
    keys: 0,
    pays: 0,
    count: 0,
};

// Four levels, the upper ones first.
pub type Levels = [Directory; 4];

// A level, and what is left of it: the rest of a chunk, the number of the chunk after it, and the next key.
#[derive(Clone, Copy)]
struct Cursor {
    dir: Directory,
    next: usize,
    chunk: Chunk,
    key: usize,
}

// Four levels side by side: what is left of the upper ones, and of the last.
#[derive(Clone, Copy)]
struct Front {
    upper: [Cursor; 3],
    last: Cursor,
}

// How many records of a stretch were written, and whether more of it follow.
#[derive(Clone, Copy)]
pub struct Listed {
    pub written: u32,
    pub more: bool,
}

// A level from its chunk `next` on. Inlined, as `advance` is, so that no cursor has to lie in memory.
#[inline(always)]
fn refill(s: &[u32], cur: &mut Cursor)
    requires { Formed cur.old.dir s.now × (cur.old.next ≤ cur.old.dir.chunks) }
    ensures { Good s.now cur.new × (rest s.now cur.new ≡ records_from s.now cur.old.dir cur.old.next (cur.old.dir.chunks - cur.old.next)) }
{
    let next = cur.next;
    if next < cur.dir.chunks {
        let chunk = directory::chunk_at(s, cur.dir, next);
        cur.next = next + 1;
        cur.chunk = chunk;
        cur.key = s[chunk.keys] as usize;
        return;
    }
    cur.chunk = NONE;
    cur.key = END;
}

// A level past its next record. This and the other parts of a turn of the walk are inlined before the compiler looks at them one by
// one: only then it takes four cursors for numbers, and not for places in memory. A record that has another behind it in its chunk comes
// first: with that, and `refill` inlined, the loop over a chunk takes two branches a record, where it took three (docs/SPEED.md).
#[inline(always)]
fn advance(s: &[u32], cur: &mut Cursor)
    requires { Good s.now cur.old × (cur.old.key < 4294967296) }
    ensures { Good s.now cur.new × (rest s.now cur.old ≡ head_of s.now cur.old.chunk ∷ rest s.now cur.new) }
{
    let chunk = cur.chunk;
    if 1 < chunk.count {
        let keys = chunk.keys + 1;
        cur.chunk = Chunk {
            marks: chunk.marks / 2,
            keys: keys,
            pays: chunk.pays + 1,
            count: chunk.count - 1,
        };
        cur.key = s[keys] as usize;
        return;
    }
    refill(s, cur);
}

// Past the next record, where its key is k.
#[inline(always)]
fn step(s: &[u32], cur: &mut Cursor, k: usize)
    requires { Good s.now cur.old × (k < 4294967296) }
    ensures { Good s.now cur.new × (rest s.now cur.new ≡ past k (rest s.now cur.old)) }
{
    if cur.key == k {
        advance(s, cur);
    }
}

// The same of each level.
#[inline(always)]
fn step_each(s: &[u32], front: &mut Front, k: usize)
    requires { Abreast s.now front.old × (k < 4294967296) }
    ensures { Abreast s.now front.new × (rests_of s.now front.new ≡ map (past k) (rests_of s.now front.old)) }
{
    for cur in &mut front.upper {
        step(s, cur, k);
    }
    step(s, &mut front.last, k);
}

// The least of some next keys and `stop`.
#[inline(always)]
fn least(upper: &[Cursor; 3], stop: usize) -> usize
    ensures { result ≡ least_of stop upper.now }
{
    upper.iter().fold(stop, |bound, cur| bound.min(cur.key))
}

// The chunk of the uppermost level whose next key is k; the last has it if no other has.
#[inline(always)]
fn upper(front: &Front, k: usize) -> Chunk
    ensures { result ≡ upper_of k front.now.upper front.now.last }
{
    for cur in &front.upper {
        if cur.key == k {
            return cur.chunk;
        }
    }
    front.last.chunk
}

// 1 if the first record of a chunk with this mark word is no tombstone.
fn live_bit(m: u32) -> usize
    ensures { result ≡ live_bit (eqb (m % 2) 1) }
{
    if m % 2 == 1 { 0 } else { 1 }
}

// A level from key q on: from its slot in the chunk that can have it, or from the chunk after that.
fn cursor_from(s: &[u32], dir: Directory, q: usize) -> Cursor
    requires { Formed dir s.now × (q ≤ 4294967296) }
    ensures { FromKey s.now dir q result }
{
    let mut cur = Cursor {
        dir: dir,
        next: 0,
        chunk: NONE,
        key: END,
    };
    if dir.chunks < 1 {
        return cur;
    }
    let i = search::seek_chunk(s, dir, q);
    let chunk = directory::chunk_at(s, dir, i);
    let slot = slices::count_below(s, chunk.keys, chunk.count, q);
    cur.next = i + 1;
    if chunk.count <= slot {
        refill(s, &mut cur);
        return cur;
    }
    let keys = chunk.keys + slot;
    cur.chunk = Chunk {
        marks: chunk.marks >> slot as u32,
        keys: keys,
        pays: chunk.pays + slot,
        count: chunk.count - slot,
    };
    cur.key = s[keys] as usize;
    cur
}

// The old value for a tombstone, else the new one.
fn kept(marks: u32, old: u32, new: u32) -> u32
    ensures { result ≡ kept_of (eqb (marks % 2) 1) old new }
{
    if marks % 2 == 1 { old } else { new }
}

// The first record of a chunk, whose key is given, as number n of those listed: if it is no tombstone it is written where both
// arrays have room for it, and counted. Tombstones come in no order that could be foreseen, so an entry is written for one too:
// with what it has.
fn list_one(
    s: &[u32],
    chunk: Chunk,
    key: usize,
    keys: &mut [u32],
    pays: &mut [u32],
    n: usize,
) -> usize
    requires { (key < 4294967296) × ((chunk.pays < length s.now) × ((length s.now ≤ 400000) × (n < 4294967296))) }
    ensures { (result ≡ n + live_bit (eqb (chunk.marks % 2) 1))
        × ((keys.new ≡ entered (eqb (chunk.marks % 2) 1) (min (length keys.old) (length pays.old)) n key keys.old)
        × (pays.new ≡ entered (eqb (chunk.marks % 2) 1) (min (length keys.old) (length pays.old)) n (word s.now chunk.pays) pays.old)) }
{
    let bit = live_bit(chunk.marks);
    if keys.len() <= n {
        return n + bit;
    }
    if pays.len() <= n {
        return n + bit;
    }
    keys[n] = kept(chunk.marks, keys[n], key as u32);
    pays[n] = kept(chunk.marks, pays[n], s[chunk.pays]);
    n + bit
}

// Past the records of a level whose keys are below the bound, and lists them from number n on, until an array is full. Answers
// how many are listed then.
#[inline(always)]
fn copy_below(
    s: &[u32],
    cur: &mut Cursor,
    bound: usize,
    keys: &mut [u32],
    pays: &mut [u32],
    n: usize,
) -> usize
    requires { Good s.now cur.old × ((bound ≤ 4294967296) × (n ≤ 65536)) }
    ensures { Copies s.now cur.old bound n keys.old pays.old cur.new result keys.new pays.new }
{
    let room = keys.len().min(pays.len());
    let mut at = *cur;
    let mut live = n;
    while (at.key < bound) & (live < room) {
        live = list_one(s, at.chunk, at.key, keys, pays, live);
        advance(s, &mut at);
    }
    *cur = at;
    live
}

// The walk: from four cursors on, the live records with keys below `stop`, in key order. They are counted; the first ones are
// written, as many as both arrays have room for. It may end early once it has counted more than `most`. The last level, which
// has most of the records, is gone over in runs up to the least key of the others.
fn walk_on(
    s: &[u32],
    from: Front,
    stop: usize,
    most: usize,
    keys: &mut [u32],
    pays: &mut [u32],
) -> usize
    requires { Ahead s.now from × (stop ≤ 4294967296) }
    ensures { Walked s.now from stop most keys.old pays.old result keys.new pays.new }
{
    let mut front = from;
    let mut n: usize = 0;
    loop {
        let bound = least(&front.upper, stop);
        n = copy_below(s, &mut front.last, bound, keys, pays, n);
        let k = bound.min(front.last.key);
        if stop <= k {
            return n;
        }
        if most < n {
            return n;
        }
        let chunk = upper(&front, k);
        n = list_one(s, chunk, k, keys, pays, n);
        step_each(s, &mut front, k);
    }
}

// The levels with the last one that has a chunk put last. A level with no chunk shows nothing wherever it stands.
fn deepest_last(levels: Levels) -> Levels
    ensures { SameLevels levels result }
{
    let [d0, d1, d2, d3] = levels;
    if d3.chunks != 0 {
        return levels;
    }
    if d2.chunks != 0 {
        return [d3, d0, d1, d2];
    }
    [d2, d3, d0, d1]
}

// Four levels from key q on.
fn enter(s: &[u32], levels: Levels, q: usize) -> Front
    requires { AllFormed s.now levels × (q ≤ 4294967296) }
    ensures { Entered s.now levels q result }
{
    let [d0, d1, d2, d3] = levels;
    Front {
        upper: [
            cursor_from(s, d0, q),
            cursor_from(s, d1, q),
            cursor_from(s, d2, q),
        ],
        last: cursor_from(s, d3, q),
    }
}

// The smallest live key of four levels at or above q, with its payload: a walk that lists one record.
pub fn next_from(s: &[u32], levels: Levels, q: usize) -> Option<(u32, u32)>
    requires { AllFormed s.now levels × (q ≤ 4294967296) }
    ensures { (result ≡ following_of (first_from q (unmarked (layered s.now levels)))) × KeyFits result }
{
    let from = enter(s, deepest_last(levels), q);
    let mut keys = [0u32; 1];
    let mut pays = [0u32; 1];
    let n = walk_on(s, from, END, 0, &mut keys, &mut pays);
    if n < 1 {
        return None;
    }
    Some((keys[0], pays[0]))
}

// The live records of four levels with keys from `first` to `last`, as many as both arrays have room for.
pub fn list_stretch(
    s: &[u32],
    levels: Levels,
    first: usize,
    last: usize,
    keys: &mut [u32],
    pays: &mut [u32],
) -> Listed
    requires { AllFormed s.now levels × ((first < 4294967296) × (last < 4294967296)) }
    ensures { (◌≡◌ {A = StretchOutcome StretchAnswer} (record { answer = record { reason = 0; written = result.written; more = result.more }; keys = keys.new; pays = pays.new })
        (filled (stretch first last (unmarked (layered s.now levels))) keys.old pays.old)) × (result.written ≤ 65536) }
{
    let room = keys.len().min(pays.len());
    let from = enter(s, deepest_last(levels), first);
    let n = walk_on(s, from, last + 1, room, keys, pays);
    Listed {
        written: n.min(room) as u32,
        more: room < n,
    }
}
