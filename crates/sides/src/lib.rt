// What a side of a merge reads next: a record of a block or of a page of level 0, and whether its block may be reused.
#![tactic(auto)]

ghost use Rattle.std.specs.Prelude.{◌≡◌, true, false, ℕ, ◌+◌, ◌-◌, ◌*◌, ◌^◌, ◌%◌, ◌≤◌, ◌<◌, length, get_or, is_some};
ghost use Rattle.blocks.specs.Blocks.{Sized};
ghost use Rattle.blocks.specs.Room.{list_room};
ghost use Rattle.sides.specs.Sides.{block_chunk, page_chunk, chunk_of, Chunked, head_of, head_at, Readable, Searchable, last_size, whole_below, follows, follows_at, first};

use blocks::Offsets;

// Where the records of a block or of a page of level 0 stand: the index of its mark word, of its
// first key and of its first payload, how many it has, and the place of a block, which is listed. A page has none.
// The mark word's index, where chunks::Chunk has the word: a chunk is followed through the words as a merge writes them.
#[derive(Clone, Copy)]
pub struct Chunk {
    pub marks: usize,
    pub keys: usize,
    pub pays: usize,
    pub n: usize,
    pub place: Option<usize>,
}

// What a side of the merge reads next: the next record, and the block that it stands in, by its mark word, the indices of its
// first key and payload and its count. `place` is the block's place, whichever of its records comes; a page has none. `whole` is that
// place again, if the record starts the block, which may then be reused; None at a later record.
#[derive(Clone, Copy)]
pub struct Head {
    pub key: u32,
    pub tombstone: u32,
    pub pay: u32,
    pub marks: u32,
    pub keys: usize,
    pub pays: usize,
    pub n: usize,
    pub place: Option<usize>,
    pub whole: Option<usize>,
}

// The block at place q.
pub fn block_chunk(s: &[u32], z: Offsets, q: usize) -> Chunk
    requires { Sized z s.now × (q < z.p) }
    ensures { result ≡ block_chunk z s.now q }
{
    let at = blocks::place_start(z, q);
    let b = z.b;
    let n = slices::word(s, at);
    Chunk {
        marks: at + 1,
        keys: at + 2,
        pays: at + 2 + b,
        n: n,
        place: Some(q),
    }
}

// Page i of level 0. It is full: level 0 is merged only when it has no room. A million is more than any offset.
fn page_chunk(z: Offsets, i: usize) -> Chunk
    requires { (z.marks + i ≤ 1000000) × (z.keys + i * z.b ≤ 1000000) × (z.pays + i * z.b ≤ 1000000) }
    ensures { result ≡ page_chunk z i }
{
    let b = z.b;
    Chunk {
        marks: z.marks + i,
        keys: z.keys + i * b,
        pays: z.pays + i * b,
        n: b,
        place: None,
    }
}

// Chunk i of a side: a page of level 0, or the block at the list's i-th place. A flag beside the list, and no enum that holds it: a merge
// lends both lists whatever X is, and of pages the list is not read.
fn chunk_at(s: &[u32], z: Offsets, pages: bool, list: &[u32; blocks::LIST_ROOM], i: usize) -> Chunk
    requires { Chunked z pages s.now list.now i }
    ensures { result ≡ chunk_of z pages s.now list.now i }
{
    if pages {
        return page_chunk(z, i);
    }
    let q = list[i] as usize;
    block_chunk(s, z, q)
}

// Record j of a chunk.
pub fn head_at(s: &[u32], chunk: Chunk, j: usize) -> Head
    requires { (chunk.marks < length s.now) × (chunk.keys + chunk.n ≤ length s.now) × (chunk.pays + chunk.n ≤ length s.now) × (j < chunk.n) × (chunk.n ≤ 16) }
    ensures { result ≡ head_at s.now chunk j }
{
    let n = chunk.n;
    let ma = chunk.marks;
    let ka = chunk.keys;
    let va = chunk.pays;
    let m = s[ma];
    let k = s[ka + j];
    let v = s[va + j];
    let whole = if j == 0 { chunk.place } else { None };
    Head {
        key: k,
        tombstone: (m >> j) % 2,
        pay: v,
        marks: m,
        keys: ka,
        pays: va,
        n: n,
        place: chunk.place,
        whole: whole,
    }
}

// The next record of a side: chunk i of it, record j. None: the side is used up.
pub fn peek(
    s: &[u32],
    z: Offsets,
    pages: bool,
    list: &[u32; blocks::LIST_ROOM],
    i: usize,
    j: usize,
    end: usize,
) -> Option<Head>
    requires { Readable z pages s.now list.now i j end }
    ensures { result ≡ head_of z pages s.now list.now i j end }
{
    if end <= i {
        return None;
    }
    let chunk = chunk_at(s, z, pages, list, i);
    Some(head_at(s, chunk, j))
}

// The size of the last block of the list so far; B where there is none.
pub fn last_size(s: &[u32], z: Offsets, out: &[u32; blocks::LIST_ROOM], m: usize) -> usize
    requires { Sized z s.now × (m ≤ list_room) × ((i : ℕ) → i < m → get_or out.now i 0 < z.p) }
    ensures { result ≡ last_size z s.now out.now m }
{
    if m == 0 {
        return z.b;
    }
    let q = out[m - 1] as usize;
    let at = blocks::place_start(z, q);
    slices::word(s, at)
}

// The next record of a comes before that of the other side.
pub fn before(a: Option<Head>, other: Option<Head>) -> bool
    ensures { result ≡ first a other }
{
    match (a, other) {
        (Some(a), Some(b)) => a.key < b.key,
        (Some(_), None) => true,
        (None, _) => false,
    }
}

// a starts a listed block that ends below the other's next key: all its keys are below it.
fn whole_below(s: &[u32], a: Head, other: Option<Head>) -> bool
    requires { is_some a.whole ≡ true → Searchable s.now a }
    ensures { result ≡ whole_below s.now a other }
{
    if a.whole.is_none() {
        return false;
    }
    let Some(b) = other else {
        return true;
    };
    let n = a.n;
    slices::count_below(s, a.keys, n, b.key as usize) == n
}

// a's block may follow as it stands: the buffer has n records, the last block e.
fn may_follow(
    s: &[u32],
    z: Offsets,
    bottom: bool,
    a: Head,
    other: Option<Head>,
    n: usize,
    e: usize,
) -> bool
    requires { (z.b ≤ 16) × (a.n ≤ 16) × (n ≤ 16) × (e < 2 ^ 32) × (is_some a.whole ≡ true → Searchable s.now a) }
    ensures { result ≡ follows z bottom s.now a other n e }
{
    let cap = z.b;
    let size = a.n;
    let below = whole_below(s, a, other);
    let clean = !(bottom & !(a.marks == 0));
    if n == 0 {
        return below & (clean & (cap < e + size));
    }
    below & (clean & ((cap < n + size) & (cap < e + n)))
}

// The place of a's block, where it may follow as it stands.
pub fn reusable(
    s: &[u32],
    z: Offsets,
    bottom: bool,
    a: Head,
    other: Option<Head>,
    n: usize,
    e: usize,
) -> Option<usize>
    requires { (z.b ≤ 16) × (a.n ≤ 16) × (n ≤ 16) × (e < 2 ^ 32) × (is_some a.whole ≡ true → Searchable s.now a) }
    ensures { result ≡ follows_at z bottom s.now a other n e }
{
    if may_follow(s, z, bottom, a, other, n, e) {
        a.whole
    } else {
        None
    }
}
