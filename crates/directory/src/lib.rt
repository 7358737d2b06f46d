// Directories: how to get the chunks of a level, one after the other, whether they are the pages of
// level 0 or the blocks that a place list names; and all rules of one level, in one pass.
#![tactic(auto)]

ghost use Rattle.std.specs.Prelude.{◌≡◌, ◌+◌, ◌-◌, ◌*◌, ◌≤◌, ◌<◌, length};
ghost use Rattle.directory.specs.Directory.{Within, chunk_at, page_of, block_of, kept_of, level_formed};

use chunks::Chunk;

// A level as numbers: whether it is level 0 (top), whether it is level h (bottom), the slots of a chunk
// (width), and how many chunks there are. In level 0 `list` is its first mark word, `base` its first key,
// `pays` its first payload and `records` its count; in a listed level `list` is the first entry of its
// place list, `base` the first word of place 0, and the last two are unused. No enum of the two: `width`, `chunks`,
// `list` and `base` would stand in both of its cases, and only `page_at` and `kept` read what one alone has.
#[derive(Clone, Copy)]
pub struct Directory {
    pub top: bool,
    pub bottom: bool,
    pub width: usize,
    pub chunks: usize,
    pub list: usize,
    pub base: usize,
    pub pays: usize,
    pub records: usize,
}

// Page i of level 0, with its mark word: full, but the last, which has the rest. No store, of any form, has more than 400,000 words.
pub fn page_at(marks: u32, dir: Directory, i: usize) -> Chunk
    requires { (dir.base + i * dir.width ≤ 400000) × ((dir.pays + i * dir.width ≤ 400000) × (i * dir.width ≤ dir.records)) }
    ensures { result ≡ page_of marks dir i }
{
    let past = i * dir.width;
    Chunk {
        marks,
        keys: dir.base + past,
        pays: dir.pays + past,
        count: (dir.records - past).min(dir.width),
    }
}

// The block whose words start at word `start`.
pub fn block_at(s: &[u32], width: usize, start: usize) -> Chunk
    requires { (start + (2 + 2 * width) ≤ length s.now) × (width ≤ 16) }
    ensures { result ≡ block_of s.now width start }
{
    Chunk {
        marks: s[start + 1],
        keys: start + 2,
        pays: start + 2 + width,
        count: s[start] as usize,
    }
}

// Page or block i of a level.
pub fn chunk_at(s: &[u32], dir: Directory, i: usize) -> Chunk
    requires { Within dir s.now × (i < dir.chunks) }
    ensures { result ≡ chunk_at s.now dir i }
{
    let x = s[dir.list + i];
    if dir.top {
        return page_at(x, dir, i);
    }
    let start = dir.base + (x as usize) * (2 + 2 * dir.width);
    block_at(s, dir.width, start)
}

// A chunk has 1 to `width` records, its unused slots are 0, one of the bottom level has no tombstones,
// and a block has with the one before it more than `width` records.
pub fn kept(s: &[u32], dir: Directory, chunk: Chunk, before: usize) -> bool
    requires { (before ≤ dir.width) × ((chunk.keys + dir.width ≤ length s.now) × ((chunk.pays + dir.width ≤ length s.now) × (dir.width ≤ 16))) }
    ensures { result ≡ kept_of s.now dir chunk before }
{
    let width = dir.width;
    let n = chunk.count;
    let k = chunk.keys;
    let v = chunk.pays;
    if n < 1 || width < n {
        return false;
    }
    if !dir.top & (before + n <= width) {
        return false;
    }
    if dir.bottom & (chunk.marks != 0) {
        return false;
    }
    chunks::zeros(s, k + n, width - n) && chunks::zeros(s, v + n, width - n)
}

// Every rule of one level. A first chunk counts as after a full one, so that it has no case of its own.
pub fn level_formed(s: &[u32], dir: Directory) -> bool
    requires { Within dir s.now }
    ensures { result ≡ level_formed s.now dir }
{
    let width = dir.width;
    let n = dir.chunks;
    let mut low: usize = 0;
    let mut before: usize = width;
    let mut total: usize = 0;
    for i in 0..n {
        let chunk = chunk_at(s, dir, i);
        if !kept(s, dir, chunk, before) {
            return false;
        }
        let Some(next) = chunks::rise_over(s, chunk, low) else {
            return false;
        };
        low = next;
        before = chunk.count;
        total += before;
    }
    if dir.top {
        return true;
    }
    !levels::is_wasteful(width, n, total)
}
