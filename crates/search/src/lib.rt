// Searches in one level: the only chunk that can have a key; the record with a key; the chunk whose keys enclose a key. In a
// chunk `slices::rank_of` finds the key.
#![tactic(auto)]

ghost use Rattle.std.specs.Prelude.{◌≡◌, ◌≤◌};
ghost use Rattle.levels.specs.Map.{find};
ghost use Rattle.directory.specs.Directory.{Formed, records_of};
ghost use Rattle.search.specs.Search.{Sought, found_of, enclosed_of};

use directory::Directory;

// What a level has for a key: a tombstone or not, with its payload.
#[derive(Clone, Copy)]
pub struct Held {
    pub mark: bool,
    pub pay: u32,
}

// The last chunk whose first key is not above k, or the first chunk: the only one that can have k. Halved by hand, for
// the library halves slices, and these keys do not stand in one.
pub fn seek_chunk(s: &[u32], dir: Directory, k: usize) -> usize
    requires { Formed dir s.now × (1 ≤ dir.chunks) }
    ensures { Sought s.now dir k result }
{
    let mut lo: usize = 0;
    let mut hi = dir.chunks;
    while lo + 1 < hi {
        let mid = lo + (hi - lo) / 2;
        let chunk = directory::chunk_at(s, dir, mid);
        let at = chunk.keys;
        let first = slices::word(s, at);
        if first <= k {
            lo = mid;
        } else {
            hi = mid;
        }
    }
    lo
}

// The record with key k in a level.
pub fn find_in(s: &[u32], dir: Directory, k: usize) -> Option<Held>
    requires { Formed dir s.now × (k ≤ 4294967296) }
    ensures { result ≡ found_of (find k (records_of s.now dir)) }
{
    if dir.chunks == 0 {
        return None;
    }
    let i = seek_chunk(s, dir, k);
    let chunk = directory::chunk_at(s, dir, i);
    let Ok(j) = slices::rank_of(s, chunk.keys, chunk.count, k) else {
        return None;
    };
    Some(Held {
        mark: (chunk.marks >> (j as u32)) % 2 == 1,
        pay: s[chunk.pays + j],
    })
}

// The number of the chunk of a level whose first to last key encloses k.
pub fn enclosing(s: &[u32], dir: Directory, k: usize) -> Option<usize>
    requires { Formed dir s.now × (k ≤ 4294967296) }
    ensures { result ≡ enclosed_of s.now dir k }
{
    if dir.chunks == 0 {
        return None;
    }
    let i = seek_chunk(s, dir, k);
    let chunk = directory::chunk_at(s, dir, i);
    let first = slices::word(s, chunk.keys);
    let below = slices::count_below(s, chunk.keys, chunk.count, k);
    // The first key is not above k, and the last one not below it.
    let held = (first <= k) & (below < chunk.count);
    if held {
        return Some(i);
    }
    None
}
