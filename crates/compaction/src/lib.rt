// Step 5 of a merge: whether a level needs compacting, and all its records written anew.
#![tactic(auto)]

ghost use Rattle.std.specs.Prelude.{◌≡◌, map, ℕ, ◌<◌, length, get_or};
ghost use Rattle.levels.specs.Waste.{needs_compact};
ghost use Rattle.levels.specs.Waste as waste;
ghost use Rattle.levels.specs.Place.{Allocation, settle};
ghost use Rattle.words.specs.Stores.{block_at};
ghost use Rattle.blocks.specs.Blocks.{Marks};
ghost use Rattle.stream.specs.Machine.{memory};
ghost use Rattle.merging.specs.Contract.{Leaves};
ghost use Rattle.compaction.specs.Machine.{chunk_gathered, blocks_gathered, Gathering, record_sum, Summable, Countable, Compactable};

use blocks::Offsets;
use layout::Layout;
use merging::Merged;
use stream::{Desk, Progress};

// The records of the block at place q, into the buffer. A block that is written takes a free place,
// so the block that is read keeps its words.
fn gather_chunk(s: &mut [u32], desk: &mut Desk, z: Offsets, q: usize)
    requires { Gathering z q (memory s.old desk.old) }
    ensures { memory s.new desk.new ≡ chunk_gathered z q (memory s.old desk.old) }
{
    let chunk = sides::block_chunk(s, z, q);
    let n = chunk.n;
    for j in 0..n {
        let head = sides::head_at(s, chunk, j);
        desk.gather(s, z, false, head);
    }
}

// The records of the listed blocks, into the buffer.
fn gather_blocks(s: &mut [u32], desk: &mut Desk, list: &[u32], z: Offsets)
    requires { (i : ℕ) → i < length list.now → Gathering z (get_or list.now i 0) (blocks_gathered z list.now i (memory s.old desk.old)) }
    ensures { memory s.new desk.new ≡ blocks_gathered z list.now (length list.now) (memory s.old desk.old) }
{
    for &q in list {
        gather_chunk(s, desk, z, q as usize);
    }
}

// Step 5: the records of the listed blocks anew, B to a block, the last with the rest. For every
// list of places in use that the marks stand for, the words, the new list, the cursor and the marks
// afterwards are those of the compacted level, its blocks settled in key order; the old places stay
// marked, and the new list is on the desk.
pub fn compact(s: &mut [u32], desk: &mut Desk, list: &[u32], z: Layout, cursor: usize) -> Merged
    requires { Compactable z s.old desk.old.used list.now cursor }
    ensures { (a : Allocation) → a.cursor ≡ cursor → Marks desk.old.used a.used
        → Leaves z (settle z.geo.p a (waste.compact z.geo.b (map (block_at z s.old) list.now))) s.old s.new desk.new.used desk.new.out result }
{
    let o = Offsets::of(z);
    desk.st = Progress::begin(cursor);
    gather_blocks(s, desk, list, o);
    desk.flush(s, o);
    Merged {
        count: desk.st.m,
        cursor: desk.st.cursor,
        writes: desk.st.writes,
    }
}

// The records of the listed blocks.
fn record_sum(s: &[u32], list: &[u32], z: Offsets) -> usize
    requires { Summable z s.now list.now }
    ensures { result ≡ record_sum z s.now list.now (length list.now) }
{
    let mut total: usize = 0;
    for &q in list {
        let at = blocks::place_start(z, q as usize);
        total = total + slices::word(s, at);
    }
    total
}

// The level of the listed blocks needs compacting.
pub fn needs_compacting(s: &[u32], list: &[u32], z: Layout) -> bool
    requires { Countable z s.now list.now }
    ensures { result ≡ needs_compact z.geo.b (map (block_at z s.now) list.now) }
{
    let o = Offsets::of(z);
    let b = o.b;
    let n = list.len();
    let records = record_sum(s, list, o);
    levels::is_wasteful(b, n, records)
}
