// Level 0 in the lent words: where a key stands, and the edits that put and delete and a merge out of
// level 0 make there. Nothing here knows more than level 0's words and its count c.
#![tactic(auto)]

ghost use Rattle.std.specs.Prelude.{◌≡◌, ◌++◌, suc, ◌+◌, ◌*◌, ◌/◌, ◌≤◌, ◌<◌, length, take, drop};
ghost use Rattle.slices.specs.Ranks.{rank_of};
ghost use Rattle.geometry.specs.Geometry.{capacity_of, top_capacity_of};
ghost use Rattle.layout.specs.Layouts.{Proper};
ghost use Rattle.levels.specs.Put.{insert};
ghost use Rattle.pieces.specs.Pieces.{word};
ghost use Rattle.words.specs.Stores.{top_count_at, top_slots, top_recs, keys_of};
ghost use Rattle.top.specs.Top.{TopReady, Room, rec_of, slot_at, set_bit, with_slot, with_slots, with_top, pushed, closed};

use layout::Layout;

// What a slot of level 0 holds: mark is true for a tombstone.
#[derive(Clone, Copy)]
pub struct Slot {
    pub key: u32,
    pub mark: bool,
    pub pay: u32,
}

// Where k stands in level 0: `Ok` with its slot, or `Err` with the slot that a record for it goes into.
pub fn locate(s: &[u32], z: Layout, k: u32) -> Result<usize, usize>
    requires { TopReady z s.now }
    ensures { result ≡ rank_of k (keys_of (top_recs z s.now)) }
{
    slices::rank_of(s, z.keys, s[z.count] as usize, k as usize)
}

// m with `on` for bit j, all other bits kept. A mark word has a bit for each record of a page, which has 16 at most.
fn with_bit(m: u32, j: u32, on: bool) -> u32
    requires { (m < 65536) × (j < 16) }
    ensures { result ≡ set_bit m j on }
{
    let was = (m >> j) % 2 == 1;
    let bit: u32 = 1 << j;
    if on {
        if was {
            return m;
        }
        return m + bit;
    }
    if was {
        return m - bit;
    }
    m
}

// What slot j holds.
pub fn read_slot(s: &[u32], z: Layout, j: usize) -> Slot
    requires { Proper z × ((length s.now ≡ z.length) × (j < top_capacity_of z.geo)) }
    ensures { result ≡ slot_at z s.now j }
{
    let b = z.geo.block_records();
    let m = s[z.marks + j / b];
    let shift = (j % b) as u32;
    Slot {
        key: s[z.keys + j],
        mark: (m >> shift) % 2 == 1,
        pay: s[z.pays + j],
    }
}

// A record into slot j: its key word, its payload word and its bit of the page's mark word.
pub fn write_slot(s: &mut [u32], z: Layout, j: usize, slot: Slot)
    requires { Proper z × ((length s.old ≡ z.length) × ((j < top_capacity_of z.geo) × (word s.old (z.marks + j / z.geo.b) < 65536))) }
    ensures { s.new ≡ with_slot z s.old j slot }
{
    let b = z.geo.block_records();
    let page = z.marks + j / b;
    let shift = (j % b) as u32;
    let m = with_bit(s[page], shift, slot.mark);
    s[z.keys + j] = slot.key;
    s[z.pays + j] = slot.pay;
    s[page] = m;
}

// A record into slot i, and the records from slot i to slot c - 1 one slot on. Each turn puts down the
// record that the turn before it took up.
fn push_in(s: &mut [u32], z: Layout, i: usize, c: usize, slot: Slot)
    requires { TopReady z s.old × ((i ≤ c) × (suc c ≤ top_capacity_of z.geo)) }
    ensures { s.new ≡ with_slots z s.old (pushed i c (rec_of slot) (top_slots z s.old)) }
{
    let mut carried = slot;
    let end = c + 1;
    for n in i..end {
        let next = read_slot(s, z, n);
        write_slot(s, z, n, carried);
        carried = next;
    }
}

// A record into level 0: over the one that has its key, or between its neighbours.
pub fn enter(s: &mut [u32], z: Layout, at: Result<usize, usize>, k: u32, mark: bool, v: u32)
    requires { TopReady z s.old × ((at ≡ rank_of k (keys_of (top_recs z s.old))) × Room z s.old at) }
    ensures { s.new ≡ with_top z s.old (insert (record { key = k; tombstone = mark; pay = v }) (top_recs z s.old)) }
{
    let slot = Slot {
        key: k,
        mark,
        pay: v,
    };
    match at {
        Ok(i) => write_slot(s, z, i, slot),
        Err(i) => {
            let c = s[z.count];
            push_in(s, z, i, c as usize, slot);
            s[z.count] = c + 1;
        }
    }
}

// The n words from word `start` on without the `gap` words after the first `at` of them.
fn close_part(s: &mut [u32], start: usize, n: usize, at: usize, gap: usize)
    requires { (at + gap ≤ n) × (start + n ≤ length s.old) }
    ensures { s.new ≡ closed s.old start n at gap }
{
    let left = n - (at + gap);
    let to = start + at;
    slices::copy_down(s, to + gap, left, to);
    slices::clear(s, to + left, gap);
}

// Pages `first` to `first + w - 1` leave a full level 0. Whole pages move, so that mark words, keys and
// payloads move as words.
pub fn close_gap(s: &mut [u32], z: Layout, first: usize, w: usize)
    requires { TopReady z s.old × ((top_count_at z s.old ≡ top_capacity_of z.geo) × (first + w ≤ capacity_of z.geo 0)) }
    ensures { s.new ≡ with_top z s.old (take (first * z.geo.b) (top_recs z s.old) ++ drop ((first + w) * z.geo.b) (top_recs z s.old)) }
{
    let g = z.geo;
    let b = g.block_records();
    let pages = g.capacity(0);
    let room = g.top_capacity();
    let count = z.count;
    let at = first * b;
    let gap = w * b;
    close_part(s, z.marks, pages, first, w);
    close_part(s, z.keys, room, at, gap);
    close_part(s, z.pays, room, at, gap);
    s[count] = (room - gap) as u32;
}
