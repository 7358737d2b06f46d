// Places of blocks: the few offsets of a layout that a merge reads, the first free place after the cursor, the marks of
// places in use, the buffer that gathers the records of a block, and the writing of a block.
#![tactic(auto)]

ghost use Rattle.std.specs.Prelude.{◌≡◌, ℕ, ◌+◌, ◌-◌, ◌*◌, ◌^◌, ◌≤◌, ◌<◌, get_or, length};
ghost use Rattle.layout.specs.Layouts.{Proper};
ghost use Rattle.geometry.specs.Room.{places_most};
ghost use Rattle.blocks.specs.Blocks.{Sized, offsets_of, start_of, after_by, SomeFree, next_mark, marked, pushed, empty_buffer, written, WritesRecords};

use geometry::Geometry;
use layout::Layout;

// A mark for each place that a geometry may have, and room for a level's place list, for the crates that know no geometry.
pub const PLACES: usize = Geometry::MAX_P;

pub const LIST_ROOM: usize = Geometry::LIST_ROOM;

// What a merge reads of the layout at every step: B, P, K(0), and where level 0's mark words, keys and payloads and place 0 start.
// Few numbers, since the hot loops hand them on from function to function.
#[derive(Clone, Copy)]
pub struct Offsets {
    pub b: usize,
    pub p: usize,
    pub top: usize,
    pub marks: usize,
    pub keys: usize,
    pub pays: usize,
    pub base: usize,
}

// Records that wait for a block: bit j of marks is record j's tombstone bit. Two arrays and a count, since a block has its keys in a
// row and then its payloads, and no ArrayVec, whose clauses say nothing of the slots past the count: a block has 0 there.
#[derive(Clone, Copy)]
pub struct Buffer {
    pub keys: [u32; 16],
    pub pays: [u32; 16],
    pub marks: u32,
    pub n: usize,
}

impl Offsets {
    // No `From`, which takes any layout: one that is not proper has numbers that do not fit.
    pub fn of(z: Layout) -> Offsets
        requires { Proper z }
        ensures { result ≡ offsets_of z }
    {
        let g = z.geo;
        Offsets {
            b: g.block_records(),
            p: g.places(),
            top: g.capacity(0),
            marks: z.marks,
            keys: z.keys,
            pays: z.pays,
            base: z.places,
        }
    }
}

// All slots are 0, so that a block of fewer than B records is written with its unused slots 0.
// Not derived: a derived one's clause says nothing of the arrays.
impl Default for Buffer {
    fn default() -> Buffer
        ensures { result ≡ empty_buffer }
    {
        Buffer {
            keys: [0; 16],
            pays: [0; 16],
            marks: 0,
            n: 0,
        }
    }
}

impl Buffer {
    // One record more; tombstone is 0 or 1.
    pub fn push(mut self, key: u32, tombstone: u32, pay: u32) -> Buffer
        requires { (self.n < 16) × (tombstone < 2) × (self.marks < 2 ^ self.n) }
        ensures { result ≡ pushed self key tombstone pay }
    {
        let n = self.n;
        self.keys[n] = key;
        self.pays[n] = pay;
        self.marks = self.marks + (tombstone << n);
        self.n = n + 1;
        self
    }
}

// The first word of a place. A million is more than any offset: no store is longer than 288,524 words.
pub fn place_start(z: Offsets, place: usize) -> usize
    requires { (z.b ≤ 16) × (z.base ≤ 1000000) × (place ≤ places_most) }
    ensures { result ≡ start_of z place }
{
    let b = z.b;
    z.base + place * (2 + 2 * b)
}

// The place k steps after the cursor, going round at p.
fn place_after(p: usize, cursor: usize, k: usize) -> usize
    requires { (p ≤ places_most) × (cursor < p) × (k ≤ p) }
    ensures { result ≡ after_by p cursor k }
{
    if cursor + k < p {
        cursor + k
    } else {
        cursor + k - p
    }
}

// The first free place after the cursor, going round. A loop that breaks with the place: the form that is asked for here
// (docs/DECISIONS.md, "Forms that document 01 names by place").
pub fn first_free(used: &[bool; Geometry::MAX_P], p: usize, cursor: usize) -> usize
    requires { (p ≤ places_most) × (cursor < p) × SomeFree used.now p }
    ensures { result ≡ next_mark p used.now cursor }
{
    let mut k = 1;
    loop {
        let q = place_after(p, cursor, k);
        if !used[q] {
            break q;
        }
        k += 1;
    }
}

// The places of a list, or of a lent part of one, are marked as in use.
pub fn mark_listed(used: &mut [bool; Geometry::MAX_P], list: &[u32])
    requires { (i : ℕ) → i < length list.now → get_or list.now i 0 < places_most }
    ensures { used.new ≡ marked used.old list.now (length list.now) }
{
    for &q in list {
        used[q as usize] = true;
    }
}

// The buffer's count, mark word, keys and payloads, at a place; unused slots are 0 in the buffer
// already, so the place's whole width is filled.
pub fn write_block(s: &mut [u32], z: Offsets, place: usize, buf: Buffer)
    requires { Sized z s.old × (place < z.p) × (buf.n ≤ 16) }
    ensures { (s.new ≡ written z s.old place buf)
        × WritesRecords z s.old place buf s.new }
{
    let at = place_start(z, place);
    let b = z.b;
    let n = buf.n;
    let m = buf.marks;
    let keys = buf.keys;
    let pays = buf.pays;
    s[at] = n as u32;
    s[at + 1] = m;
    slices::copy(&keys, 0, b, s, at + 2);
    slices::copy(&pays, 0, b, s, at + 2 + b);
}
