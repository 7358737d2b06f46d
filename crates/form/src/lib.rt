// The form check of a lent store (document 01, "Form check"), and what every call begins with: the
// layout of a store that passes, or the reason that it is turned down for.
#![tactic(auto)]

ghost use Rattle.std.specs.Prelude.{◌≡◌, true, ◌+◌, ◌-◌, ◌*◌, ◌≤◌, ◌<◌, length, All};
ghost use Rattle.std.specs.List.{list_all};
ghost use Rattle.directory.specs.Directory.{Within, level_formed};
ghost use Rattle.geometry.specs.Geometry.{Ranged};
ghost use Rattle.geometry.specs.Room.{places_most};
ghost use Rattle.words.specs.Form.{room_of};
ghost use Rattle.layout.specs.Layouts.{Fitted};
ghost use Rattle.form.specs.Form.{Headed, top_of, level_of, levels_of, header_ok, fresh_of, mark_of, lists_ok, spare_ok, passed};
ghost use Rattle.form.specs.Checked.{checked_of};

use directory::Directory;
use geometry::{Geometry, Refusal};
use layout::Layout;
use walk::Levels;

// What every call begins with: the layout of a store that passes, or the reason that it is turned down for.
pub fn check(s: &[u32]) -> Result<Layout, Refusal>
    ensures { result ≡ checked_of s.now }
{
    let z = layout::open(s)?;
    if passes(s, z) {
        return Ok(z);
    }
    Err(Refusal::Damaged)
}

// Level 0 of a store.
pub fn top_of(s: &[u32], z: Layout) -> Directory
    requires { Fitted z s.now }
    ensures { result ≡ top_of z s.now }
{
    let g = z.geo;
    let width = g.block_records();
    let records = slices::word(s, z.count);
    Directory {
        top: true,
        bottom: false,
        width,
        chunks: (records + (width - 1)) / width,
        list: z.marks,
        base: z.keys,
        pays: z.pays,
        records,
    }
}

// Level i of a store, from 1 on. A level below the bottom lists no block, so that four levels can always be gone over.
pub fn level_of(s: &[u32], z: Layout, i: usize) -> Directory
    requires { Fitted z s.now × ((1 ≤ i) × (i ≤ 3)) }
    ensures { result ≡ level_of z s.now i }
{
    let g = z.geo;
    let width = g.block_records();
    let h = g.levels();
    let list = z.list_start(i);
    let n = slices::word(s, z.count + i);
    Directory {
        top: false,
        bottom: i == h,
        width,
        chunks: n,
        list,
        base: z.places,
        pays: 0,
        records: 0,
    }
}

// The four levels of a store.
pub fn levels_of(s: &[u32], z: Layout) -> Levels
    requires { Fitted z s.now }
    ensures { result ≡ levels_of z s.now }
{
    [
        top_of(s, z),
        level_of(s, z, 1),
        level_of(s, z, 2),
        level_of(s, z, 3),
    ]
}

// The most blocks that a level may list: none below the bottom.
fn room_of(g: Geometry, i: usize) -> usize
    requires { Ranged g × (i ≤ 3) }
    ensures { result ≡ room_of g i }
{
    let h = g.levels();
    if i <= h {
        return g.capacity(i);
    }
    0
}

// The size words are within their limits.
pub fn header_ok(s: &[u32], z: Layout) -> bool
    requires { Fitted z s.now }
    ensures { result ≡ header_ok z s.now }
{
    let g = z.geo;
    let most = g.key_limit();
    let places = g.places();
    let room = g.top_capacity();
    let k1 = room_of(g, 1);
    let k2 = room_of(g, 2);
    let k3 = room_of(g, 3);
    let c = z.count;
    let live = slices::word(s, z.live);
    let hand = slices::word(s, z.hand);
    let records = slices::word(s, c);
    let n1 = slices::word(s, c + 1);
    let n2 = slices::word(s, c + 2);
    let n3 = slices::word(s, c + 3);
    (live <= most)
        & ((hand < places) & ((records <= room) & ((n1 <= k1) & ((n2 <= k2) & (n3 <= k3)))))
}

// The n places listed from word `start` on are below p, and none is marked as used or listed twice. They get marked.
pub fn list_fresh(
    s: &[u32],
    used: &mut [bool; Geometry::MAX_P],
    start: usize,
    n: usize,
    p: usize,
) -> bool
    requires { (start + n ≤ length s.now) × (p ≤ places_most) }
    ensures { (result ≡ fresh_of s.now p start n used.old)
        × (result ≡ true → used.new ≡ mark_of s.now start n used.old) }
{
    for &place in &s[start..start + n] {
        let q = place as usize;
        if p <= q || used[q] {
            return false;
        }
        used[q] = true;
    }
    true
}

// Every list: its places are below P, none twice over all levels, and its unused entries are 0. The work
// array has a mark for every place that a store may have.
pub fn lists_ok(s: &[u32], z: Layout) -> bool
    requires { Headed z s.now }
    ensures { result ≡ lists_ok z s.now }
{
    let g = z.geo;
    let h = g.levels();
    let p = g.places();
    let mut used = [false; Geometry::MAX_P];
    for i in 1..=h {
        let room = g.capacity(i);
        let level = level_of(s, z, i);
        let start = level.list;
        let n = level.chunks;
        if !list_fresh(s, &mut used, start, n, p) {
            return false;
        }
        if !chunks::zeros(s, start + n, room - n) {
            return false;
        }
    }
    true
}

// The words of level 0 behind its pages are 0. Those of its last page are gone over with the page.
pub fn spare_ok(s: &[u32], z: Layout) -> bool
    requires { Headed z s.now }
    ensures { result ≡ spare_ok z s.now }
{
    let g = z.geo;
    let room = g.capacity(0);
    let top = top_of(s, z);
    let n = top.chunks;
    let width = top.width;
    let marks = top.list;
    let keys = top.base;
    let pays = top.pays;
    let left = room - n;
    let past = n * width;
    chunks::zeros(s, marks + n, left)
        && chunks::zeros(s, keys + past, left * width)
        && chunks::zeros(s, pays + past, left * width)
}

// Whether each level keeps its rules.
fn each_formed(s: &[u32], levels: &Levels) -> bool
    requires { All (λ (level : Directory). Within level s.now) levels.now }
    ensures { result ≡ list_all (λ (level : Directory). level_formed s.now level) levels.now }
{
    levels
        .iter()
        .all(|level| directory::level_formed(s, *level))
}

// The form check of a store of this layout. It reads no word of a place that no list names.
pub fn passes(s: &[u32], z: Layout) -> bool
    requires { Fitted z s.now }
    ensures { result ≡ passed z s.now }
{
    if !header_ok(s, z) {
        return false;
    }
    if !lists_ok(s, z) {
        return false;
    }
    if !spare_ok(s, z) {
        return false;
    }
    let levels = levels_of(s, z);
    if !each_formed(s, &levels) {
        return false;
    }
    slices::word(s, z.live) == shares::live(s, levels)
}
