// The place lists of all levels while a call merges: in one work array apart from the words, since within a call a
// level may be longer than its K(i) words. `load` takes them out; `store_back` puts them back at the call's end.
#![tactic(auto)]

ghost use Rattle.std.specs.Prelude.{◌≡◌, ℕ, suc, ◌≤◌, ◌<◌, length, take, get_or};
ghost use Rattle.geometry.specs.Geometry.{capacity_of};
ghost use Rattle.geometry.specs.Room.{places_most, list_room};
ghost use Rattle.layout.specs.Layouts.{Fitted, list_start};
ghost use Rattle.pieces.specs.Pieces.{piece, lay};
ghost use Rattle.words.specs.Stores.{count_at, listed_at, pad};
ghost use Rattle.lists.specs.Flat.{part_start, part_room, part_of};
ghost use Rattle.lists.specs.Lists.{with_counts, with_lists, Listed, Fitting};

use geometry::Geometry;
use layout::Layout;

// Where the list of a level begins in the work array, in a store of h levels.
pub fn start_of(h: usize, level: usize) -> usize
    requires { (level ≤ h) × (h ≤ 3) }
    ensures { result ≡ part_start h level }
{
    match h - level {
        0 => 0,
        1 => 2048,
        _ => 3072,
    }
}

// The list of a level that has n entries.
pub fn entries(lists: &[u32], h: usize, level: usize, n: usize) -> &[u32]
    requires { (level ≤ h) × ((h ≤ 3) × ((n ≤ part_room h level) × (length lists.now ≡ list_room))) }
    ensures { result.now ≡ take n (part_of h lists.now level) }
{
    let at = start_of(h, level);
    &lists[at..at + n]
}

// The listed places of every level, to its part of the work array, and how many they are; above h there are none.
pub fn load(s: &[u32], z: Layout, lists: &mut [u32; Geometry::LIST_ROOM]) -> [usize; 3]
    requires { Fitted z s.now × ((length lists.old ≡ list_room) × ((i : ℕ) → i < z.geo.h → count_at z s.now (suc i) ≤ capacity_of z.geo (suc i))) }
    ensures { Listed z.geo.h z.geo.h lists.new result (λ j. listed_at z s.now (suc j)) }
{
    let h = z.geo.levels();
    let mut ns = [0; 3];
    for i in 0..h {
        let level = i + 1;
        let n = slices::word(s, z.count + level);
        slices::copy(s, z.list_start(level), n, lists, start_of(h, level));
        ns[i] = n;
    }
    ns
}

// The lists back to their words, with their lengths and the cursor.
pub fn store_back(
    s: &mut [u32],
    z: Layout,
    lists: &[u32; Geometry::LIST_ROOM],
    ns: [usize; 3],
    cursor: usize,
)
    requires { Fitted z s.old × (Fitting z lists.now ns × (cursor < z.geo.p)) }
    ensures { s.new ≡ with_lists z s.old cursor ns lists.now }
{
    put_counts(s, z, ns, cursor);
    for i in 0..z.geo.levels() {
        put_list(s, z, i + 1, lists, ns[i]);
    }
}

// The size words that a merge changes.
fn put_counts(s: &mut [u32], z: Layout, ns: [usize; 3], cursor: usize)
    requires { Fitted z s.old × ((length ns ≡ 3) × (((j : ℕ) → get_or ns j 0 ≤ places_most) × (cursor ≤ places_most))) }
    ensures { s.new ≡ with_counts z cursor ns s.old }
{
    let c = z.count;
    s[z.hand] = cursor as u32;
    s[c + 1] = ns[0] as u32;
    s[c + 2] = ns[1] as u32;
    s[c + 3] = ns[2] as u32;
}

// One list to all K(i) words of its level, so that no old entry stays behind it.
fn put_list(s: &mut [u32], z: Layout, level: usize, lists: &[u32; Geometry::LIST_ROOM], n: usize)
    requires { Fitted z s.old × ((1 ≤ level) × ((level ≤ z.geo.h) × ((n ≤ capacity_of z.geo level) × (length lists.now ≡ list_room)))) }
    ensures { s.new ≡ lay (piece (list_start z level) (pad (capacity_of z.geo level) (take n (part_of z.geo.h lists.now level)))) s.old }
{
    let start = z.list_start(level);
    let room = z.geo.capacity(level);
    let from = start_of(z.geo.levels(), level);
    slices::copy(lists, from, n, s, start);
    slices::clear(s, start + n, room - n);
}
