// Steps 1 to 4 of a merge: the run is chosen and leaves its level, and what it meets below is merged with it.
// The place lists of all levels stand in one array, each in its level's part.
#![tactic(auto)]

ghost use Rattle.std.specs.Prelude.{◌≡◌, map, suc, ◌+◌, ◌≤◌, length};
ghost use Rattle.std.specs.Option.{unwrap_or, option_map};
ghost use Rattle.geometry.specs.Room.{list_room};
ghost use Rattle.levels.specs.Record.{Level, pages};
ghost use Rattle.levels.specs.Place.{Allocation, settle};
ghost use Rattle.layout.specs.Layouts.{Proper};
ghost use Rattle.words.specs.Stores.{top_recs, block_at};
ghost use Rattle.lists.specs.Flat.{part_of};
ghost use Rattle.choice.specs.Fences.{Ordered, fence_of};
ghost use Rattle.blocks.specs.Blocks.{Marks};
ghost use Rattle.merging.specs.Contract.{merge_of};
ghost use Rattle.pair.specs.Contract.{level_of, gap_at, meets_at, Chosen, Readables, Paged, Relistable, Relisted, PairReady, PairMerged, PagesReady, PagesMerged};

use choice::Fence;
use geometry::Geometry;
use layout::Layout;
use merging::{Cut, Merged};
use stream::Desk;

// The blocks of a level at most, whose first and last keys the choice goes by: 2 × K(i) during a call.
const FENCES: usize = 2 * Geometry::MAX_BOTTOM;

// The pages of level 0 at most: w × d.
const PAGES: usize = 256;

// The lengths of the two lists of a merge.
#[derive(Clone, Copy)]
pub struct Lengths {
    pub above: usize,
    pub under: usize,
}

// What a merge answers: the lengths of the two lists afterwards, the allocation cursor, the blocks
// written, the run's first block and the number of blocks below that the run overlaps.
#[derive(Clone, Copy)]
pub struct Step {
    pub above: usize,
    pub under: usize,
    pub cursor: usize,
    pub writes: usize,
    pub first: usize,
    pub overlap: usize,
}

// The chosen run, and the blocks below from `start` on up to but without `end` that it meets.
#[derive(Clone, Copy)]
struct Picked {
    first: usize,
    overlap: usize,
    start: usize,
    end: usize,
}

impl Picked {
    // Step 2, a merge of nothing: what is left of the list of n entries, from entry `at` on, when the run of w blocks has left it.
    fn gap(self, w: usize, at: usize, n: usize) -> Cut
        requires { (self.first + w ≤ n) × (at + n ≤ list_room) }
        ensures { result ≡ gap_at w at n self }
    {
        Cut {
            x: 0,
            xend: 0,
            start: at,
            y: at + self.first,
            yend: at + self.first,
            end: at + (n - w),
            pages: false,
            bottom: false,
        }
    }

    // Where X and Y stand, for the merge of a run of w blocks onto a list of n entries, from entry `at` on.
    fn cut(self, w: usize, at: usize, n: usize, pages: bool, bottom: bool) -> Cut
        requires { (self.first + w ≤ list_room) × ((self.start ≤ self.end) × ((self.end ≤ n) × (at + n ≤ list_room))) }
        ensures { result ≡ meets_at w at n pages bottom self }
    {
        Cut {
            x: self.first,
            xend: self.first + w,
            start: at,
            y: at + self.start,
            yend: at + self.end,
            end: at + n,
            pages: pages,
            bottom: bottom,
        }
    }
}

// Step 1, over the fences of the level above and those of the listed level below.
fn pick(s: &[u32], lower: &[u32], z: Layout, above: &[Fence], w: usize) -> Picked
    requires { Proper z × ((length s.now ≡ z.length) × ((1 ≤ w) × ((w ≤ length above.now) × (Ordered 0 above.now × Readables z s.now lower.now)))) }
    ensures { (l : Level) → above.now ≡ map fence_of l → Chosen w l (map (block_at z s.now) lower.now) result }
{
    let mut under = [Fence::default(); FENCES];
    fences::fence_blocks(s, z, lower, &mut under);
    let run = choice::choose_run(above, &under[..lower.len()], w);
    Picked {
        first: run.first,
        overlap: run.overlap,
        start: run.below.start,
        end: run.below.end,
    }
}

// Step 1 between two listed levels.
fn choose_listed(s: &[u32], upper: &[u32], lower: &[u32], z: Layout, w: usize) -> Picked
    requires { Proper z × ((length s.now ≡ z.length) × ((1 ≤ w) × ((w ≤ length upper.now) × (Readables z s.now upper.now × Readables z s.now lower.now)))) }
    ensures { Chosen w (map (block_at z s.now) upper.now) (map (block_at z s.now) lower.now) result }
{
    let mut above = [Fence::default(); FENCES];
    fences::fence_blocks(s, z, upper, &mut above);
    pick(s, lower, z, &above[..upper.len()], w)
}

// Step 1 out of level 0, all of whose pages are full.
fn choose_pages(s: &[u32], lower: &[u32], z: Layout, a: usize, w: usize) -> Picked
    requires { Proper z × ((length s.now ≡ z.length) × ((1 ≤ w) × ((w ≤ a) × (Paged z s.now a × Readables z s.now lower.now)))) }
    ensures { Chosen w (pages z.geo.b (top_recs z s.now)) (map (block_at z s.now) lower.now) result }
{
    let mut above = [Fence::default(); PAGES];
    let pages = &mut above[..a];
    fences::fence_pages(s, z, pages);
    pick(s, lower, z, pages, w)
}

// Steps 3 and 4 with the new list put in the place of the old one, which its blocks are read from till the end. Where X is pages of
// level 0 no list is read for it, and there is none: the lists stand for one.
fn merge_list(
    s: &mut [u32],
    desk: &mut Desk,
    lists: &mut [u32; Geometry::LIST_ROOM],
    xs: Option<&[u32; Geometry::LIST_ROOM]>,
    z: Layout,
    parts: Cut,
    cursor: usize,
) -> Merged
    requires { Relistable z s.old desk.old.used lists.old (unwrap_or (option_map (λ l. l.now) xs) lists.old) parts cursor }
    ensures { (a : Allocation) → a.cursor ≡ cursor → Marks desk.old.used a.used
        → Relisted z (settle z.geo.p a (merge_of z s.old (unwrap_or (option_map (λ l. l.now) xs.entry) lists.old) lists.old parts)) parts.start s.old s.new desk.new.used lists.old lists.new result }
{
    let x = xs.unwrap_or(lists);
    let r = merging::merge_blocks(s, desk, x, lists, z, parts, cursor);
    stream::copy_list(&desk.out, 0, r.count, lists, parts.start);
    r
}

// Steps 1 to 4 of a merge from a listed level to the next. The run leaves the lists before X is read, so its entries are kept apart.
// Step 2 writes first, so its block takes its place before those of steps 3 and 4.
pub fn merge_pair(
    s: &mut [u32],
    desk: &mut Desk,
    lists: &mut [u32; Geometry::LIST_ROOM],
    z: Layout,
    level: usize,
    lengths: Lengths,
    cursor: usize,
) -> Step
    requires { PairReady z s.old desk.old.used lists.old level lengths.above lengths.under cursor }
    ensures { (al : Allocation) → al.cursor ≡ cursor → Marks desk.old.used al.used
        → PairMerged z level (level_of z s.old (part_of z.geo.h lists.old level) lengths.above) (level_of z s.old (part_of z.geo.h lists.old (suc level)) lengths.under) al s.old s.new desk.new.used lists.old lists.new result }
{
    let g = z.geo;
    let h = g.levels();
    let w = g.window(level);
    let at = lists::start_of(h, level);
    let next = level + 1;
    let below = lists::start_of(h, next);
    let all = &lists[..];
    let picked = choose_listed(
        s,
        &all[at..at + lengths.above],
        &all[below..below + lengths.under],
        z,
        w,
    );
    let gap = picked.gap(w, at, lengths.above);
    let mut xs = [0u32; Geometry::LIST_ROOM];
    slices::copy(lists, gap.y, w, &mut xs, picked.first);
    slices::copy_down(lists, gap.y + w, gap.end - gap.y, gap.y);
    let u = merge_list(s, desk, lists, Some(&xs), z, gap, cursor);
    let parts = picked.cut(w, below, lengths.under, false, next == h);
    let l = merge_list(s, desk, lists, Some(&xs), z, parts, u.cursor);
    Step {
        above: u.count,
        under: l.count,
        cursor: l.cursor,
        writes: u.writes + l.writes,
        first: picked.first,
        overlap: picked.overlap,
    }
}

// Steps 1, 3 and 4 of a merge out of level 0, which is full. The run's pages stay where they are: step 2 writes nothing there, and the
// caller takes the pages out afterwards, `above` of them staying.
pub fn merge_pages(
    s: &mut [u32],
    desk: &mut Desk,
    lists: &mut [u32; Geometry::LIST_ROOM],
    z: Layout,
    n: usize,
    cursor: usize,
) -> Step
    requires { PagesReady z s.old desk.old.used lists.old n cursor }
    ensures { (al : Allocation) → al.cursor ≡ cursor → Marks desk.old.used al.used
        → PagesMerged z (level_of z s.old (part_of z.geo.h lists.old 1) n) al s.old s.new desk.new.used lists.old lists.new result }
{
    let g = z.geo;
    let h = g.levels();
    let a = g.capacity(0);
    let w = g.window(0);
    let at = lists::start_of(h, 1);
    let all = &lists[..];
    let picked = choose_pages(s, &all[at..at + n], z, a, w);
    let parts = picked.cut(w, at, n, true, 1 == h);
    let l = merge_list(s, desk, lists, None, z, parts, cursor);
    Step {
        above: a - w,
        under: l.count,
        cursor: l.cursor,
        writes: l.writes,
        first: picked.first,
        overlap: picked.overlap,
    }
}
