// The merges of a call, from a full level 0 on: the place lists are taken out of the words, and written back after the last merge.
#![tactic(auto)]

ghost use Rattle.std.specs.Prelude.{◌≡◌, ◌-◌, length};
ghost use Rattle.geometry.specs.Room.{list_room};
ghost use Rattle.geometry.specs.Geometry.{Ranged};
ghost use Rattle.levels.specs.Store.{Store};
ghost use Rattle.levels.specs.Call.{after_merges, merges_below, merges_from};
ghost use Rattle.levels.specs.Tickets.{tickets_of, laid};
ghost use Rattle.words.specs.Stores.{store_at};
ghost use Rattle.words.specs.Calls.{written_blocks};
ghost use Rattle.words.specs.Rows.{rows_of, laid_from};
ghost use Rattle.steps.specs.Running.{store_of, Leaving};
ghost use Rattle.cascade.specs.Cascade.{deepest_for, numbered, Rolling, list_counts, FullStore, Loaded, MergedAll, load_most};

use geometry::Geometry;
use layout::Layout;
use steps::{Counts, Run, Tally};

// The deepest of the levels 1 to h - 1 that holds more blocks than its capacity, if there is one.
fn deepest(g: Geometry, ns: [usize; 3]) -> Option<usize>
    requires { Ranged g }
    ensures { result ≡ numbered (deepest_for g ns (g.h - 1)) }
{
    for level in (1..g.levels()).rev() {
        if g.capacity(level) < ns[level - 1] {
            return Some(level);
        }
    }
    None
}

// Step 6: while a level holds more blocks than its capacity, the deepest such merges next. Each merge lowers the store's
// load (`Inside.load`), so there are `loadMost` at most. Their tickets go behind that of the merge out of level 0.
fn merge_below(
    s: &mut [u32],
    lists: &mut [u32; Geometry::LIST_ROOM],
    z: Layout,
    r: Run,
    rows: &mut [[u32; 4]],
) -> Run
    requires { Rolling load_most z s.old lists.old r }
    ensures { (t : Store) → t ≡ store_of z s.old lists.old r
        → Leaving z (after_merges t (merges_below load_most z.geo t)) (written_blocks (merges_below load_most z.geo t)) (list_counts (merges_below load_most z.geo t)) s.old r s.new lists.new result
        × (rows.new ≡ laid_from 1 (rows_of (tickets_of z.geo (merges_below load_most z.geo t))) rows.old) }
{
    let mut v = r;
    let mut filed: usize = 1;
    while let Some(level) = deepest(z.geo, v.ns) {
        let merged = steps::merge_step(s, lists, z, level, v);
        slices::file(rows, filed, merged.ticket.into());
        filed += 1;
        v = merged.run;
    }
    v
}

// The lists taken out of the words, with no merge counted yet.
fn load_run(s: &[u32], z: Layout, lists: &mut [u32; Geometry::LIST_ROOM]) -> Run
    requires { FullStore z s.now × (length lists.old ≡ list_room) }
    ensures { Loaded z s.now lists.new result }
{
    Run {
        ns: lists::load(s, z, lists),
        cursor: s[z.hand] as usize,
        tally: [Counts::default(); 3],
    }
}

// All merges of a call whose level 0 is full, and their tickets, as many as there are rows.
pub fn merge_all(s: &mut [u32], z: Layout, rows: &mut [[u32; 4]]) -> Tally
    requires { FullStore z s.old }
    ensures { MergedAll z s.old s.new result
        × (rows.new ≡ laid (rows_of (tickets_of z.geo (merges_from z.geo (store_at z s.old)))) rows.old) }
{
    let mut lists = [0u32; Geometry::LIST_ROOM];
    let r = load_run(s, z, &mut lists);
    let merged = steps::merge_step(s, &mut lists, z, 0, r);
    slices::file(rows, 0, merged.ticket.into());
    let v = merge_below(s, &mut lists, z, merged.run, rows);
    lists::store_back(s, z, &lists, v.ns, v.cursor);
    v.tally
}
