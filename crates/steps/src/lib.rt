// One merge of a call with its step 5: while the merges run, the place lists stand in a work array apart from the words.
#![tactic(auto)]

ghost use Rattle.std.specs.Prelude.{◌≡◌, ◌+◌, ◌≤◌, false, length, replicate, ◌++◌};
ghost use Rattle.lists.specs.Lists.{lists_of};
ghost use Rattle.levels.specs.Store.{Store};
ghost use Rattle.levels.specs.Call.{compact_if_needed, after_compactions, merge_level, after_merge};
ghost use Rattle.levels.specs.Tickets.{ticket_of};
ghost use Rattle.words.specs.Calls.{compacted_blocks};
ghost use Rattle.blocks.specs.Blocks.{Marks};
ghost use Rattle.geometry.specs.Room.{places_most};
ghost use Rattle.steps.specs.Running.{named, store_of, Markable, Marking, sum_of, counted, counts_most, counts_before, Few, Small, Leaving, Running, compacted_counts, LevelMerged, StepReady, step_counts};

use geometry::Geometry;
use layout::Layout;
use levels::Ticket;
use pair::Lengths;
use stream::Desk;

// Of one level: merges into it, blocks written by them, blocks written compacting it.
#[derive(Clone, Copy, Default)]
pub struct Counts {
    pub merges: usize,
    pub written: usize,
    pub compacted: usize,
}

// The counts of levels 1 to 3.
pub type Tally = [Counts; 3];

// The lengths of the lists of levels 1 to 3, the allocation cursor, and the counts so far.
#[derive(Clone, Copy)]
pub struct Run {
    pub ns: [usize; 3],
    pub cursor: usize,
    pub tally: Tally,
}

// What a merge has left, and its ticket.
#[derive(Clone, Copy)]
pub struct Ticketed {
    pub run: Run,
    pub ticket: Ticket,
}

// What is counted already, and what one merge or compaction adds: at most one for each of the 8,192 places.
fn sum(a: Counts, more: Counts) -> Counts
    requires { Few counts_most a × Few places_most more }
    ensures { result ≡ sum_of a more }
{
    Counts {
        merges: a.merges + more.merges,
        written: a.written + more.written,
        compacted: a.compacted + more.compacted,
    }
}

// As many more for a level.
fn count(t: Tally, level: usize, more: Counts) -> Tally
    requires { Small counts_most t × Few places_most more }
    ensures { result ≡ counted t level more }
{
    let j = match level {
        1 => 0,
        2 => 1,
        _ => 2,
    };
    let mut grown = t;
    grown[j] = sum(t[j], more);
    grown
}

// The ticket of a merge. Its numbers are words: no level has more blocks than there are places, and no merge writes more.
fn ticket(level: usize, first: usize, overlap: usize, written: usize) -> Ticket
    requires { (level ≤ places_most) × ((first ≤ places_most) × ((overlap ≤ places_most) × (written ≤ places_most))) }
    ensures { result ≡ record { level = level; first = first; overlap = overlap; written = written } }
{
    Ticket {
        level: level as u32,
        first: first as u32,
        overlap: overlap as u32,
        written: written as u32,
    }
}

// The marks of the places in use, as document 01 has them: `[false; 8192]` filled from the lists.
fn marks(
    used: &mut [bool; Geometry::MAX_P],
    lists: &[u32; Geometry::LIST_ROOM],
    h: usize,
    ns: [usize; 3],
)
    requires { (used.old ≡ replicate places_most false) × Markable h lists.now ns }
    ensures { Marks used.new (named (lists_of h lists.now ns)) × (length used.new ≡ places_most) }
{
    for i in 0..h {
        let list = lists::entries(lists, h, i + 1, ns[i]);
        blocks::mark_listed(used, list);
    }
}

// Step 5 for one level, by its number: if it needs compacting, its records anew, in the place of its list. The places in use
// are marked only where something is written. It works at the desk of the merge before it: two desks would be 24 KiB more of stack.
fn compact_level(
    s: &mut [u32],
    desk: &mut Desk,
    lists: &mut [u32; Geometry::LIST_ROOM],
    z: Layout,
    level: usize,
    r: Run,
) -> Run
    requires { Running counts_most z s.old lists.old r × ((1 ≤ level) × (level ≤ z.geo.h)) }
    ensures { (t : Store) → t ≡ store_of z s.old lists.old r
        → Leaving z (after_compactions t (compact_if_needed z.geo level t)) (compacted_blocks (compact_if_needed z.geo level t)) (compacted_counts (compact_if_needed z.geo level t)) s.old r s.new lists.new result }
{
    let mut ns = r.ns;
    let j = level - 1;
    let h = z.geo.levels();
    let n = ns[j];
    let list = lists::entries(lists, h, level, n);
    if !compaction::needs_compacting(s, list, z) {
        return r;
    }
    desk.used = [false; Geometry::MAX_P];
    marks(&mut desk.used, lists, h, ns);
    let old = lists::entries(lists, h, level, n);
    let m = compaction::compact(s, desk, old, z, r.cursor);
    let at = lists::start_of(h, level);
    stream::copy_list(&desk.out, 0, m.count, lists, at);
    let counts = Counts {
        merges: 0,
        written: 0,
        compacted: m.writes,
    };
    ns[j] = m.count;
    Run {
        ns,
        cursor: m.cursor,
        tally: count(r.tally, level, counts),
    }
}

// A merge from a listed level to the next without its step 5.
fn merge_two(
    s: &mut [u32],
    desk: &mut Desk,
    lists: &mut [u32; Geometry::LIST_ROOM],
    z: Layout,
    level: usize,
    r: Run,
) -> Ticketed
    requires { StepReady counts_most z s.old lists.old level r × (Marking desk.old.used (store_of z s.old lists.old r) × (1 ≤ level)) }
    ensures { LevelMerged z level s.old lists.old r s.new lists.new result }
{
    let mut ns = r.ns;
    let lengths = Lengths {
        above: ns[level - 1],
        under: ns[level],
    };
    let m = pair::merge_pair(s, desk, lists, z, level, lengths, r.cursor);
    let counts = Counts {
        merges: 1,
        written: m.writes,
        compacted: 0,
    };
    ns[level - 1] = m.above;
    ns[level] = m.under;
    Ticketed {
        run: Run {
            ns,
            cursor: m.cursor,
            tally: count(r.tally, level + 1, counts),
        },
        ticket: ticket(level, m.first, m.overlap, m.writes),
    }
}

// A merge out of level 0, which is full, without its step 5.
fn merge_top(
    s: &mut [u32],
    desk: &mut Desk,
    lists: &mut [u32; Geometry::LIST_ROOM],
    z: Layout,
    r: Run,
) -> Ticketed
    requires { StepReady counts_most z s.old lists.old 0 r × Marking desk.old.used (store_of z s.old lists.old r) }
    ensures { LevelMerged z 0 s.old lists.old r s.new lists.new result }
{
    let mut ns = r.ns;
    let m = pair::merge_pages(s, desk, lists, z, ns[0], r.cursor);
    let w = z.geo.window(0);
    top::close_gap(s, z, m.first, w);
    let counts = Counts {
        merges: 1,
        written: m.writes,
        compacted: 0,
    };
    ns[0] = m.under;
    Ticketed {
        run: Run {
            ns,
            cursor: m.cursor,
            tally: count(r.tally, 1, counts),
        },
        ticket: ticket(0, m.first, m.overlap, m.writes),
    }
}

// A merge out of a level, and its step 5: that level, if it is a listed one, then the next.
pub fn merge_step(
    s: &mut [u32],
    lists: &mut [u32; Geometry::LIST_ROOM],
    z: Layout,
    level: usize,
    r: Run,
) -> Ticketed
    requires { StepReady counts_before z s.old lists.old level r }
    ensures { (t : Store) → t ≡ store_of z s.old lists.old r
        → Leaving z (after_merge (merge_level z.geo level t)) ((merge_level z.geo level t).written ++ compacted_blocks (merge_level z.geo level t).compactions) (step_counts (merge_level z.geo level t)) s.old r s.new lists.new result.run
        × (result.ticket ≡ ticket_of z.geo (merge_level z.geo level t)) }
{
    let mut desk = Desk::new();
    marks(&mut desk.used, lists, z.geo.levels(), r.ns);
    if level == 0 {
        let merged = merge_top(s, &mut desk, lists, z, r);
        return Ticketed {
            run: compact_level(s, &mut desk, lists, z, 1, merged.run),
            ticket: merged.ticket,
        };
    }
    let merged = merge_two(s, &mut desk, lists, z, level, r);
    let next = compact_level(s, &mut desk, lists, z, level, merged.run);
    Ticketed {
        run: compact_level(s, &mut desk, lists, z, level + 1, next),
        ticket: merged.ticket,
    }
}
