// What put and delete do to a store that passes (document 01, "Calls").
#![tactic(auto)]

ghost use Rattle.std.specs.Prelude.{◌≡◌, true, [], ◌≤◌, Ok};
ghost use Rattle.slices.specs.Ranks.{rank_of};
ghost use Rattle.geometry.specs.Geometry.{key_limit_of};
ghost use Rattle.levels.specs.Basics.{if◌then◌otherwise◌, is_some};
ghost use Rattle.levels.specs.Map.{find, map_of};
ghost use Rattle.levels.specs.Store.{rows};
ghost use Rattle.levels.specs.Put.{put, delete, merges_for, merges_of};
ghost use Rattle.levels.specs.Inside.{merges_most};
ghost use Rattle.levels.specs.Tickets.{tickets_of, laid};
ghost use Rattle.words.specs.Stores.{top_recs, keys_of, store_at};
ghost use Rattle.words.specs.Calls.{Outcome, ChangeAnswer, change_outcome, merges_counted, is_full, top_merges, foretold};
ghost use Rattle.words.specs.Rows.{rows_of};
ghost use Rattle.words.specs.Passed.{Passed};
ghost use Rattle.top.specs.Top.{TopReady};
ghost use Rattle.writer.specs.Answers.{changed_answer, forecast_answer};
ghost use Rattle.writer.specs.Change.{live_found, room_at, with_entered, Counted, Entered};

use geometry::Refusal;
use layout::Layout;
use search::Held;
use steps::{Counts, Tally};

// What a put or delete did: live says if the key was live, the tally what was merged and written for it.
#[derive(Clone, Copy)]
pub struct Change {
    pub live: bool,
    pub tally: Tally,
}

// v for k, over what k had, in a store that passes; the tickets of its merges, as many as there are rows.
pub fn put_ready(
    s: &mut [u32],
    z: Layout,
    k: u32,
    v: u32,
    rows: &mut [[u32; 4]],
) -> Result<Change, Refusal>
    requires { Passed z s.old }
    ensures { ◌≡◌ {A = Outcome ChangeAnswer} (record { answer = changed_answer result; words = s.new })
        (change_outcome z s.old (put z.geo (store_at z s.old) k v))
        × (rows.new ≡ laid (rows_of (tickets_of z.geo (merges_of (put z.geo (store_at z s.old) k v)))) rows.old) }
{
    let was = is_live(reader::find_key(s, z, k as usize));
    let live = s[z.live];
    if was {
        let tally = enter_record(s, z, k, false, v, live, rows);
        return Ok(Change { live: true, tally });
    }
    if live as usize == z.geo.key_limit() {
        return Err(Refusal::Full);
    }
    let tally = enter_record(s, z, k, false, v, live + 1, rows);
    Ok(Change { live: false, tally })
}

// k out of the map, of a store that passes; the tickets of its merges, as many as there are rows.
pub fn delete_ready(s: &mut [u32], z: Layout, k: u32, rows: &mut [[u32; 4]]) -> Change
    requires { Passed z s.old }
    ensures { ◌≡◌ {A = Outcome ChangeAnswer} (record { answer = changed_answer (Ok result); words = s.new })
        (change_outcome z s.old (delete z.geo (store_at z s.old) k))
        × (rows.new ≡ laid (rows_of (tickets_of z.geo (merges_of (delete z.geo (store_at z s.old) k)))) rows.old) }
{
    let was = is_live(reader::find_key(s, z, k as usize));
    if was {
        let live = s[z.live];
        let tally = enter_record(s, z, k, true, 0, live - 1, rows);
        return Change { live: true, tally };
    }
    Change {
        live: false,
        tally: no_tally(),
    }
}

// A tombstone or no record is not live.
fn is_live(held: Option<Held>) -> bool
    ensures { result ≡ live_found held }
{
    held.is_some_and(|h| !h.mark)
}

// The tally of a call that merges nothing.
fn no_tally() -> Tally
    ensures { Counted result [] }
{
    [Counts::default(); 3]
}

// A record into level 0, after the merges that make room for it there.
fn enter_record(
    s: &mut [u32],
    z: Layout,
    k: u32,
    mark: bool,
    v: u32,
    live: u32,
    rows: &mut [[u32; 4]],
) -> Tally
    requires { Passed z s.old }
    ensures { Entered z s.old (record { key = k; tombstone = mark; pay = v }) live result s.new
        × (rows.new ≡ laid (rows_of (tickets_of z.geo (merges_for z.geo (store_at z s.old) k))) rows.old) }
{
    let at = top::locate(s, z, k);
    if has_room(s, z, at) {
        place_record(s, z, at, k, mark, v, live);
        return no_tally();
    }
    let t = cascade::merge_all(s, z, rows);
    let after = top::locate(s, z, k);
    place_record(s, z, after, k, mark, v, live);
    t
}

// A record is overwritten in level 0, or there is room for one more.
fn has_room(s: &[u32], z: Layout, at: Result<usize, usize>) -> bool
    requires { TopReady z s.now }
    ensures { result ≡ room_at z s.now at }
{
    at.is_ok() || (s[z.count] as usize) < z.geo.top_capacity()
}

// A record into level 0, where its key stands and there is room for it, and live as it is then.
fn place_record(
    s: &mut [u32],
    z: Layout,
    at: Result<usize, usize>,
    k: u32,
    mark: bool,
    v: u32,
    live: u32,
)
    requires { TopReady z s.old × ((at ≡ rank_of k (keys_of (top_recs z s.old))) × (room_at z s.old at ≡ true)) }
    ensures { s.new ≡ with_entered z s.old (record { key = k; tombstone = mark; pay = v }) live }
{
    top::enter(s, z, at, k, mark, v);
    s[z.live] = live;
}

// The merges that a put or delete has made.
pub fn merges(changed: Result<Change, Refusal>) -> usize
    requires { merges_counted (changed_answer changed) ≤ merges_most }
    ensures { result ≡ merges_counted (changed_answer changed) }
{
    match changed {
        Ok(change) => {
            let [one, two, three] = change.tally;
            one.merges + two.merges + three.merges
        }
        Err(_) => 0,
    }
}

// What a put of k is going to do, in a store that passes (document 02, card 5): its merges into level 1, 1 or 0, or that it
// would be turned down.
pub fn foresee_put(s: &[u32], z: Layout, k: u32) -> Result<u32, Refusal>
    requires { Passed z s.now }
    ensures { forecast_answer result ≡ foretold (if is_full (key_limit_of z.geo) (map_of (rows (store_at z s.now))) k then 5 otherwise 0) (top_merges z s.now k) }
{
    if is_full(s, z, k) {
        Err(Refusal::Full)
    } else {
        Ok(top_merges(s, z, k))
    }
}

// A put of k would be turned down as full. Only a store that holds as many keys as it may is searched for k.
fn is_full(s: &[u32], z: Layout, k: u32) -> bool
    requires { Passed z s.now }
    ensures { result ≡ is_full (key_limit_of z.geo) (map_of (rows (store_at z s.now))) k }
{
    s[z.live] as usize == z.geo.key_limit() && !is_live(reader::find_key(s, z, k as usize))
}

// What a delete of k is going to do: nothing is merged for a key that is not live.
pub fn foresee_delete(s: &[u32], z: Layout, k: u32) -> u32
    requires { Passed z s.now }
    ensures { forecast_answer (Ok result) ≡ foretold 0 (if is_some (find k (map_of (rows (store_at z s.now)))) then top_merges z s.now k otherwise 0) }
{
    let was = is_live(reader::find_key(s, z, k as usize));
    if was { top_merges(s, z, k) } else { 0 }
}

// The merges into level 1 that make room for a record of k: one where level 0 is full and has none of k.
fn top_merges(s: &[u32], z: Layout, k: u32) -> u32
    requires { Passed z s.now }
    ensures { result ≡ top_merges z s.now k }
{
    let room = has_room(s, z, top::locate(s, z, k));
    if room { 0 } else { 1 }
}
