// The calls on a lent store (document 01, "Calls"). Every slice and every argument is legal input.
#![tactic(auto)]

ghost use Rattle.std.specs.Prelude.{◌≡◌, ◌≤◌, length, get_or};
ghost use Rattle.levels.specs.Tickets.{laid};
ghost use Rattle.layout.specs.Layouts.{Fitted};
ghost use Rattle.words.specs.Rows.{rows_of};
ghost use Rattle.words.specs.Calls.{Outcome, FormatAnswer, StretchAnswer, StretchOutcome, format_of, check_of, look_up_of, next_of, stretch_of, show_of, about_of, put_tickets, delete_tickets, will_put_merge_of, will_delete_merge_of};
ghost use Rattle.reader.specs.Answers.{looked_answer, nexted_answer, stretch_answer, told_answer};
ghost use Rattle.writer.specs.Answers.{forecast_answer};
ghost use Rattle.store.specs.Answers.{check_answer, format_answer};
ghost use Rattle.store.specs.Change.{PutDone, DeleteDone};
ghost use Rattle.store.specs.Format.{headed};
ghost use Rattle.store.specs.Show.{show_part};

use geometry::Refusal;
use layout::Layout;
use levels::Ticket;
use reader::{Facts, Part};
use tickets::ROOM;
use walk::Listed;
use writer::Change;

// An empty store of this geometry, whatever the words were before: N, or why the words or the geometry are turned down.
pub fn format(s: &mut [u32], b: u32, w: u32, d: u32, g: u32, h: u32, p: u32) -> Result<u32, Refusal>
    ensures { ◌≡◌ {A = Outcome FormatAnswer} (record { answer = format_answer result; words = s.new })
        (format_of s.old (record { b = b; w = w; d = d; g = g; h = h; p = p })) }
{
    let z = layout::fit(s.len(), b, w, d, g, h, p)?;
    let n = s.len();
    slices::clear(s, 0, n);
    put_header(s, z, [b, w, d, g, h, p]);
    Ok(z.geo.key_limit() as u32)
}

// The words of a fresh store that are not 0: hand stands before place 0, so that the first block goes there.
fn put_header(s: &mut [u32], z: Layout, six: [u32; 6])
    requires { Fitted z s.old × ((length six ≡ 6) × (1 ≤ get_or six 5 0)) }
    ensures { s.new ≡ headed z six s.old }
{
    slices::copy(&six, 0, 6, s, z.six);
    s[z.hand] = six[5] - 1;
}

// Why a store is turned down, if it is.
#[tactic(auto, using(crate::proofs::Answering::check_refused, crate::proofs::Answering::check_none))]
pub fn check(s: &[u32]) -> Result<(), Refusal>
    ensures { check_answer result ≡ check_of s.now }
{
    form::check(s)?;
    Ok(())
}

// The payload of k, if it is in the map.
#[tactic(auto, using(crate::proofs::Answering::look_refused, crate::proofs::Answering::look_ready))]
pub fn look_up(s: &[u32], k: u32) -> Result<Option<u32>, Refusal>
    ensures { looked_answer result ≡ look_up_of s.now k }
{
    let held = reader::find_key(s, form::check(s)?, k as usize);
    Ok(reader::look_answer(held))
}

// The smallest live key at or above k, with its payload.
#[tactic(auto, using(crate::proofs::Answering::next_refused, crate::proofs::Answering::next_ready))]
pub fn next(s: &[u32], k: u32) -> Result<Option<(u32, u32)>, Refusal>
    ensures { nexted_answer result ≡ next_of s.now k }
{
    Ok(reader::next_key(s, form::check(s)?, k as usize))
}

// The live records with keys from `first` to `last`, in key order, into two arrays, as many as both have room for
// (document 02, card 1).
#[tactic(auto, using(crate::proofs::Answering::stretch_refused, crate::proofs::Answering::stretch_ready))]
pub fn stretch(
    s: &[u32],
    first: u32,
    last: u32,
    keys: &mut [u32],
    pays: &mut [u32],
) -> Result<Listed, Refusal>
    ensures { ◌≡◌ {A = StretchOutcome StretchAnswer} (record { answer = stretch_answer result; keys = keys.new; pays = pays.new })
        (stretch_of s.now first last keys.old pays.old) }
{
    Ok(reader::list_stretch(
        s,
        form::check(s)?,
        first as usize,
        last as usize,
        keys,
        pays,
    ))
}

// The words of the block of a level whose first to last key encloses k, as that part of the lent store.
pub fn show(s: &[u32], level: u32, k: u32) -> &[u32]
    ensures { result.now ≡ show_of s.now level k }
{
    let part = show_at(s, level, k);
    &s[part.start..part.start + part.length]
}

// Where that part lies, for a caller that no part can be handed to.
pub fn show_at(s: &[u32], level: u32, k: u32) -> Part
    ensures { result ≡ show_part s.now level k }
{
    let Ok(z) = form::check(s) else {
        return Part::default();
    };
    reader::show_block(s, z, level as usize, k as usize)
}

// What the store says of itself: its geometry, live, N, and how full its levels are.
#[tactic(auto, using(crate::proofs::Answering::about_refused_lem))]
pub fn about(s: &[u32]) -> Result<Facts, Refusal>
    ensures { told_answer result ≡ about_of s.now }
{
    Ok(reader::facts_of(s, form::check(s)?))
}

// If a put of k is going to merge: its merges into level 1, 1 or 0, or the reason that it would be turned down for (document
// 02, card 5).
pub fn will_put_merge(s: &[u32], k: u32) -> Result<u32, Refusal>
    ensures { forecast_answer result ≡ will_put_merge_of s.now k }
{
    writer::foresee_put(s, form::check(s)?, k)
}

// And if a delete of k is.
pub fn will_delete_merge(s: &[u32], k: u32) -> Result<u32, Refusal>
    ensures { forecast_answer result ≡ will_delete_merge_of s.now k }
{
    Ok(writer::foresee_delete(s, form::check(s)?, k))
}

// v for k, over what k had.
pub fn put(s: &mut [u32], k: u32, v: u32) -> Result<Change, Refusal>
    ensures { PutDone s.old k v result s.new }
{
    put_rows(s, k, v, &mut [])
}

// k out of the map.
pub fn delete(s: &mut [u32], k: u32) -> Result<Change, Refusal>
    ensures { DeleteDone s.old k result s.new }
{
    delete_rows(s, k, &mut [])
}

// Put, and the tickets of its merges as rows of four words, as many as there are rows.
pub fn put_rows(s: &mut [u32], k: u32, v: u32, rows: &mut [[u32; 4]]) -> Result<Change, Refusal>
    ensures { PutDone s.old k v result s.new
        × (rows.new ≡ laid (rows_of (put_tickets s.old k v)) rows.old) }
{
    let z = form::check(s)?;
    writer::put_ready(s, z, k, v, rows)
}

// The same for delete.
pub fn delete_rows(s: &mut [u32], k: u32, rows: &mut [[u32; 4]]) -> Result<Change, Refusal>
    ensures { DeleteDone s.old k result s.new
        × (rows.new ≡ laid (rows_of (delete_tickets s.old k)) rows.old) }
{
    let z = form::check(s)?;
    Ok(writer::delete_ready(s, z, k, rows))
}

// Put, and a ticket for each of its merges into the caller's list, in their order, as many as fit (document 02, card 3).
pub fn put_tickets(s: &mut [u32], k: u32, v: u32, tickets: &mut [Ticket]) -> Result<Change, Refusal>
    ensures { PutDone s.old k v result s.new
        × (tickets.new ≡ laid (put_tickets s.old k v) tickets.old) }
{
    let mut rows = [[0u32; 4]; ROOM];
    let changed = put_rows(s, k, v, &mut rows);
    tickets::hand_out(tickets, &rows[..writer::merges(changed)]);
    changed
}

// Delete, and a ticket for each of its merges.
pub fn delete_tickets(s: &mut [u32], k: u32, tickets: &mut [Ticket]) -> Result<Change, Refusal>
    ensures { DeleteDone s.old k result s.new
        × (tickets.new ≡ laid (delete_tickets s.old k) tickets.old) }
{
    let mut rows = [[0u32; 4]; ROOM];
    let changed = delete_rows(s, k, &mut rows);
    tickets::hand_out(tickets, &rows[..writer::merges(changed)]);
    changed
}
