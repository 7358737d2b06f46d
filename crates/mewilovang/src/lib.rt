// The calls of the store for C and Rust (include/mewilovang.h): plain numbers in and out, no `requires` on any of them.
#![tactic(auto)]

ghost use Rattle.std.specs.Prelude.{◌≡◌};
ghost use Rattle.levels.specs.Tickets.{laid};
ghost use Rattle.words.specs.Calls.{Outcome, StretchOutcome, format_of, check_of, look_up_of, next_of, stretch_of, about_of, put_tickets, delete_tickets, will_put_merge_of, will_delete_merge_of};
ghost use Rattle.reader.specs.Answers.{looked_answer, nexted_answer, stretch_answer, told_answer};
ghost use Rattle.writer.specs.Answers.{changed_answer, forecast_answer};
ghost use Rattle.store.specs.Answers.{format_answer};
ghost use Rattle.store.specs.Change.{SumsFit};
ghost use Rattle.store.specs.Show.{show_part};
ghost use Rattle.steps.specs.Running.{numbers_of};
ghost use Rattle.mewilovang.specs.declared.Formatted.{Formatted};
ghost use Rattle.mewilovang.specs.declared.Stretched.{Stretched};
ghost use Rattle.mewilovang.specs.Answers.{words_of, formatted_reply, formatted_outcome, looked_reply, nexted_reply, stretched_reply, stretched_outcome, part_reply, told_reply, forecast_reply, CountsFit, counts_reply, changed_reply, PutReplied, DeleteReplied};

use geometry::{Geometry, Refusal};
use layout::Layout;
use levels::Ticket;
use reader::Facts;
use walk::Listed;
use writer::Change;

// The reason that the call is turned down for, or 0, and N.
#[repr(C)]
#[derive(Clone, Copy, Default)]
pub struct Formatted {
    pub reason: u32,
    pub limit: u32,
}

// The reason or 0, 1 or 0 for a key that is in the map or not, and its payload.
#[repr(C)]
#[derive(Clone, Copy, Default)]
pub struct Looked {
    pub reason: u32,
    pub found: u32,
    pub payload: u32,
}

// The reason or 0, 1 or 0 if there is such a key or not, the key and its payload.
#[repr(C)]
#[derive(Clone, Copy, Default)]
pub struct Nexted {
    pub reason: u32,
    pub found: u32,
    pub key: u32,
    pub payload: u32,
}

// The reason or 0, how many records were written, and 1 or 0 if more follow or not.
#[repr(C)]
#[derive(Clone, Copy, Default)]
pub struct Stretched {
    pub reason: u32,
    pub written: u32,
    pub more: u32,
}

// A part of the lent store, in words; both 0 for an empty part.
#[repr(C)]
#[derive(Clone, Copy, Default)]
pub struct Part {
    pub start: usize,
    pub length: usize,
}

// The reason or 0, the six numbers of the geometry, live, N, the records in level 0 and the blocks of levels 1 to 3.
#[repr(C)]
#[derive(Clone, Copy, Default)]
pub struct AboutStore {
    pub reason: u32,
    pub b: u32,
    pub w: u32,
    pub d: u32,
    pub g: u32,
    pub h: u32,
    pub p: u32,
    pub live: u32,
    pub limit: u32,
    pub top: u32,
    pub blocks1: u32,
    pub blocks2: u32,
    pub blocks3: u32,
}

// The reason that a put or delete would be turned down for, or 0, and its merges into level 1, 1 or 0.
#[repr(C)]
#[derive(Clone, Copy, Default)]
pub struct Forecast {
    pub reason: u32,
    pub merges: u32,
}

// Merges into a level, blocks written by them, blocks written compacting it.
#[repr(C)]
#[derive(Clone, Copy, Default)]
pub struct Counts {
    pub merges: u32,
    pub written: u32,
    pub compacted: u32,
}

// The reason or 0, 1 or 0 if the key was live before or not, and the counts of levels 1 to 3.
#[repr(C)]
#[derive(Clone, Copy, Default)]
pub struct Changed {
    pub reason: u32,
    pub live: u32,
    pub level1: Counts,
    pub level2: Counts,
    pub level3: Counts,
}

// Each answer of `store` as the struct that C is given, the number of a refusal and zeros where it is turned down: an enum cannot
// cross the border.
impl From<Result<u32, Refusal>> for Formatted {
    ghost from_gives = { λ answer reply. reply ≡ formatted_reply (format_answer answer) };

    fn from(answer: Result<u32, Refusal>) -> Formatted {
        match answer {
            Ok(limit) => Formatted { reason: 0, limit },
            Err(r) => Formatted {
                reason: u32::from(r),
                ..Formatted::default()
            },
        }
    }
}

impl From<Result<Option<u32>, Refusal>> for Looked {
    ghost from_gives = { λ answer reply. reply ≡ looked_reply (looked_answer answer) };

    fn from(answer: Result<Option<u32>, Refusal>) -> Looked {
        match answer {
            Ok(Some(payload)) => Looked {
                reason: 0,
                found: 1,
                payload,
            },
            Ok(None) => Looked::default(),
            Err(r) => Looked {
                reason: u32::from(r),
                ..Looked::default()
            },
        }
    }
}

impl From<Result<Option<(u32, u32)>, Refusal>> for Nexted {
    ghost from_gives = { λ answer reply. reply ≡ nexted_reply (nexted_answer answer) };

    fn from(answer: Result<Option<(u32, u32)>, Refusal>) -> Nexted {
        match answer {
            Ok(Some((key, payload))) => Nexted {
                reason: 0,
                found: 1,
                key: key,
                payload: payload,
            },
            Ok(None) => Nexted::default(),
            Err(r) => Nexted {
                reason: u32::from(r),
                ..Nexted::default()
            },
        }
    }
}

impl From<Result<Listed, Refusal>> for Stretched {
    ghost from_gives = { λ answer reply. reply ≡ stretched_reply (stretch_answer answer) };

    fn from(answer: Result<Listed, Refusal>) -> Stretched {
        match answer {
            Ok(listed) => Stretched {
                reason: 0,
                written: listed.written,
                more: u32::from(listed.more),
            },
            Err(r) => Stretched {
                reason: u32::from(r),
                ..Stretched::default()
            },
        }
    }
}

impl From<reader::Part> for Part {
    ghost from_gives = { λ part reply. reply ≡ part_reply part };

    fn from(part: reader::Part) -> Part {
        Part {
            start: part.start,
            length: part.length,
        }
    }
}

impl From<Result<Facts, Refusal>> for AboutStore {
    ghost from_gives = { λ answer reply. reply ≡ told_reply (told_answer answer) };

    fn from(answer: Result<Facts, Refusal>) -> AboutStore {
        match answer {
            Ok(f) => AboutStore {
                reason: 0,
                b: f.b,
                w: f.w,
                d: f.d,
                g: f.g,
                h: f.h,
                p: f.p,
                live: f.live,
                limit: f.limit,
                top: f.top,
                blocks1: f.blocks1,
                blocks2: f.blocks2,
                blocks3: f.blocks3,
            },
            Err(r) => AboutStore {
                reason: u32::from(r),
                ..AboutStore::default()
            },
        }
    }
}

impl From<Result<u32, Refusal>> for Forecast {
    ghost from_gives = { λ answer reply. reply ≡ forecast_reply (forecast_answer answer) };

    fn from(answer: Result<u32, Refusal>) -> Forecast {
        match answer {
            Ok(merges) => Forecast { reason: 0, merges },
            Err(r) => Forecast {
                reason: u32::from(r),
                ..Forecast::default()
            },
        }
    }
}

// That counts fit 32 bits is a law, so nothing is cut off. This one and the next are no `From`, which has no `requires`.
fn counts_reply(counts: steps::Counts) -> Counts
    requires { CountsFit (numbers_of counts) }
    ensures { result ≡ counts_reply (numbers_of counts) }
{
    Counts {
        merges: counts.merges as u32,
        written: counts.written as u32,
        compacted: counts.compacted as u32,
    }
}

fn change_reply(answer: Result<Change, Refusal>) -> Changed
    requires { SumsFit (changed_answer answer) }
    ensures { result ≡ changed_reply (changed_answer answer) }
{
    match answer {
        Ok(change) => Changed {
            reason: 0,
            live: u32::from(change.live),
            level1: counts_reply(change.tally[0]),
            level2: counts_reply(change.tally[1]),
            level3: counts_reply(change.tally[2]),
        },
        Err(r) => Changed {
            reason: u32::from(r),
            ..Changed::default()
        },
    }
}

// The words that the layout needs, or 0 for a geometry that breaks a limit.
#[unsafe(no_mangle)]
pub extern "C" fn mewilovang_words(b: u32, w: u32, d: u32, g: u32, h: u32, p: u32) -> usize
    ensures { result ≡ words_of (record { b = b; w = w; d = d; g = g; h = h; p = p }) }
{
    let Ok(t) = Geometry::new(b, w, d, g, h, p) else {
        return 0;
    };
    Layout::old(t).length
}

#[unsafe(no_mangle)]
#[tactic(auto, using(crate::proofs::Replying::format_replied))]
pub extern "C" fn mewilovang_format(
    store: &mut [u32],
    b: u32,
    w: u32,
    d: u32,
    g: u32,
    h: u32,
    p: u32,
) -> Formatted
    ensures { ◌≡◌ {A = Outcome Formatted} (record { answer = result; words = store.new })
        (formatted_outcome (format_of store.old (record { b = b; w = w; d = d; g = g; h = h; p = p }))) }
{
    Formatted::from(store::format(store, b, w, d, g, h, p))
}

#[unsafe(no_mangle)]
pub extern "C" fn mewilovang_check(store: &[u32]) -> u32
    ensures { result ≡ check_of store.now }
{
    match store::check(store) {
        Ok(()) => 0,
        Err(r) => u32::from(r),
    }
}

#[unsafe(no_mangle)]
pub extern "C" fn mewilovang_look_up(store: &[u32], key: u32) -> Looked
    ensures { result ≡ looked_reply (look_up_of store.now key) }
{
    Looked::from(store::look_up(store, key))
}

#[unsafe(no_mangle)]
pub extern "C" fn mewilovang_next(store: &[u32], key: u32) -> Nexted
    ensures { result ≡ nexted_reply (next_of store.now key) }
{
    Nexted::from(store::next(store, key))
}

#[unsafe(no_mangle)]
#[tactic(auto, using(crate::proofs::Replying::stretch_replied))]
pub extern "C" fn mewilovang_stretch(
    store: &[u32],
    first: u32,
    last: u32,
    keys: &mut [u32],
    payloads: &mut [u32],
) -> Stretched
    ensures { ◌≡◌ {A = StretchOutcome Stretched} (record { answer = result; keys = keys.new; pays = payloads.new })
        (stretched_outcome (stretch_of store.now first last keys.old payloads.old)) }
{
    Stretched::from(store::stretch(store, first, last, keys, payloads))
}

#[unsafe(no_mangle)]
pub extern "C" fn mewilovang_show(store: &[u32], level: u32, key: u32) -> Part
    ensures { result ≡ part_reply (show_part store.now level key) }
{
    Part::from(store::show_at(store, level, key))
}

#[unsafe(no_mangle)]
pub extern "C" fn mewilovang_about(store: &[u32]) -> AboutStore
    ensures { result ≡ told_reply (about_of store.now) }
{
    AboutStore::from(store::about(store))
}

// What a put, or a delete, of a key is going to do: if it merges, and the reason if it is turned down.
#[unsafe(no_mangle)]
pub extern "C" fn mewilovang_will_put_merge(store: &[u32], key: u32) -> Forecast
    ensures { result ≡ forecast_reply (will_put_merge_of store.now key) }
{
    Forecast::from(store::will_put_merge(store, key))
}

#[unsafe(no_mangle)]
pub extern "C" fn mewilovang_will_delete_merge(store: &[u32], key: u32) -> Forecast
    ensures { result ≡ forecast_reply (will_delete_merge_of store.now key) }
{
    Forecast::from(store::will_delete_merge(store, key))
}

#[unsafe(no_mangle)]
pub extern "C" fn mewilovang_put(store: &mut [u32], key: u32, payload: u32) -> Changed
    ensures { PutReplied store.old key payload result store.new }
{
    change_reply(store::put(store, key, payload))
}

#[unsafe(no_mangle)]
pub extern "C" fn mewilovang_delete(store: &mut [u32], key: u32) -> Changed
    ensures { DeleteReplied store.old key result store.new }
{
    change_reply(store::delete(store, key))
}

// Put, and a ticket for each of its merges into the caller's list, in their order, as many as fit.
#[unsafe(no_mangle)]
pub extern "C" fn mewilovang_put_tickets(
    store: &mut [u32],
    key: u32,
    payload: u32,
    tickets: &mut [Ticket],
) -> Changed
    ensures { PutReplied store.old key payload result store.new
        × (tickets.new ≡ laid (put_tickets store.old key payload) tickets.old) }
{
    change_reply(store::put_tickets(store, key, payload, tickets))
}

#[unsafe(no_mangle)]
pub extern "C" fn mewilovang_delete_tickets(
    store: &mut [u32],
    key: u32,
    tickets: &mut [Ticket],
) -> Changed
    ensures { DeleteReplied store.old key result store.new
        × (tickets.new ≡ laid (delete_tickets store.old key) tickets.old) }
{
    change_reply(store::delete_tickets(store, key, tickets))
}
