// Step 4 of a merge: a leftover joins the block before it, the last block joins the block after Y,
// and the blocks after Y follow.
#![tactic(auto)]

ghost use Rattle.std.specs.Prelude.{◌≡◌, ◌+◌, ◌-◌, ◌*◌, ◌%◌, ◌≤◌, ◌<◌, length, get_or};
ghost use Rattle.blocks.specs.Blocks.{start_of};
ghost use Rattle.blocks.specs.Room.{list_room};
ghost use Rattle.stream.specs.Machine.{memory};
ghost use Rattle.joins.specs.Joins.{Clean, Loadable, appended, joined, Pullable, pulled, Lefts, left_joined, Afters, after_taken, after_joined, Closable, closed};

use blocks::{Buffer, Offsets};
use stream::{Desk, Point};

// Records after those of a buffer: their keys, payloads and mark word.
fn append(a: Buffer, keys: &[u32], pays: &[u32], marks: u32) -> Buffer
    requires { Clean a × (length pays.now ≡ length keys.now) × (a.n + length keys.now ≤ 16) }
    ensures { result ≡ joined a keys.now pays.now marks (length keys.now) }
{
    let mut r = a;
    for (j, &k) in keys.iter().enumerate() {
        r = r.push(k, (marks >> j) % 2, pays[j]);
    }
    r
}

// The first n records of the block whose words start at `at`, after those of the buffer.
fn append_words(s: &[u32], z: Offsets, at: usize, n: usize, buf: Buffer) -> Buffer
    requires { (at + (2 + 2 * z.b) ≤ length s.now) × (n ≤ z.b) × (z.b ≤ 16) × (buf.n + n ≤ 16) × Clean buf }
    ensures { result ≡ appended z.b s.now at buf n }
{
    let keys = at + 2;
    let pays = keys + z.b;
    append(buf, &s[keys..keys + n], &s[pays..pays + n], s[at + 1])
}

// The records of the block at place q, after those of the buffer.
fn append_block(s: &[u32], z: Offsets, q: usize, buf: Buffer) -> Buffer
    requires { Loadable z s.now q buf }
    ensures { result ≡ appended z.b s.now (start_of z q) buf (get_or s.now (start_of z q) 0) }
{
    let at = blocks::place_start(z, q);
    let n = slices::word(s, at);
    append_words(s, z, at, n, buf)
}

// The last block listed is taken back: its records stand before those of the buffer.
fn pull_last(s: &[u32], desk: &mut Desk, z: Offsets)
    requires { Pullable z s.now desk.old.out desk.old.st }
    ensures { desk.new ≡ record desk.old { st = pulled z s.now desk.old.out desk.old.st } }
{
    let m = desk.st.m - 1;
    let q = desk.out[m] as usize;
    let last = append_block(s, z, q, Buffer::default());
    desk.st.m = m;
    let buf = desk.st.buf;
    let n = buf.n;
    desk.st.buf = append(last, &buf.keys[..n], &buf.pays[..n], buf.marks);
}

// A leftover that with the last block holds B or fewer joins it.
fn join_left(s: &[u32], desk: &mut Desk, z: Offsets)
    requires { Lefts z s.now desk.old.out desk.old.st }
    ensures { desk.new ≡ record desk.old { st = left_joined z s.now desk.old.out desk.old.st } }
{
    let n = desk.st.buf.n;
    if n == 0 {
        return;
    }
    let e = sides::last_size(s, z, &desk.out, desk.st.m);
    let b = z.b;
    if e + n <= b {
        pull_last(s, desk, z);
    }
}

// The block after Y joins the buffer.
fn take_after(s: &[u32], desk: &mut Desk, z: Offsets, q: usize)
    requires { Loadable z s.now q desk.old.st.buf × (desk.old.st.y.i < list_room) }
    ensures { desk.new ≡ record desk.old { st = after_taken z s.now q desk.old.st } }
{
    desk.st.y = Point {
        i: desk.st.y.i + 1,
        j: 0,
    };
    desk.st.buf = append_block(s, z, q, desk.st.buf);
}

// The buffer, or if it is empty the last block, joins the block after Y by the same rule.
fn join_after(s: &[u32], desk: &mut Desk, ys: &[u32; blocks::LIST_ROOM], z: Offsets, end: usize)
    requires { Afters z s.now desk.old.out ys.now desk.old.st end }
    ensures { desk.new ≡ record desk.old { st = after_joined z s.now desk.old.out ys.now desk.old.st end } }
{
    let i = desk.st.y.i;
    if end <= i {
        return;
    }
    let q = ys[i] as usize;
    let at = blocks::place_start(z, q);
    let size = slices::word(s, at);
    let n = desk.st.buf.n;
    let b = z.b;
    if n == 0 {
        let e = sides::last_size(s, z, &desk.out, desk.st.m);
        if e + size <= b {
            pull_last(s, desk, z);
            take_after(s, desk, z, q);
        }
        return;
    }
    if n + size <= b {
        take_after(s, desk, z, q);
    }
}

// Step 4 of a merge: the joins, the last write, and the blocks after.
pub fn close(s: &mut [u32], desk: &mut Desk, ys: &[u32; blocks::LIST_ROOM], z: Offsets, end: usize)
    requires { Closable z ys.now end (memory s.old desk.old) }
    ensures { memory s.new desk.new ≡ closed z ys.now end (memory s.old desk.old) }
{
    join_left(s, desk, z);
    join_after(s, desk, ys, z, end);
    desk.flush(s, z);
    let m = desk.st.m;
    let from = desk.st.y.i;
    let rest = end - from;
    stream::copy_list(ys, from, rest, &mut desk.out, m);
    desk.st.m = m + rest;
}
