// Step 3 of a merge: X and Y are read in key order, blocks are reused or their records gathered.
#![tactic(auto)]

ghost use Rattle.std.specs.Prelude.{◌≡◌, true, false, ℕ, ◌+◌, ◌-◌, ◌≤◌, ◌<◌, is_some, length, take, drop};
ghost use Rattle.slices.specs.Slices.{put_at};
ghost use Rattle.std.specs.Option.{ForSome};
ghost use Rattle.blocks.specs.Room.{places_most, list_room};
ghost use Rattle.sides.specs.Sides.{Searchable, first};
ghost use Rattle.stream.specs.Machine.{memory, Flushable, Gatherable, Movable, Choosable, Standing, Runnable, Ahead, Grows, Ready, Turned, flushed, reused, gathered, gathered_run, begin_at, fresh_desk, point_after, chosen, emitted_run, turns, idle};

use blocks::{Buffer, Offsets};
use sides::Head;

// Where a side stands: its next block, and the next record of that block.
#[derive(Clone, Copy)]
pub struct Point {
    pub i: usize,
    pub j: usize,
}

// Where the merge stands: the points of X and of Y, the blocks listed so far, the blocks written
// so far, the allocation cursor and the buffer.
#[derive(Clone, Copy)]
pub struct Progress {
    pub x: Point,
    pub y: Point,
    pub m: usize,
    pub writes: usize,
    pub cursor: usize,
    pub buf: Buffer,
}

// What a merge works at besides the words: the marks of the places in use, the list that it builds, and where it stands. It is
// large, so it is made once for a merge and lent.
#[derive(Drop)]
pub struct Desk {
    pub used: [bool; blocks::PLACES],
    pub out: [u32; blocks::LIST_ROOM],
    pub st: Progress,
}

// What a step does: where X and Y stand then, the record that comes, and the place of its block, if the whole block follows as it
// stands.
#[derive(Clone, Copy)]
pub struct Move {
    pub x: Point,
    pub y: Point,
    pub head: Head,
    pub whole: Option<usize>,
}

// A move, and how many records more of the same block are gathered with its record, which is record `from` of the block.
#[derive(Clone, Copy)]
pub struct Run {
    pub next: Move,
    pub from: usize,
    pub more: usize,
}

// The ends of X and of Y in their lists, whether X is pages of level 0, whether the merge is into
// level h.
#[derive(Clone, Copy)]
pub struct Inputs {
    pub x: usize,
    pub y: usize,
    pub pages: bool,
    pub bottom: bool,
}

// n entries of one place list, from entry `from` on, to those of another, from entry `to` on. A loop, and not the library's copy:
// between two lists that are lent that one calls memmove, and the library for C calls memcpy and memset alone (include/mewilovang.h).
pub fn copy_list(list: &[u32], from: usize, n: usize, out: &mut [u32], to: usize)
    requires { (from + n ≤ length list.now) × (to + n ≤ length out.old) }
    ensures { out.new ≡ put_at to (take n (drop from list.now)) out.old }
{
    for i in 0..n {
        out[to + i] = list[from + i];
    }
}

impl Progress {
    // Nothing is read, gathered, listed or written yet; free places are looked for after the cursor.
    pub fn begin(cursor: usize) -> Progress
        ensures { result ≡ begin_at cursor }
    {
        let start = Point { i: 0, j: 0 };
        Progress {
            x: start,
            y: start,
            m: 0,
            writes: 0,
            cursor: cursor,
            buf: Buffer::default(),
        }
    }
}

impl Desk {
    // No place is marked, and nothing is listed.
    pub fn new() -> Desk
        ensures { result ≡ fresh_desk }
    {
        Desk {
            used: [false; blocks::PLACES],
            out: [0; blocks::LIST_ROOM],
            st: Progress::begin(0),
        }
    }

    // A buffer that is not empty is written at the first free place after the cursor, and listed.
    pub fn flush(&mut self, s: &mut [u32], z: Offsets)
        requires { Flushable z s.old self.old.used self.old.st }
        ensures { memory s.new self.new ≡ flushed z (memory s.old self.old) }
    {
        let buf = self.st.buf;
        let n = buf.n;
        if n == 0 {
            return;
        }
        let m = self.st.m;
        let q = blocks::first_free(&self.used, z.p, self.st.cursor);
        self.used[q] = true;
        blocks::write_block(s, z, q, buf);
        self.out[m] = q as u32;
        self.st.m = m + 1;
        self.st.writes = self.st.writes + 1;
        self.st.cursor = q;
        self.st.buf = Buffer::default();
    }

    // The buffer is written, and the block at place q follows as it stands.
    fn reuse(&mut self, s: &mut [u32], z: Offsets, q: usize)
        requires { Flushable z s.old self.old.used self.old.st × (self.old.st.m + 2 ≤ list_room) × (q < places_most) }
        ensures { memory s.new self.new ≡ reused z (memory s.old self.old) q }
    {
        self.flush(s, z);
        let m = self.st.m;
        self.out[m] = q as u32;
        self.st.m = m + 1;
    }

    // One record into the buffer, which is written when it has B; the last level drops tombstones.
    pub fn gather(&mut self, s: &mut [u32], z: Offsets, bottom: bool, head: Head)
        requires { Flushable z s.old self.old.used self.old.st × Gatherable z self.old.st × (head.tombstone < 2) }
        ensures { memory s.new self.new ≡ gathered z bottom (memory s.old self.old) head }
    {
        if bottom & (head.tombstone == 1) {
            return;
        }
        let buf = self.st.buf;
        let more = buf.push(head.key, head.tombstone, head.pay);
        self.st.buf = more;
        if z.b <= more.n {
            self.flush(s, z);
        }
    }
}

impl Point {
    // Past the whole block, or past one record of a block of n.
    fn after(self, n: usize, whole: bool) -> Point
        requires { (self.i < list_room) × (self.j < 16) }
        ensures { result ≡ point_after self n whole }
    {
        let j = self.j + 1;
        if whole | (n <= j) {
            return Point {
                i: self.i + 1,
                j: 0,
            };
        }
        Point { i: self.i, j: j }
    }
}

impl Move {
    // The move with `more` records more, after record `from` of the block.
    fn run(self, from: usize, more: usize) -> Run
        ensures { result ≡ (record { next = self; from = from; more = more }) }
    {
        Run {
            next: self,
            from: from,
            more: more,
        }
    }
}

// The side whose record comes first moves on; of equal keys the upper record comes, and the lower
// is passed over. The last block has e records. None: both sides are used up.
fn choose(
    s: &[u32],
    z: Offsets,
    bottom: bool,
    st: Progress,
    x: Option<Head>,
    y: Option<Head>,
    e: usize,
) -> Option<Move>
    requires { Choosable z s.now st.x st.y x y st.buf.n e }
    ensures { result ≡ chosen z bottom s.now st.x st.y x y st.buf.n e }
{
    let n = st.buf.n;
    if let Some(b) = y
        && sides::before(y, x)
    {
        let whole = sides::reusable(s, z, bottom, b, x, n, e);
        return Some(Move {
            x: st.x,
            y: st.y.after(b.n, whole.is_some()),
            head: b,
            whole: whole,
        });
    }
    if let Some(a) = x
        && sides::before(x, y)
    {
        let whole = sides::reusable(s, z, bottom, a, y, n, e);
        return Some(Move {
            x: st.x.after(a.n, whole.is_some()),
            y: st.y,
            head: a,
            whole: whole,
        });
    }
    let (Some(a), Some(b)) = (x, y) else {
        return None;
    };
    Some(Move {
        x: st.x.after(a.n, false),
        y: st.y.after(b.n, false),
        head: a,
        whole: None,
    })
}

// How many records of a's block after record j come before the other side's next, `room` at most.
fn ahead(s: &[u32], a: Head, j: usize, other: Option<Head>, room: usize) -> usize
    requires { (j < a.n) × Searchable s.now a }
    ensures { Ahead s.now a other j room result }
{
    let left = (a.n - j - 1).min(room);
    let Some(b) = other else {
        return left;
    };
    slices::count_below(s, a.keys + (j + 1), left, b.key as usize)
}

// A record that is gathered takes those of its block with it that come next, as many as the buffer has room for.
fn run_on(s: &[u32], z: Offsets, st: Progress, next: Move, x: Option<Head>, y: Option<Head>) -> Run
    requires { (z.b ≤ 16) × (st.buf.n < z.b) × (first x y ≡ true → Standing s.now st.x next.head) × (first y x ≡ true → Standing s.now st.y next.head) }
    ensures { Grows s.now st.x st.y x y next (z.b - st.buf.n - 1) result }
{
    let px = st.x;
    let py = st.y;
    let buf = st.buf;
    let room = z.b - buf.n - 1;
    let head = next.head;
    let mut m = next;
    if next.whole.is_some() {
        return m.run(0, 0);
    }
    if sides::before(y, x) {
        let more = ahead(s, head, py.j, x, room);
        let last = Point {
            i: py.i,
            j: py.j + more,
        };
        m.y = last.after(head.n, false);
        return m.run(py.j, more);
    }
    if sides::before(x, y) {
        let more = ahead(s, head, px.j, y, room);
        let last = Point {
            i: px.i,
            j: px.j + more,
        };
        m.x = last.after(head.n, false);
        return m.run(px.j, more);
    }
    m.run(px.j, 0)
}

impl Desk {
    // The records of a run into the buffer, which is written when it has B; the last level drops tombstones.
    fn gather_run(&mut self, s: &mut [u32], z: Offsets, bottom: bool, run: Run)
        requires { Flushable z s.old self.old.used self.old.st × Runnable z s.old self.old.st run }
        ensures { memory s.new self.new ≡ gathered_run z bottom (memory s.old self.old) run }
    {
        let buf = &mut self.st.buf;
        let next = run.next;
        let head = next.head;
        let from = run.from;
        let end = run.more + 1;
        for k in 0..end {
            let i = from + k;
            let t = (head.marks >> i) % 2;
            if !(bottom & (t == 1)) {
                let n = buf.n;
                buf.keys[n] = s[head.keys + i];
                buf.pays[n] = s[head.pays + i];
                buf.marks = buf.marks + (t << n);
                buf.n = n + 1;
            }
        }
        let n = buf.n;
        if z.b <= n {
            self.flush(s, z);
        }
    }

    // The sides move on, and the block follows as it stands, or its next records are gathered. A step
    // calls this at one place only, so that it is compiled into the loop.
    fn emit(&mut self, s: &mut [u32], z: Offsets, bottom: bool, run: Run)
        requires { Movable z s.old self.old.used self.old.st × ForSome run.next.whole (λ q. q < places_most) × (is_some run.next.whole ≡ false → Runnable z s.old self.old.st run) }
        ensures { memory s.new self.new ≡ emitted_run z bottom (memory s.old self.old) run }
    {
        let next = run.next;
        self.st.x = next.x;
        self.st.y = next.y;
        if let Some(q) = next.whole {
            self.reuse(s, z, q);
            return;
        }
        self.gather_run(s, z, bottom, run);
    }

    // One step of the merge: the block that stands next is reused, or its next records are gathered in one go; of equal keys the upper
    // record stands alone. Where both sides are used up nothing is left to do.
    pub fn step(
        &mut self,
        s: &mut [u32],
        xs: &[u32; blocks::LIST_ROOM],
        ys: &[u32; blocks::LIST_ROOM],
        z: Offsets,
        t: Inputs,
    )
        requires { Ready z t xs.now ys.now (memory s.old self.old) }
        ensures { Turned z t xs.now ys.now 1 (memory s.old self.old) (memory s.new self.new) }
    {
        let st = self.st;
        let px = st.x;
        let py = st.y;
        let bottom = t.bottom;
        let x = sides::peek(s, z, t.pages, xs, px.i, px.j, t.x);
        let y = sides::peek(s, z, false, ys, py.i, py.j, t.y);
        let e = sides::last_size(s, z, &self.out, st.m);
        let Some(next) = choose(s, z, bottom, st, x, y, e) else {
            return;
        };
        let run = run_on(s, z, st, next, x, y);
        self.emit(s, z, bottom, run);
    }

    // The merge of the two sides, in at most `limit` steps.
    pub fn stream(
        &mut self,
        s: &mut [u32],
        xs: &[u32; blocks::LIST_ROOM],
        ys: &[u32; blocks::LIST_ROOM],
        z: Offsets,
        t: Inputs,
        limit: usize,
    )
        requires ready { (i : ℕ) → i ≤ limit → Ready z t xs.now ys.now (turns z t xs.now ys.now i (memory s.old self.old)) }
        requires ends { idle z t xs.now ys.now (turns z t xs.now ys.now limit (memory s.old self.old)) ≡ true }
        ensures { memory s.new self.new ≡ turns z t xs.now ys.now limit (memory s.old self.old) }
    {
        let xe = t.x;
        let ye = t.y;
        for k in 0..limit {
            let px = self.st.x;
            let py = self.st.y;
            if (xe <= px.i) & (ye <= py.i) {
                return;
            }
            self.step(s, xs, ys, z, t);
        }
    }
}
