// Steps 3 and 4 of a merge, from the place lists of two levels to the new list of the lower one.
#![tactic(auto)]

ghost use Rattle.std.specs.Prelude.{◌≡◌, ◌+◌, ◌-◌, ◌≤◌};
ghost use Rattle.levels.specs.Place.{Allocation, settle};
ghost use Rattle.blocks.specs.Blocks.{Marks};
ghost use Rattle.geometry.specs.Room.{list_room};
ghost use Rattle.merging.specs.Contract.{merge_of, Mergeable, Leaves, inputs_of, begin_of, limit_of};

use blocks::{Buffer, Offsets};
use geometry::Geometry;
use layout::Layout;
use stream::{Desk, Inputs, Point, Progress};

// Where a merge's blocks stand: X is the chunks x to xend of the upper level, the lower level's list
// the entries start to end of an array, and Y the entries y to yend of it; X may be pages of level 0,
// and the lower level may be level h.
#[derive(Clone, Copy)]
pub struct Cut {
    pub x: usize,
    pub xend: usize,
    pub start: usize,
    pub y: usize,
    pub yend: usize,
    pub end: usize,
    pub pages: bool,
    pub bottom: bool,
}

// What a merge answers: the length of the new list, the allocation cursor, the blocks written.
#[derive(Clone, Copy)]
pub struct Merged {
    pub count: usize,
    pub cursor: usize,
    pub writes: usize,
}

impl Cut {
    // The ends of X and Y.
    fn inputs(self) -> Inputs
        ensures { result ≡ inputs_of self }
    {
        Inputs {
            x: self.xend,
            y: self.yend,
            pages: self.pages,
            bottom: self.bottom,
        }
    }

    // The merge begins at X's and Y's first records; the blocks before Y are listed already.
    fn begin(self, cursor: usize) -> Progress
        requires { self.start ≤ self.y }
        ensures { result ≡ begin_of self cursor }
    {
        let x = Point { i: self.x, j: 0 };
        let y = Point { i: self.y, j: 0 };
        Progress {
            x: x,
            y: y,
            m: self.y - self.start,
            writes: 0,
            cursor: cursor,
            buf: Buffer::default(),
        }
    }

    // Steps enough: a block has at most 16 records, and each step reads one or more.
    fn limit(self) -> usize
        requires { (self.x ≤ self.xend) × (self.xend ≤ list_room) × (self.y ≤ self.yend) × (self.yend ≤ list_room) }
        ensures { result ≡ limit_of self }
    {
        16 * ((self.xend - self.x) + (self.yend - self.y))
    }
}

// Steps 3 and 4 of a merge. For every list of places in use that the marks stand for, the words, the
// new list, the cursor and the marks afterwards are those of the merged level, its new blocks settled
// in key order; the new list is on the desk.
pub fn merge_blocks(
    s: &mut [u32],
    desk: &mut Desk,
    xs: &[u32; Geometry::LIST_ROOM],
    ys: &[u32; Geometry::LIST_ROOM],
    z: Layout,
    parts: Cut,
    cursor: usize,
) -> Merged
    requires { Mergeable z s.old desk.old.used desk.old.out xs.now ys.now parts cursor }
    ensures { (a : Allocation) → a.cursor ≡ cursor → Marks desk.old.used a.used
        → Leaves z (settle z.geo.p a (merge_of z s.old xs.now ys.now parts)) s.old s.new desk.new.used desk.new.out result }
{
    let o = Offsets::of(z);
    let t = parts.inputs();
    let start = parts.start;
    let y = parts.y;
    let end = parts.end;
    desk.st = parts.begin(cursor);
    let limit = parts.limit();
    stream::copy_list(ys, start, y - start, &mut desk.out, 0);
    desk.stream(s, xs, ys, o, t, limit);
    joins::close(s, desk, ys, o, end);
    Merged {
        count: desk.st.m,
        cursor: desk.st.cursor,
        writes: desk.st.writes,
    }
}
