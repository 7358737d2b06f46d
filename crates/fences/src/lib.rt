// The fences of a level, its blocks' first and last keys, read out of the lent words: of the blocks of a place list, and of the
// pages of level 0. What is chosen by them is chosen in `choice`, which sees no words.
#![tactic(auto)]

ghost use Rattle.std.specs.Prelude.{◌≡◌, ℕ, ◌*◌, ◌≤◌, ◌<◌, length};
ghost use Rattle.geometry.specs.Geometry.{top_capacity_of};
ghost use Rattle.layout.specs.Layouts.{Fitted};
ghost use Rattle.words.specs.Stores.{word, top_count_at};
ghost use Rattle.fences.specs.Reading.{fill, listed_fence, page_fence, Readable};

use choice::Fence;
use layout::Layout;

// The fences of the blocks of a place list, into as many entries.
pub fn fence_blocks(s: &[u32], z: Layout, list: &[u32], fences: &mut [Fence])
    requires { Fitted z s.now × ((length list.now ≤ length fences.old) × ((i : ℕ) → i < length list.now → Readable z s.now (word list.now i))) }
    ensures { fences.new ≡ fill (listed_fence z s.now list.now) (length list.now) fences.old }
{
    for (i, place) in list.iter().enumerate() {
        let at = z.place_start(*place as usize);
        let count = s[at] as usize;
        fences[i] = Fence {
            first: s[at + 2],
            last: s[at + 1 + count],
        };
    }
}

// The fences of the first pages of level 0, one into each entry. They are full: so their keys stand without a gap.
pub fn fence_pages(s: &[u32], z: Layout, fences: &mut [Fence])
    requires { Fitted z s.now × ((length fences.old * z.geo.b ≤ top_count_at z s.now) × (top_count_at z s.now ≤ top_capacity_of z.geo)) }
    ensures { fences.new ≡ fill (page_fence z s.now) (length fences.old) fences.old }
{
    let b = z.geo.block_records();
    for i in 0..fences.len() {
        let at = z.keys + i * b;
        fences[i] = Fence {
            first: s[at],
            last: s[at + b - 1],
        };
    }
}
