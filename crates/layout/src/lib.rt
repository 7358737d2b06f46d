// Where the words of a store stand, as a value: a form of the store is one such value, made by its constructor, and everything
// above asks the value. Today there is document 01's form.
#![tactic(auto)]

ghost use Rattle.std.specs.Prelude.{◌≡◌, ◌≤◌};
ghost use Rattle.geometry.specs.Geometry.{Valid};
ghost use Rattle.geometry.specs.Room.{places_most};
ghost use Rattle.layout.specs.Layouts.{old, list_start, place_start, Proper};
ghost use Rattle.layout.specs.Opening.{fit_of, opened_of};

use geometry::{Geometry, Refusal};

// The geometry, and word numbers: of the first of the geometry's six words, of live, of hand and of c, behind which stand the block
// counts of levels 1 to 3; of the first mark word, key and payload of level 0; of the first entry of level 1's place list, behind
// which stand the lists of the levels below; of the first word of place 0. The places are last, and `length` is the number of words.
#[derive(Clone, Copy)]
pub struct Layout {
    pub geo: Geometry,
    pub six: usize,
    pub live: usize,
    pub hand: usize,
    pub count: usize,
    pub marks: usize,
    pub keys: usize,
    pub pays: usize,
    pub lists: usize,
    pub places: usize,
    pub length: usize,
}

impl Layout {
    // Document 01's form.
    pub fn old(g: Geometry) -> Layout
        requires { Valid g }
        ensures { result ≡ old g }
    {
        let top = g.capacity(0);
        let records = g.top_capacity();
        let marks = 12;
        let keys = marks + top;
        let pays = keys + records;
        let lists = pays + records;
        let places = lists + g.flash_capacity();
        let area = g.places() * g.block_width();
        let length = places + area;
        Layout {
            geo: g,
            six: 0,
            live: 6,
            hand: 7,
            count: 8,
            marks: marks,
            keys: keys,
            pays: pays,
            lists: lists,
            places: places,
            length: length,
        }
    }

    // The first entry of the place list of a level from 1 on; of level h + 1, the end of the lists.
    pub fn list_start(self, level: usize) -> usize
        requires { Proper self × ((1 ≤ level) × (level ≤ 4)) }
        ensures { result ≡ list_start self level }
    {
        let g = self.geo;
        let before = g.capacity_sum(1, level - 1);
        self.lists + before
    }

    // The first word of a place.
    pub fn place_start(self, place: usize) -> usize
        requires { Proper self × (place ≤ places_most) }
        ensures { result ≡ place_start self place }
    {
        let g = self.geo;
        let width = g.block_width();
        let before = place * width;
        self.places + before
    }
}

// The layout of six words for a store of n words, or why it is turned down (reasons 1 to 3; the form check of crate `form` goes on
// from here to reason 4). The length is tested first: it is the first reason.
pub fn fit(n: usize, b: u32, w: u32, d: u32, g: u32, h: u32, p: u32) -> Result<Layout, Refusal>
    ensures { result ≡ fit_of n (record { b = b; w = w; d = d; g = g; h = h; p = p }) }
{
    if n < 12 {
        return Err(Refusal::TooShort);
    }
    let z = Layout::old(Geometry::new(b, w, d, g, h, p)?);
    if n == z.length {
        return Ok(z);
    }
    Err(Refusal::WrongLength)
}

// The layout that the first six words of a lent store give. A store of fewer than 12 words may not have them.
pub fn open(s: &[u32]) -> Result<Layout, Refusal>
    ensures { result ≡ opened_of s.now }
{
    if s.len() < 12 {
        return Err(Refusal::TooShort);
    }
    fit(s.len(), s[0], s[1], s[2], s[3], s[4], s[5])
}
