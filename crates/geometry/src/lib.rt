// The geometry of a store: six numbers set by format, their limits and the capacities that follow from them (document 01, "Geometry").
#![tactic(auto)]

ghost use Rattle.std.specs.Prelude.{◌≡◌, ◌+◌, ◌^◌, ◌≤◌, Some};
ghost use Rattle.geometry.specs.Geometry.{capacity_of, window_of, capacity_sum, flash_capacity_of, key_limit_of, in_ranges, in_sizes, built_of, Ranged, block_width, top_capacity_of};
ghost use Rattle.geometry.specs.Refusals.{number_of, text_of};

use std::error::Error;
use std::fmt;

// The fields are private, so that a geometry outside this crate comes from `new` and keeps every limit.
#[derive(Clone, Copy)]
pub struct Geometry {
    b: usize,
    w: usize,
    d: usize,
    g: usize,
    h: usize,
    p: usize,
}

// Why a call is turned down (document 01, "Why a call is turned down"), in the order of the tests.
#[derive(Clone, Copy, Debug, PartialEq, Eq)]
pub enum Refusal {
    TooShort,
    BrokenLimit,
    WrongLength,
    Damaged,
    Full,
}

// Document 01's number of a reason.
impl From<Refusal> for u32 {
    ghost from_gives = { λ r n. n ≡ number_of r };

    fn from(r: Refusal) -> u32 {
        match r {
            Refusal::TooShort => 1,
            Refusal::BrokenLimit => 2,
            Refusal::WrongLength => 3,
            Refusal::Damaged => 4,
            Refusal::Full => 5,
        }
    }
}

impl fmt::Display for Refusal {
    ghost output = { λ r. Some (text_of r) };

    fn fmt<W: fmt::Write>(&self, f: &mut fmt::Formatter<W>) -> fmt::Result {
        f.write_str(match self {
            Refusal::TooShort => "the store has fewer than 12 words",
            Refusal::BrokenLimit => "the geometry breaks a limit",
            Refusal::WrongLength => "the length is not the one that the geometry needs",
            Refusal::Damaged => "the store is damaged",
            Refusal::Full => "the store is full",
        })
    }
}

impl Error for Refusal {}

// g to the power i, for the few powers that a store has.
fn power(g: usize, i: usize) -> usize
    requires { (g ≤ 10) × (i ≤ 3) }
    ensures { result ≡ g ^ i }
{
    match i {
        0 => 1,
        1 => g,
        2 => g * g,
        _ => g * g * g,
    }
}

// The limits of document 01's "Geometry". Contracts write the numbers out: they cannot name a constant of the code.
impl Geometry {
    pub const MIN_B: usize = 2;

    pub const MAX_B: usize = 16;

    pub const MIN_W: usize = 1;

    pub const MAX_W: usize = 16;

    pub const MIN_D: usize = 2;

    pub const MAX_D: usize = 16;

    pub const MIN_G: usize = 2;

    pub const MAX_G: usize = 10;

    pub const MIN_H: usize = 1;

    pub const MAX_H: usize = 3;

    pub const MAX_P: usize = 8192;

    pub const MAX_BOTTOM: usize = 1024;

    // Room for a level's place list in a work array: during a call a list has at most 2 × K(i) entries, which is 2,048 at most, and
    // a merge builds the new list of a level before the old one is given up.
    pub const LIST_ROOM: usize = 4096;

    // Every six words are legal input. The tests of the ranges come first, so that no product overflows.
    pub fn new(b: u32, w: u32, d: u32, g: u32, h: u32, p: u32) -> Result<Geometry, Refusal>
        ensures { result ≡ built_of (record { b = b; w = w; d = d; g = g; h = h; p = p }) }
    {
        let s = Geometry {
            b: b as usize,
            w: w as usize,
            d: d as usize,
            g: g as usize,
            h: h as usize,
            p: p as usize,
        };
        if s.in_ranges() {
            if s.in_sizes() {
                return Ok(s);
            }
        }
        Err(Refusal::BrokenLimit)
    }

    // `&` and not `&&`: the value is then the definition's, test for test.
    fn in_ranges(self) -> bool
        ensures { result ≡ in_ranges self }
    {
        ((Geometry::MIN_B <= self.b) & (self.b <= Geometry::MAX_B))
            & (((Geometry::MIN_W <= self.w) & (self.w <= Geometry::MAX_W))
                & (((Geometry::MIN_D <= self.d) & (self.d <= Geometry::MAX_D))
                    & (((Geometry::MIN_G <= self.g) & (self.g <= Geometry::MAX_G))
                        & ((Geometry::MIN_H <= self.h) & (self.h <= Geometry::MAX_H)))))
    }

    // The limits on sums and products. They cannot overflow within the ranges.
    fn in_sizes(self) -> bool
        requires { Ranged self }
        ensures { result ≡ in_sizes self }
    {
        let h = self.h;
        let bottom = self.capacity(h);
        let flash = self.flash_capacity();
        let limit = self.key_limit();
        (self.p <= Geometry::MAX_P)
            & ((bottom <= Geometry::MAX_BOTTOM) & ((4 * flash + 8 <= self.p) & (1 <= limit)))
    }

    // K(i), the blocks that a level may hold.
    pub fn capacity(self, level: usize) -> usize
        requires { Ranged self × (level ≤ 3) }
        ensures { result ≡ capacity_of self level }
    {
        let g = self.g;
        self.w * self.d * power(g, level)
    }

    // W(i), the blocks of a run.
    pub fn window(self, level: usize) -> usize
        requires { Ranged self × (level ≤ 3) }
        ensures { result ≡ window_of self level }
    {
        let g = self.g;
        let f = power(g, level);
        self.w * f
    }

    // The capacities of `n` levels from `first` on, together.
    pub fn capacity_sum(self, first: usize, n: usize) -> usize
        requires { Ranged self × (first + n ≤ 4) }
        ensures { result ≡ capacity_sum self first n }
    {
        let mut sum: usize = 0;
        for i in 0..n {
            sum += self.capacity(first + i);
        }
        sum
    }

    // S, the blocks that the levels on flash may list.
    pub fn flash_capacity(self) -> usize
        requires { Ranged self }
        ensures { result ≡ flash_capacity_of self }
    {
        let h = self.h;
        self.capacity_sum(1, h)
    }

    // N, the most keys that the map may hold.
    pub fn key_limit(self) -> usize
        requires { Ranged self }
        ensures { result ≡ key_limit_of self }
    {
        let h = self.h;
        let b = self.b;
        let room = 4 * b * self.capacity(h) / 5;
        let above = b * self.capacity_sum(0, h);
        if room <= above { 0 } else { room - above }
    }

    // B, the records of a full block.
    pub fn block_records(self) -> usize
        ensures { result ≡ self.b }
    {
        self.b
    }

    // h, the number of levels on flash.
    pub fn levels(self) -> usize
        ensures { result ≡ self.h }
    {
        self.h
    }

    // P, the number of places.
    pub fn places(self) -> usize
        ensures { result ≡ self.p }
    {
        self.p
    }

    // The records that level 0 has room for.
    pub fn top_capacity(self) -> usize
        requires { Ranged self }
        ensures { result ≡ top_capacity_of self }
    {
        let b = self.b;
        self.capacity(0) * b
    }

    // The words of a place.
    pub fn block_width(self) -> usize
        requires { Ranged self }
        ensures { result ≡ block_width self }
    {
        2 + 2 * self.b
    }
}
