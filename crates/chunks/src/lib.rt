// Chunks: what a page of level 0 and a listed block have in common, so that every reading of records is
// written and proved once for both.
#![tactic(auto)]

ghost use Rattle.std.specs.Prelude.{◌≡◌, ◌+◌, ◌≤◌, length};
ghost use Rattle.chunks.specs.Chunks.{Inside, rise_of, clean_of, zeros_at};

// Records in a row: their mark word, the words where their keys and their payloads start, and how many they are.
#[derive(Clone, Copy)]
pub struct Chunk {
    pub marks: u32,
    pub keys: usize,
    pub pays: usize,
    pub count: usize,
}

// The n words from word `start` on are 0.
pub fn zeros(s: &[u32], start: usize, n: usize) -> bool
    requires { start + n ≤ length s.now }
    ensures { result ≡ zeros_at s.now start n }
{
    s[start..start + n].iter().all(|&x| x == 0)
}

// What `rise_over` finds where no mark bit is set: whether the keys of a chunk rise strictly from `low` on. It leaves
// the payloads alone, and takes two keys at a time.
fn rise_plain(s: &[u32], chunk: Chunk, low: usize) -> Option<usize>
    requires { Inside chunk s.now }
    ensures { result ≡ rise_of s.now 0 chunk.keys chunk.pays chunk.count low }
{
    let keys = &s[chunk.keys..chunk.keys + chunk.count];
    let pairs = keys.chunks_exact(2);
    let rest = pairs.remainder();
    let mut least = low;
    for pair in pairs {
        let key = pair[0] as usize;
        if key < least {
            return None;
        }
        let second = pair[1] as usize;
        if second <= key {
            return None;
        }
        least = second + 1;
    }
    let Some(&last) = rest.first() else {
        return Some(least);
    };
    let key = last as usize;
    if key < least {
        return None;
    }
    Some(key + 1)
}

// The payload of a tombstone is 0, and no mark bit is set past the count. The mark word is halved with each
// record, so that what is left of it at the end is the bits past the count. Marks come in no order that could
// be foreseen, so nothing in the loop branches on one.
fn clean(s: &[u32], marks: u32, pays: usize, count: usize) -> bool
    requires { pays + count ≤ length s.now }
    ensures { result ≡ clean_of s.now marks pays count }
{
    if marks == 0 {
        return true;
    }
    let mut m = marks;
    let mut ok = true;
    for &pay in &s[pays..pays + count] {
        ok = ok & !((m % 2 == 1) & (pay != 0));
        m = m / 2;
    }
    ok & (m == 0)
}

// The least number that the next key may be, if the keys of a chunk rise strictly from `low` on, the payload of
// a tombstone is 0, and no mark bit is set past the count.
pub fn rise_over(s: &[u32], chunk: Chunk, low: usize) -> Option<usize>
    requires { Inside chunk s.now }
    ensures { result ≡ rise_of s.now chunk.marks chunk.keys chunk.pays chunk.count low }
{
    if clean(s, chunk.marks, chunk.pays, chunk.count) {
        return rise_plain(s, chunk, low);
    }
    None
}
