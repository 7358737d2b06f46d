// Step 1 of a merge: which run of neighbours goes down, and which blocks below it meets. Both are settled by the first and last
// keys of the blocks alone, their fences, so the choice reads a list of fences for each level and no words of a store. It goes
// over both lists once (card 4): as the run moves on, both ends of the stretch below it move forward.
#![tactic(auto)]

ghost use Rattle.std.specs.Prelude.{◌≡◌, ◌≤◌, length, nat_lt, nat_le, take_while};
ghost use Rattle.choice.specs.Fences.{Ordered, choose_fences, choice_of, run_over, fewer};
ghost use Rattle.choice.specs.Pass.{AtRun, NotPast};

// The fence of a block: its first and its last key.
#[derive(Clone, Copy, Default)]
pub struct Fence {
    pub first: u32,
    pub last: u32,
}

// The blocks of a level from index `start` on, up to but without index `end`.
#[derive(Clone, Copy)]
pub struct Stretch {
    pub start: usize,
    pub end: usize,
}

// The chosen run: the index of its first block, the number of blocks below that it overlaps, and these; where it overlaps none,
// the gap that its keys lie in.
#[derive(Clone, Copy)]
pub struct Choice {
    pub first: usize,
    pub overlap: usize,
    pub below: Stretch,
}

// How many blocks from the first on end below a key.
fn ended(fences: &[Fence], key: u32) -> usize
    ensures { result ≡ length (take_while (λ f. nat_lt f.last key) fences.now) }
{
    fences.iter().take_while(|f| f.last < key).count()
}

// How many blocks from the first on begin no higher than a key.
fn begun(fences: &[Fence], key: u32) -> usize
    ensures { result ≡ length (take_while (λ f. nat_le f.first key) fences.now) }
{
    fences.iter().take_while(|f| f.first <= key).count()
}

// Both ends for a run from key `lowest` to key `highest`, from where they stood at the run before it.
fn move_on(at: Stretch, lowest: u32, highest: u32, under: &[Fence]) -> Stretch
    requires { Ordered 0 under.now × NotPast lowest highest under.now at }
    ensures { AtRun lowest highest under.now at result }
{
    Stretch {
        start: at.start + ended(&under[at.start..], lowest),
        end: at.end + begun(&under[at.end..], highest),
    }
}

// The run from block `first` on, which overlaps as many blocks as lie between the ends.
fn run_over(first: usize, below: Stretch) -> Choice
    requires { below.start ≤ below.end }
    ensures { result ≡ run_over first below }
{
    let overlap = below.end - below.start;
    Choice {
        first,
        overlap,
        below,
    }
}

// A function of its own, so that the loop of the choice has no branch.
fn fewer(best: Choice, later: Choice) -> Choice
    ensures { result ≡ fewer best later }
{
    if later.overlap < best.overlap {
        return later;
    }
    best
}

// The run of w neighbours above that overlaps the fewest of the blocks below; of equals, the lowest. With it comes Y, where the
// two ends stood at that run.
pub fn choose_run(above: &[Fence], under: &[Fence], w: usize) -> Choice
    requires { (1 ≤ w) × ((w ≤ length above.now) × (Ordered 0 above.now × Ordered 0 under.now)) }
    ensures { result ≡ choice_of (choose_fences w above.now under.now) }
{
    let none = Stretch { start: 0, end: 0 };
    let mut at = move_on(none, above[0].first, above[w - 1].last, under);
    let mut best = run_over(0, at);
    for i in 1..above.len() - w + 1 {
        at = move_on(at, above[i].first, above[i + w - 1].last, under);
        best = fewer(best, run_over(i, at));
    }
    best
}
