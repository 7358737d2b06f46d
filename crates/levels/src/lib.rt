// The store of document 01 as records, blocks and levels, with no word of the lent slice in sight:
// definitions, in specs/, that code and proofs of other crates cite, the ticket of a merge, and the test
// of the level rule, which the form check and step 5 of a merge share.
#![tactic(auto)]

ghost use Rattle.std.specs.Prelude.{◌≡◌, ◌*◌, ◌≤◌};
ghost use Rattle.levels.specs.Waste.{wasteful};
ghost use Rattle.levels.specs.Tickets.{row_of, ticket_from};

// What a merge did (document 02, card 3; a ticket is the document's word): its upper level, the number of the run's first
// block in that level, from 0, at the merge's start, the overlap, and the blocks written.
#[repr(C)]
#[derive(Clone, Copy)]
pub struct Ticket {
    pub level: u32,
    pub first: u32,
    pub overlap: u32,
    pub written: u32,
}

// The merges of a call gather rows of four words; a ticket is made of a row where it is handed out.
impl From<Ticket> for [u32; 4] {
    ghost from_gives = { λ t row. row ≡ row_of t };

    fn from(t: Ticket) -> [u32; 4] {
        [t.level, t.first, t.overlap, t.written]
    }
}

impl From<[u32; 4]> for Ticket {
    ghost from_gives = { λ row t. t ≡ ticket_from row };

    fn from(row: [u32; 4]) -> Ticket {
        let [level, first, overlap, written] = row;
        Ticket {
            level,
            first,
            overlap,
            written,
        }
    }
}

// The level rule: a blocks of b slots hold the records in more blocks than needed, and more than a
// fifth of the slots is empty. During a call a level has at most 2 × K(i) blocks, which is 2,048 at most.
pub fn is_wasteful(b: usize, a: usize, records: usize) -> bool
    requires { (1 ≤ b) × (b ≤ 16) × (a ≤ 2048) × (records ≤ a * b) }
    ensures { result ≡ wasteful b a records }
{
    let slots = a * b;
    ((records + (b - 1)) / b < a) & (slots < 5 * (slots - records))
}
