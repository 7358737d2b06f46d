// Tickets for a caller (document 02, card 3): from the rows in which the merges leave them into the caller's list. Only here, in
// `store` and at the border to C is there a lent slice of structs; everything below gathers rows of four words.
#![tactic(auto)]

ghost use Rattle.std.specs.Prelude.{◌≡◌, map};
ghost use Rattle.levels.specs.Tickets.{ticket_from, laid};

use levels::Ticket;

// Rows for the tickets of a call: no call makes more merges (law `merges_few` of levels).
pub const ROOM: usize = 512;

// The tickets of rows into the caller's list, in their order, as many as fit.
pub fn hand_out(tickets: &mut [Ticket], rows: &[[u32; 4]])
    ensures { tickets.new ≡ laid (map ticket_from rows.now) tickets.old }
{
    for (i, row) in rows.iter().enumerate() {
        slices::file(tickets, i, Ticket::from(*row));
    }
}
