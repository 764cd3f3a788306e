// Numbers as they are written, put into lent bytes; whether bytes have room, and what a writer of whole lines answers.
//
// Seams, for the writers of lines, which ask for the room before the first byte is put: `put_number`, `put_tabbed`, `put_ticket`,
// `width`, `tabbed_width`, `has_room`.
#![tactic(auto)]

mod room;
mod text;

pub use room::{Unwritten, Written, has_room};
pub use text::{put_number, put_tabbed, put_ticket, tabbed_width, width};
