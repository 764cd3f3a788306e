// The lock block: the table; soundness; the steps as methods of the table.
//
// Entries, which have no `requires`: `Table::sound`, `Table::step`, and the steps by name,
// `Table::request`, `Table::nest`, `Table::poll`, `Table::interrupt`, `Table::come_back`,
// `Table::release`.
// Seams, for a run that knows its table to be sound: `Table::step_sound`; and its two halves on a table that is lent, `Table::planned` and
// `Table::put_back`.
#![tactic(auto)]

mod methods;
mod planned;
mod skipping;
mod sound;
mod stepped;
mod steps;
mod table;

pub use planned::Planned;
pub use stepped::Stepped;
pub use table::Table;
