// Reading of tables and evidence from bytes.
#![tactic(auto)]

mod draft;
mod evidence;
mod fault;
mod kind;
mod listing;
mod pair;
mod placed;
mod record;
mod row;
mod run;
mod stage;
mod table;
mod unread;

pub use evidence::EvidenceFault;
pub use fault::Fault;
pub use kind::Kind;
pub use listing::{Full, Listing};
pub use pair::{Pair, read_pairs};
pub use record::{Record, records_read_back, split};
pub use row::{Row, Step};
pub use run::{Ending, Move, Run, read_run};
pub use table::Table;
