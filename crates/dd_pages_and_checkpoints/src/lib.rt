//! What a run of a catalogue writes: a page of lines, how far its lines may go, and the checkpoints
//! that it keeps.
#![tactic(auto)]

mod collected;
mod fault;
mod finish;
mod limit;
mod lines;
mod numbered_members;
mod pages;
mod run;
mod saved;
mod tuning;

pub use collected::Collected;
pub use fault::RunFault;
pub use finish::Finish;
pub use limit::{Limit, MOST_LINES};
pub use pages::Page;
pub use run::Run;
pub use saved::{save, save_first};
