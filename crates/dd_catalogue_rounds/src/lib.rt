//! The writing of a catalogue: runs from a position on, their rounds on workers, and the
//! checkpoints that runs keep.
//!
//! A run of a catalogue (`Run` of dd_pages_and_checkpoints) has a beginning: a position, and the
//! number of lines before it. It opens a front with the opening's jobs that are not wholly before
//! the position. While one is open, the first ones are done in a round.
//!
//! - **Large jobs are done in parts.** A large job at the front becomes its children, and these
//!   theirs, until the first one is small (`split_large`). A round ends before it has too much
//!   under it (`few_ahead`). So it holds about half a million members at most. A run whose position
//!   is within a large job splits it before its first round, and leaves out the parts that are
//!   wholly before the position (`parts_from`).
//! - **Jobs that are not counted.** Several workers may do a round, and no checkpoint may limit how
//!   far it is ahead. Then the round does not count jobs under which the finder sees that nothing
//!   is (`do_long_round`). They are most of the jobs.
//! - **Several workers** take the jobs of a round from a board and do them. They split jobs under
//!   which much may be, and steal from each other. A sweep does what they leave (`run_round`).
//! - **One worker** does the jobs in order, with no board, no lock and no deque. The jobs stay in
//!   their entries (`do_round_alone`). If no checkpoint is kept, a round has at most four of them,
//!   so that few members are held. A whole catalogue then begins with a job for each size in place
//!   of the opening (`lone_front_of`).
//! - **A worker that finds no open job and none to steal** waits as long as another one is
//!   splitting a job, and a moment longer, and then ends. It ends at once if no job is out.
//!
//! The front takes what was found, and emits the entries at its front. Their members go to a
//! page. Its lines are written if there are enough of them, and after each round if the run keeps
//! checkpoints.
//!
//! **Checkpoints.** A checkpoint may stand at a job of the opening, at the end, or at a member, but
//! not at a part of a job.
//!
//! - It is put after a round with lines, if the run then stands at a job or at the end, and a
//!   further line may be written.
//! - Else it is put before the next line, at the member of that line. So the members of at most one
//!   round are beyond it. A round without members puts none.
//! - It is put after every 65,536 lines of a round, at the next member.
//! - It is put at the end, and where the run pauses.
//!
//! - **With several workers** members wait on the page until it is worth the start of several
//!   threads to make their lines and to give their memory back. If no checkpoint is kept, they wait
//!   from one round to the next. The threads get spans of the lists in which members were found. So
//!   no member is copied on its way to its line.
//! - **One worker** makes the lines of 512 members at a time, so that few are collected before they
//!   are written.
//!
//! A run has a last line: that of its pause or that of the largest number. If the first entry has
//! more members, the front emits only the first ones and stands at the next one. The clauses on
//! what is written say the same as over one thread, since the front's law holds for whatever a
//! round brings back.
#![tactic(auto)]

mod after_round;
mod catalogue;
mod chain;
mod emission;
mod kept_round;
mod output;
mod parts;
mod resumed_jobs;
mod rounds;
mod tuning;
mod workshop;

pub use catalogue::write_catalogue;
pub use chain::write_run;
pub use workshop::Workshop;
