//! Least forms, and isomorphism decided by them.
//!
//! The least code is that of a numbering by first visits from some start chamber. `least` compares
//! the numbering from each start with the best one so far, as long as it does not fall behind. Most
//! traversals of a symbol without symmetries end soon.
//!
//! In a symmetric symbol many traversals tie. A traversal that ties with the best one to its end is
//! an automorphism: it takes the k-th chamber of the best numbering to its own k-th chamber. Starts
//! that an automorphism exchanges have the same code. So the chambers are joined along each
//! automorphism that is found, and a start that is joined with a smaller one is left out. A tie at
//! least doubles the group that is known, so a symbol of n chambers has at most log2 n of them. For
//! this 12 bytes a chamber are kept beside the two lists of a traversal.
//!
//! A symbol that is symmetric but for the degrees of a few cells has no automorphisms. Its
//! traversals still tie through all images, and the time grows with the square of the size.
#![tactic(auto)]

mod automorphism_laws;
mod best_numbering;
mod forms;
mod isomorphisms;
mod steps;
mod symmetries;
mod ties;
mod traversal_laws;
mod visits;

pub use automorphism_laws::automorphisms_keep_codes;
pub use forms::{is_least, least, least_form, least_form_with};
pub use isomorphisms::isomorphic;
pub use steps::Steps;
pub use symmetries::Symmetries;
pub use ties::{is_least_from_ties, tied_starts};
pub use traversal_laws::{beaten_tables_have_no_least_completion, partial_tables_are_traversed};
