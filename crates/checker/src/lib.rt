// The checker's public calls: none asks anything of its caller, and each determines its reply and every lent buffer.
#![tactic(auto)]

pub mod editor;
mod given;
pub mod goal;
pub mod question;
pub mod replaying;
pub mod steps;

pub use claims::Asking;
pub use classification::{
    class_count, class_of, class_of_matrix, contents_of, contents_of_matrix, matrix_of,
    matrix_of_class,
};
pub use editor::{maceplateau_ask, maceplateau_ask_text, maceplateau_reach};
pub use goal::reach;
pub use question::{ask, ask_text};
pub use refusals::Refusal;
pub use replay::Verdict;
pub use replaying::{replay, replay_steps};
pub use steps::{step, successors};
pub use witness::Answer as Reaching;
