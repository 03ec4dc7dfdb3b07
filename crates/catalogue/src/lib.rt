// Classes as lists of labels: the constant catalogue, class number and labels of contents, contents given back, and matrices.
#![tactic(auto)]

pub mod flat;
pub mod listing;
pub mod matrices;
pub mod numbers;
pub mod scan;
pub mod serving;

pub use flat::table;
pub use listing::fill_labels;
pub use matrices::{class_matrix, class_of_matrix, matrix_of};
pub use numbers::{class_count, class_number, class_of};
pub use scan::contents_of;
pub use serving::{class_labels, fill_rows};
