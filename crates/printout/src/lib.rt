// The printouts of document 01: what the checker returns for two files, set in columns.
#![tactic(auto)]

pub mod asked;
pub mod files;
pub mod found;
pub mod text;

pub use asked::{print_asking, print_asking_over, print_asking_text};
pub use files::Printed;
pub use found::{print_reaching, print_reaching_over};
pub use text::{print_line, print_line_over};
