// What the public calls answer, as types: whatever is answered stands in a `Result`, whose error is the refusal. What an answer says is in specs/, why it is so in proofs/.
#![tactic(auto)]

// How a question is written: a file of rows (document 01), or a line of text (document 02, W1).
#[derive(Clone, Copy)]
pub enum Notation {
    Rows,
    Text,
}

// The answer to a question: it holds at every permitted start, or not, with the smallest failing start class and the number of its registers.
// Stays: both cases are answers, and a no has numbers of its own; the refusal is the error of the call's Result.
#[derive(Clone, Copy)]
pub enum Asking {
    Yes,
    No { class: usize, registers: usize },
}
