// Prints whether the question of this folder, given as a line of text, holds at every permitted start of its table: table.txt, question_text.txt.
#![tactic(auto)]

// A write that fails is told to nobody.
fn main(rt: HostRuntime) {
    let _ = printout::print_asking_text(&rt, b"table.txt", b"question_text.txt");
}
