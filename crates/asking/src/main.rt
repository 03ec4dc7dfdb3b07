// Prints whether the question of this folder holds at every permitted start of its table: table.txt, question.txt.
#![tactic(auto)]

// A write that fails is told to nobody.
fn main(rt: HostRuntime) {
    let _ = printout::print_asking(&rt, b"table.txt", b"question.txt");
}
