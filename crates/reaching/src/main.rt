// Prints whether the table of this folder reaches its target: table.txt, target.txt.
#![tactic(auto)]

// A write that fails is told to nobody.
fn main(rt: HostRuntime) {
    let _ = printout::print_reaching(&rt, b"table.txt", b"target.txt");
}
