// Prints the counts that the probe sheet on standard input asks for, or the number of its refusal.
#![tactic(auto)]

fn main(rt: HostRuntime) {
    console::answer(
        &rt,
        &mut rt.stdin(),
        "waiting for a probe sheet (docs/REFERENCE.md has its form); Ctrl-D ends it\n",
        [0; 1024],
        count_print::print,
    );
}
