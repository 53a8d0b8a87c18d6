// Prints the wall-cabinet page of the case sheet on standard input, or the number of its refusal.
#![tactic(auto)]

fn main(rt: HostRuntime) {
    console::answer(
        &rt,
        &mut rt.stdin(),
        "waiting for a case sheet (docs/REFERENCE.md has its form); Ctrl-D ends it\n",
        [0; 40960],
        page_print::print,
    );
}
