// Carries the case sheet of six columns on standard input over to four, or prints the number of its refusal.
#![tactic(auto)]

fn main(rt: HostRuntime) {
    console::answer(
        &rt,
        &mut rt.stdin(),
        "waiting for a case sheet of six columns (docs/REFERENCE.md has its form); Ctrl-D ends it\n",
        [0; 2048],
        conversion::to_four_columns,
    );
}
