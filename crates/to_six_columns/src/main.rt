// Carries the case sheet of four columns on standard input over to six, or prints the number of its refusal.
#![tactic(auto)]

fn main(rt: HostRuntime) {
    console::answer(
        &rt,
        &mut rt.stdin(),
        "waiting for a case sheet of four columns (docs/REFERENCE.md has its form); Ctrl-D ends it\n",
        [0; 2048],
        conversion::to_six_columns,
    );
}
