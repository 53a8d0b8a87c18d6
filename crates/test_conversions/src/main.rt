// Prints what each sheet of the file `cases` is carried over to, in six columns and then in four.
#![tactic(auto)]

use std::io;

fn convert(rt: &(impl Print + Eprint), bytes: &[u8]) {
    console::write_print(rt, bytes, [0; 2048], conversion::to_six_columns);
    console::write_print(rt, bytes, [0; 2048], conversion::to_four_columns);
}

fn main(rt: HostRuntime) -> io::Result<()> {
    let mut space = [0u8; console::MOST_READ];
    test_records::each_sheet(&rt, &mut space, |bytes| convert(&rt, bytes))
}
