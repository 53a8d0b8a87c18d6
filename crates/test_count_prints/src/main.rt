// Prints what the count print makes of each sheet of the file `cases`.
#![tactic(auto)]

use std::io;

fn main(rt: HostRuntime) -> io::Result<()> {
    let mut space = [0u8; console::MOST_READ];
    test_records::each_sheet(&rt, &mut space, |bytes| {
        console::write_print(&rt, bytes, [0; 1024], count_print::print)
    })
}
