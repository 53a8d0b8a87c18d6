// Prints the S-box as FIPS 197's Figure 7 has it: 16 rows of 16 bytes, in hexadecimal.
#![tactic(auto)]

use std::io;

fn main(rt: HostRuntime) -> io::Result<()> {
    let table = sbox::table();
    for (i, &byte) in table.iter().enumerate() {
        print_entry(&rt, byte, i % 16 == 15)?;
    }
    Ok(())
}

// The byte's two digits, and then a space, or a line feed after the last byte of a row.
fn print_entry(rt: &impl Print, byte: u8, last: bool) -> io::Result<()> {
    print!(rt; "{byte:02x}")?;
    if last { println!(rt;) } else { print!(rt; " ") }
}
