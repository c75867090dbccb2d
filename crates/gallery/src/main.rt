// Prints the model of each example instance, or the line of its refusal.
#![tactic(auto)]

use modeller::model_of;
use std::io::Write;
use std::{fs, io};

// The files of the instances, in the order in which they are shown.
const INSTANCES: [&str; 8] = [
    "boards_and_rails.txt",
    "shelves.txt",
    "servers.txt",
    "inks.txt",
    "counted_boards.txt",
    "counted_servers.txt",
    "counted_inks.txt",
    "too_heavy.txt",
];

fn show(rt: &HostRuntime, name: &str) -> io::Result<()> {
    let text = fs::read(rt, name)?;
    let printed = model_of(rt.alloc(), &text)?;
    println!(rt; "{name}")?;
    rt.stdout().write_all(&printed)
}

fn main(rt: HostRuntime) -> io::Result<()> {
    for name in INSTANCES {
        show(&rt, name)?;
    }
    Ok(())
}
