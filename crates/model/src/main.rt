// Reads an instance from standard input and prints its model, or the line of the refusal.
#![tactic(auto)]

use modeller::model_of;
use std::io;
use std::io::{Read, Write};

// One byte more than a text may have, so that a longer one is noticed.
const MOST: u64 = 65_537;

fn main(rt: HostRuntime) -> io::Result<()> {
    let mut text = Vec::new(rt.alloc());
    rt.stdin().take(MOST).read_to_end(&mut text)?;
    let printed = model_of(rt.alloc(), &text)?;
    rt.stdout().write_all(&printed)
}
