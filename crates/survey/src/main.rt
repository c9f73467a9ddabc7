// survey: reads a receiver's command lines, each ended by CR, and writes the replies and then the sheet.
#![tactic(auto)]

use bcd996t::Bcd996t;
use chain::Link;
use make::{Kind, Make};
use report::report;
use std::io;
use std::io::{Read, Write};

#[cfg(test)]
mod tests;

// How many blocks the memory has.
const BLOCKS: usize = 200;

fn main(rt: HostRuntime) -> io::Result<()> {
    let mut links = [Link::BLANK; BLOCKS];
    let mut records = [Bcd996t::fresh(Kind::System, 0); BLOCKS];
    let mut text = Vec::new(rt.alloc());
    rt.stdin().read_to_end(&mut text)?;
    let out = report::<Bcd996t>(rt.alloc(), &mut links, &mut records, &text)?;
    rt.stdout().write_all(&out)
}
