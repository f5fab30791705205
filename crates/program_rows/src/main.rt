//! Runs commands over files, machines and scripts in memory, and tells which of them gives anything but what is expected.
#![tactic(auto)]

mod answers;
mod case;
mod course;
mod exchanges;
mod given;
mod rows;
mod running;
mod texts;
mod wires;

use rows::Rows;
use std::io::{self, BufRead, BufReader, Write};

// The rows stand on the input.
fn main(rt: HostRuntime) -> io::Result<()> {
    let alloc = rt.alloc();
    let mut rows = Rows::new(alloc);
    for line in BufReader::new(alloc, rt.reader())?.lines(alloc) {
        let line = line?;
        let told = rows.take(&rt, alloc, line.as_str())?;
        rt.stdout().write_all(told.as_slice())?;
    }
    rt.stdout().write_all(rows.count(alloc)?.as_slice())
}
