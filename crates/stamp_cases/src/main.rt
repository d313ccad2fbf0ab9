// Runs small programs on the stamped machine, and prints the state that each leaves.
//
// A line of the input is a case: code and static bytes in hexadecimal (`-` for none), and a number of steps.
// Heap and stack have 64 bytes each. The line of the output has the number of steps that were executed, the last
// answer, the program counter, the condition codes, the data and address registers, and a sum of each region.
#![tactic(auto)]

mod case;

use std::io::{self, BufRead, BufReader, BufWriter, Write};

fn main(rt: HostRuntime) -> io::Result<()> {
    let mut out = BufWriter::new(rt.alloc(), io::writer(&rt))?;
    for line in BufReader::new(rt.alloc(), rt.reader())?.lines(rt.alloc()) {
        let text = case::outcome(rt.alloc(), line?.as_str())?;
        writeln!(out, "{text}")?;
    }
    out.flush()
}
