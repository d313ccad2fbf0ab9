// Prints what the command `check` answers for each text of a table.
//
// A line of the input is a text, in which `|` stands for a line feed and `{3 a b}` for `a b` three times; a line that begins
// with `;` is a heading. The line of the output has the answer in front of the line: what `out` took, or else the number of the
// status and what `err` took. A heading is printed as it is.
#![tactic(auto)]

mod row;

use std::io::{self, BufRead, BufReader, BufWriter, Write};

fn main(rt: HostRuntime) -> io::Result<()> {
    let alloc = rt.alloc();
    let mut out = BufWriter::new(alloc, io::writer(&rt))?;
    for line in BufReader::new(alloc, rt.reader())?.lines(alloc) {
        let line = line?;
        if !line.as_str().starts_with(';') {
            out.write_all(&row::answer(alloc, line.as_str())?)?;
            out.write_all(b"  ")?;
        }
        writeln!(out, "{line}")?;
    }
    out.flush()
}
