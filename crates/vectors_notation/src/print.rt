// The lines that the vectors print, in the style of the run program (01, 'Bays to run').
use std::io;

pub fn title(rt: &impl Print, words: &[u8]) -> io::Result<()> {
    rt.write_all(words)?;
    println!(rt)
}

// The line of an instant, behind the number of its reactions.
pub fn instant(rt: &impl Print, number: u64, state: &[u8], answer: &[u8]) -> io::Result<()> {
    let line = lines::instant_line(number, state, answer);
    print!(rt; "  {}: ", records::reactions(answer))?;
    rt.write_all(line.text())
}

// The line of a call that was turned down.
pub fn refusal(rt: &impl Print, number: u64, kept: bool) -> io::Result<()> {
    let records = if kept { ", records kept" } else { "" };
    println!(rt; "  refused {number}{records}")
}

pub fn malformed(rt: &impl Print, line: u64) -> io::Result<()> {
    println!(rt; "malformed line {line}")
}
