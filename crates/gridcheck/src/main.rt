// The program gridcheck: reads one grid image of at most 65,536 bytes from standard input and prints the grid check's findings, or the
// refusal.
#![tactic(auto)]

use rules::{Findings, Steps};
use slopes::grid_check;
use std::io;
use streams::{print_field, print_refusal, read_image};

fn main(rt: HostRuntime) -> io::Result<()> {
    let mut image = [0u8; 65536];
    match read_image(&mut rt.reader(), &mut image) {
        Ok(size) => report(&rt, &image[..size]),
        Err(_) => println!(rt; "too long"),
    }
}

// One line: `passed` and A and B of the three values, or `refused` and the number.
fn report(rt: &impl Print, image: &[u8]) -> io::Result<()> {
    match grid_check(image) {
        Ok(f) => {
            print!(rt; "passed")?;
            print_findings(rt, f)?;
            println!(rt)
        }
        Err(r) => print_refusal(rt, r),
    }
}

fn print_findings(rt: &impl Print, f: Findings) -> io::Result<()> {
    print_steps(rt, f.latitude)?;
    print_steps(rt, f.longitude)?;
    print_steps(rt, f.height)
}

fn print_steps(rt: &impl Print, s: Steps) -> io::Result<()> {
    print_field(rt, s.northward)?;
    print_field(rt, s.eastward)
}
