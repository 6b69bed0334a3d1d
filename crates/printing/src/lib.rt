// Input and output of a program, over its runtime.
#![tactic(auto)]

ghost use Rattle.std.specs.Prelude.{◌≤◌, length};

use std::io::{Read, Write};

// Prints bytes; whether all of them were taken. No clause can say what a terminal or a file takes,
// so none ties the answer to the bytes; the same holds for the number below.
pub fn write_all(rt: &HostRuntime, text: &[u8]) -> bool {
    match rt.stdout().write_all(text) {
        Ok(()) => true,
        Err(_) => false,
    }
}

// Prints a number; whether all of it was taken.
pub fn print_decimal(rt: &HostRuntime, n: u64) -> bool {
    match print!(rt; "{n}") {
        Ok(()) => true,
        Err(_) => false,
    }
}

// Reads bytes until the buffer is full or the input ends; how many.
pub fn read_full(rt: &HostRuntime, buf: &mut [u8]) -> usize
    ensures { result ≤ length buf.new }
{
    let mut input = rt.stdin();
    let mut n = 0;
    while n < buf.len() {
        match input.read(&mut buf[n..]) {
            Ok(0) => return n,
            Ok(k) => n += k,
            Err(_) => return n,
        }
    }
    n
}
