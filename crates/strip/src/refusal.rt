// A refusal on standard error.
use keys::{AT_KEY, END_KEY, FORM_KEY, REFUSED_KEY};
use refusals::{Refusal, fault_number};
use std::io;
use std::io::Print;

// Prints a refusal.
pub(crate) fn refuse(rt: &HostRuntime, refusal: Refusal) -> io::Result<()> {
    let fault = refusal.fault;
    print_line(rt, &FORM_KEY, 1)?;
    print_line(rt, &REFUSED_KEY, fault_number(fault))?;
    print_line(rt, &AT_KEY, refusal.place)?;
    print_line(rt, &END_KEY, 3)
}

// Prints a line of a key, with its `=`, and a number.
fn print_line(rt: &HostRuntime, key: &[u8], n: u64) -> io::Result<()> {
    rt.stderr().write_all(key)?;
    eprintln!(rt; "{n}")
}
