// What a call lends.
use crate::output::buffer_out;
use std::io;
use std::io::Print;

// The seven buffers, each as long as its room. No routine writes into the text.
#[derive(Drop)]
pub struct Buffers<'a> {
    pub text: &'a [u8],
    pub items: &'a mut [u8],
    pub out: &'a mut [u8],
    pub rules: &'a mut [u64],
    pub levels: &'a mut [u64],
    pub marks: &'a mut [u64],
    pub kept: &'a mut [bool],
}

// Prints each buffer.
pub fn buffers_out<P: Print>(out: &P, buffers: &Buffers<'_>) -> io::Result<()> {
    buffer_out(out, buffers.text)?;
    buffer_out(out, buffers.items)?;
    buffer_out(out, buffers.out)?;
    buffer_out(out, buffers.rules)?;
    buffer_out(out, buffers.levels)?;
    buffer_out(out, buffers.marks)?;
    buffer_out(out, buffers.kept)
}
