// What a program writes: a line for each section, with a mark for each call of its records. A call that the input ends in is marked as one
// that was not answered as recorded.
ghost use Rattle.std.specs.Prelude.{◌≡◌, ◌≢◌, Ok, Err, Some, None, IfOk, IfErr};
ghost use Rattle.std.specs.IoError.{error_kind};
ghost use Rattle.std.specs.declared.io.ErrorKind.TheVariants.{UnexpectedEof};

use std::io;
use std::io::{ErrorKind, Read};

// Nothing where the input ended within what was read.
pub fn if_whole<T>(read: io::Result<T>) -> io::Result<Option<T>>
    ensures whole { IfOk read (λ value. result ≡ Ok (Some value)) }
    ensures ended { IfErr read (λ e. error_kind e ≡ UnexpectedEof → result ≡ Ok None) }
    ensures failed { IfErr read (λ e. error_kind e ≢ UnexpectedEof → result ≡ Err e) }
{
    match read {
        Ok(value) => Ok(Some(value)),
        Err(e) if e.kind() == ErrorKind::UnexpectedEof => Ok(None),
        Err(e) => Err(e),
    }
}

// Whether a call was answered as recorded.
pub fn mark(rt: &impl Print, same: bool) -> io::Result<()> {
    print!(rt; "{}", if same { '.' } else { 'x' })
}

// Begins a line by its name. The input has the count of the section's records before them, two bytes; where it ends in them, a mark says
// so, and those that are there count.
pub fn begin_section(rt: &(impl Input + Print), name: &[u8]) -> io::Result<u16> {
    rt.write_all(name)?;
    print!(rt; " ")?;
    let mut count = [0u8; 2];
    if if_whole(rt.reader().read_exact(&mut count))?.is_none() {
        mark(rt, false)?;
    }
    Ok(u16::from_le_bytes(count))
}

// The last line: whether the input ends here.
pub fn end_recording(rt: &(impl Input + Print)) -> io::Result<()> {
    let mut more = [0u8; 1];
    if rt.reader().read(&mut more)? == 0 {
        println!(rt; "end of the recording")
    } else {
        println!(rt; "the recording goes on")
    }
}
