//! Codes, and their names.
ghost use Rattle.std.specs.Prelude.{◌≡◌};
ghost use Rattle.rudzkvano_c.specs.Codes.{code_in, progress_in};

use host_clients::{Fault, Progress};

/// The version of the library: 65,536 times the major number, 256 times the minor one, and the patch.
const VERSION: u32 = 131_328;

/// Returns what a call returns.
pub fn code_of(done: Result<(), Fault>) -> i32
    ensures { result ≡ code_in done }
{
    match done {
        Ok(()) => 0,
        Err(fault) => fault.code(),
    }
}

/// Returns what `rz_next` returns.
pub fn progress_code(progress: Result<Progress<()>, Fault>) -> i32
    ensures { result ≡ progress_in progress }
{
    match progress {
        Ok(Progress::Done(())) => 0,
        Ok(Progress::Round) => 1,
        Ok(Progress::Waiting) => 2,
        Ok(Progress::Working) => 3,
        Ok(Progress::Over) => Fault::Stopped.code(),
        Err(fault) => fault.code(),
    }
}

// Copies as much of a text as there is room for. Returns its whole length.
fn copy_text(text: &str, bytes: &mut [u8]) -> usize {
    let text = text.as_bytes();
    for (place, byte) in bytes.iter_mut().zip(text) {
        *place = *byte;
    }
    text.len()
}

/// The version of the library.
#[unsafe(no_mangle)]
pub extern "C" fn rz_version() -> u32 {
    VERSION
}

/// Copies the name of a code.
#[unsafe(no_mangle)]
pub extern "C" fn rz_code_name(code: i32, bytes: &mut [u8]) -> usize {
    match Fault::of_code(code) {
        Some(fault) => copy_text(fault.name(), bytes),
        None => 0,
    }
}

/// Copies a few words on a code.
#[unsafe(no_mangle)]
pub extern "C" fn rz_code_text(code: i32, bytes: &mut [u8]) -> usize {
    match Fault::of_code(code) {
        Some(fault) => copy_text(fault.text(), bytes),
        None => 0,
    }
}
