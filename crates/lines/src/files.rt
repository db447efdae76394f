// The files that the programs read: opened by name, and read to the end or until a buffer is full.
ghost use Rattle.std.specs.Prelude.{◌<◌, length, take, IfOk};
ghost use Rattle.std.specs.Io.{ReadsAtMost};
ghost use Rattle.std.specs.Io.KnownBytes.{Consumes, IsAtEnd};

use std::fmt::InlineText;
use std::io::Read;
use std::rt::{Env, Files};
use std::{fs, io, str};

// Opens a file for reading, or says on standard error why it can't and answers none.
pub fn open<R: Files + Eprint>(rt: &R, path: &[u8]) -> io::Result<Option<R::File>> {
    let Ok(name) = str::from_utf8(path) else {
        // std names files by text alone
        eprintln!(rt; "{}: not a name in UTF-8", path.escape_ascii())?;
        return Ok(None);
    };
    match fs::open(rt, name) {
        Ok(file) => Ok(Some(file)),
        Err(error) => {
            fail(rt, name, error)?;
            Ok(None)
        }
    }
}

// Opens the file that an argument names, or says why it can't and answers none. A word that is missing or too long names no file.
pub fn open_argument<R: Env + Files + Eprint>(rt: &R, i: usize) -> io::Result<Option<R::File>> {
    let mut path = [0u8; 4096];
    let n = rt.arg(i, &mut path).unwrap_or(0);
    open(rt, &path[..n])
}

// Writes a line to standard error: what failed, a colon and the system's words for why, without the error's number.
fn fail(rt: &impl Eprint, what: &str, error: io::Error) -> io::Result<()> {
    let text = InlineText::<128>::of(error);
    let words = without_number(text.as_str());
    eprintln!(rt; "{what}: {words}")
}

fn without_number(text: &str) -> &str {
    match text.split_once(" (os error ") {
        Some((words, _)) => words,
        None => text,
    }
}

// Reads until the buffer is full or the input ends, and answers how many bytes it put at the buffer's start: those that came next, and
// fewer than have room only at the end.
pub fn read_full<F: Read>(from: &mut F, buf: &mut [u8]) -> io::Result<usize>
    ensures within { ReadsAtMost result buf.new }
    ensures next { IfOk result (λ n. Consumes (F.remaining from.old) (F.remaining from.new) (take n buf.new)) }
    ensures whole { IfOk result (λ n. n < length buf.new → IsAtEnd (F.remaining from.new)) }
{
    let mut done = 0;
    while done < buf.len() {
        let n = from.read(&mut buf[done..])?;
        if n == 0 {
            break;
        }
        done += n;
    }
    Ok(done)
}

#[cfg(test)]
mod tests {
    use super::*;

    // std's text for an error of the system is the system's words and then a number, which no clause says.
    #[test]
    fn leaves_the_number_out(rt: HostRuntime) {
        let text = InlineText::<128>::of(io::Error::from_raw_os_error(2));
        assert_eq!(rt; without_number(text.as_str()), "No such file or directory");
    }
}
