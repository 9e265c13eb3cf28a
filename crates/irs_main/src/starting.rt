//! From the runtime to the answer: the words, the files of the system, standard output and standard
//! error.
ghost use Rattle.std.specs.Prelude.{◌≡◌, ◌⊎◌, ◌<◌, IfErr};
ghost use Rattle.irs_cli.specs.Run.{run_status};

use crate::answering::{answer, explain};
use crate::standard_error::StandardError;
use irs_cli::{RealFiles, RealSink, RunCause};
use std::env;
use std::env::Env;
use std::io::ErrorKind;

/// The most bytes of a word: Linux gives a program no longer one.
const LONGEST_WORD: usize = 131_072;

/// Does what the words of the command line call for, and returns the exit status. It is that of
/// `answer` where the words can be gathered. Else it is 7 where memory runs out, and 9 for a word
/// that isn't text. The sentence for 9 says which word that is.
pub fn status_of(rt: &HostRuntime) -> u8
    ensures { result < 10 }
{
    let mut errors = StandardError::new(rt);
    match words_of(rt) {
        Ok(words) => {
            let mut files = RealFiles::new(rt);
            let mut out = RealSink::new(rt);
            let cause = answer(rt.alloc(), &words, &mut files, &mut out, &mut errors);
            cause.status()
        }
        Err(cause) => {
            explain(&mut errors, &[], &cause);
            cause.status()
        }
    }
}

// The number of the first word after the program's name that isn't text. `None` where there is none, as
// where the name itself isn't text, or where memory ran out.
fn odd_word(rt: &HostRuntime) -> Option<u32> {
    let mut room = Vec::from_elem(rt.alloc(), 0, LONGEST_WORD).ok()?;
    for number in 1..u32::MAX {
        let length = rt.arg(number as usize, &mut room).ok()?;
        if str::from_utf8(&room[..length]).is_err() {
            return Some(number);
        }
    }
    None
}

// The words after the program's name, or why they can't be had: memory ran out, or a word isn't text.
fn words_of(rt: &HostRuntime) -> Result<Vec<String>, RunCause>
    ensures { IfErr result (λ c. (run_status c ≡ 7) ⊎ (run_status c ≡ 9)) }
{
    let args = match env::args(rt) {
        Ok(args) => args,
        Err(e) if e.kind() == ErrorKind::OutOfMemory => return Err(RunCause::NoMemory),
        Err(_) => return Err(RunCause::NotText(odd_word(rt))),
    };
    let mut words = Vec::new(rt.alloc());
    for word in args.skip(1) {
        if words.push(word).is_err() {
            return Err(RunCause::NoMemory);
        }
    }
    Ok(words)
}
