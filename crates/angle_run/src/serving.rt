//! The words of the command line.

ghost use Rattle.std.specs.Prelude.{◌≡◌, ◌≢◌, [], drop, IfOk, IfErr, IsOk, IsErr};
ghost use Rattle.std.specs.Vec.Iter.{into_iter_items};
ghost use Rattle.std.specs.IoError.{error_kind};

use std::alloc::{AllocError, Global};
use std::env::Args;
use std::io;
use std::io::ErrorKind;

/// The words after the program's name, of those that the system gave. Where one of them is no text there are none, which no
/// command spells.
pub(crate) fn words_of(alloc: Global, args: io::Result<Args>) -> Result<Vec<String>, AllocError>
    ensures words { IfOk args (λ list. IfOk result (λ words. words.items ≡ drop 1 (into_iter_items list))) }
    ensures none { IfErr args (λ _. IfOk result (λ words. words.items ≡ [])) }
    ensures memory { IfErr args (λ e. error_kind e ≡ ErrorKind.OutOfMemory → IsErr result) }
    ensures no_text { IfErr args (λ e. error_kind e ≢ ErrorKind.OutOfMemory → IsOk result) }
{
    match args {
        Ok(list) => words_in(alloc, list),
        Err(error) => match error.kind() {
            ErrorKind::OutOfMemory => Err(AllocError),
            _ => Ok(Vec::new(alloc)),
        },
    }
}

fn words_in(alloc: Global, mut args: Args) -> Result<Vec<String>, AllocError>
    ensures { IfOk result (λ words. words.items ≡ drop 1 (into_iter_items args)) }
{
    let _name = args.next();
    let mut words = Vec::new(alloc);
    for word in args {
        words.push(word)?;
    }
    Ok(words)
}
