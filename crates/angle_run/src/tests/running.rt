// Runs of texts over sources, sinks and devices in memory.
ghost use Rattle.std.specs.Prelude.{◌≡◌, []};

use std::alloc::{AllocError, Global};
use trace_io::{MemorySink, MemorySource, Status};
use trace_run::run_once;
use vk_device::Device;

/// The lines that open the worked traces.
pub(crate) const OPENING: &str =
    "angle-trace 1\nthread 0 group 0\nbegin\n0 ecreate 1\n0 ecurrent 1\n";

/// The replies to them, with the head of the text.
pub(crate) const OPENED: &str = "angle-reply 1\ngroup 0\n0 4 ok\n0 5 ok\n";

/// A text in three parts.
pub(crate) fn joined(
    alloc: Global,
    head: &str,
    body: &str,
    tail: &str,
) -> Result<Vec<u8>, AllocError> {
    let mut text = Vec::new(alloc);
    text.extend_from_slice(head.as_bytes())?;
    text.extend_from_slice(body.as_bytes())?;
    text.extend_from_slice(tail.as_bytes())?;
    Ok(text)
}

/// The text of a trace with these calls behind those that open it.
pub(crate) fn trace(alloc: Global, calls: &str) -> Result<Vec<u8>, AllocError> {
    joined(alloc, OPENING, calls, "end\n")
}

/// The words of a command.
pub(crate) fn words(alloc: Global, list: &[&str]) -> Result<Vec<String>, AllocError> {
    let mut words = Vec::new(alloc);
    for word in list {
        let word = String::from_str(alloc, word)?;
        if words.push(word).is_err() {
            return Err(AllocError);
        }
    }
    Ok(words)
}

/// Runs a text by the words of a command on a device, with room for all replies, and gives the status, what was written, and the device.
pub(crate) fn run_by<D: Device + Drop>(
    alloc: Global,
    list: &[&str],
    text: Vec<u8>,
    device: D,
) -> Result<(Status, MemorySink, D), AllocError>
    requires { D.journal device ≡ [] }
{
    let words = words(alloc, list)?;
    let mut source = MemorySource::new(text, Vec::new(alloc));
    let mut sink = MemorySink::new(alloc, 1_048_576, 65_536, Vec::new(alloc))?;
    let (status, device) = run_once(alloc, &words, &mut source, &mut sink, device);
    Ok((status, sink, device))
}

/// Runs a text on a device by the schedule of the seed 0.
pub(crate) fn run_on<D: Device + Drop>(
    alloc: Global,
    text: Vec<u8>,
    device: D,
) -> Result<(Status, MemorySink, D), AllocError>
    requires { D.journal device ≡ [] }
{
    run_by(alloc, &["once", "--seed", "0"], text, device)
}
