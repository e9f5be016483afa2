//! The text of the trace of a number.

ghost use Rattle.std.specs.Prelude.{◌≡◌, ◌++◌, OnOk, IfOk, string_bytes};
ghost use Rattle.rand_core.specs.Steps.{stream_of, steps_u64_high};
ghost use Rattle.rand_xoshiro.specs.Xoshiro256.{plus_plus};
ghost use Rattle.trace_gen.specs.Lines.{lines_text, header, first_lines, last_lines};
ghost use Rattle.trace_gen.specs.Generated.{of_threads, rounds, stream_words, next_round, after_words, generated_text, words_of_number, IsTraceOfFour};

use crate::first::put_first_lines;
use crate::last::put_last_lines;
use crate::rounds::put_drawn;
use rand_core::{Rng, SeedableRng};
use rand_xoshiro::Xoshiro256PlusPlus;
use std::alloc::{AllocError, Global};

/// The rounds of a trace; each takes four words of the generator.
const ROUNDS: u32 = 500;

const HEADER: &str =
    "angle-trace 1\nthread 0 group 0\nthread 1 group 0\nthread 2 group 1\nthread 3 group 1\nbegin\n";

/// The text of the trace of this number. It takes time and memory in proportion to the text, which has some 100,000 bytes.
pub fn generate(alloc: Global, number: u64) -> Result<Vec<u8>, AllocError>
    ensures text { IfOk result (λ text. text.items ≡ generated_text (words_of_number number)) }
    // `parse` accepts it.
    ensures accepted { IfOk result (λ text. IsTraceOfFour text.items) }
{
    let mut out = String::new(alloc);
    let mut words = Xoshiro256PlusPlus::seed_from_u64(number);
    out.push_str(HEADER)?;
    put_starts(&mut out)?;
    put_rounds(&mut out, &mut words)?;
    put_ends(&mut out)?;
    out.push_str("end\n")?;
    Ok(out.into_bytes())
}

fn put_starts(out: &mut String) -> Result<(), AllocError>
    ensures { OnOk result (string_bytes out.new ≡ string_bytes out.old ++ lines_text (of_threads first_lines)) }
{
    put_first_lines(out, 0)?;
    put_first_lines(out, 1)?;
    put_first_lines(out, 2)?;
    put_first_lines(out, 3)
}

fn put_rounds(out: &mut String, words: &mut Xoshiro256PlusPlus) -> Result<(), AllocError>
    ensures { OnOk result (string_bytes out.new ≡ string_bytes out.old ++ lines_text (rounds (stream_words 2000 (stream_of (steps_u64_high plus_plus) words.old)))) }
{
    for _round in 0..ROUNDS {
        put_round(out, words)?;
    }
    Ok(())
}

/// One word for each of the four threads, in their order.
#[tactic(auto, unfolding(crate::specs::Generated::round_lines))]
fn put_round(out: &mut String, words: &mut Xoshiro256PlusPlus) -> Result<(), AllocError>
    ensures text { OnOk result (string_bytes out.new ≡ string_bytes out.old ++ lines_text (next_round (stream_of (steps_u64_high plus_plus) words.old))) }
    ensures left { stream_of (steps_u64_high plus_plus) words.new ≡ after_words 4 (stream_of (steps_u64_high plus_plus) words.old) }
{
    let first = words.next_u64();
    let second = words.next_u64();
    let third = words.next_u64();
    let fourth = words.next_u64();
    put_drawn(out, 0, first)?;
    put_drawn(out, 1, second)?;
    put_drawn(out, 2, third)?;
    put_drawn(out, 3, fourth)
}

fn put_ends(out: &mut String) -> Result<(), AllocError>
    ensures { OnOk result (string_bytes out.new ≡ string_bytes out.old ++ lines_text (of_threads last_lines)) }
{
    put_last_lines(out, 0)?;
    put_last_lines(out, 1)?;
    put_last_lines(out, 2)?;
    put_last_lines(out, 3)
}
