// A world that is led through a schedule.
ghost use Rattle.std.specs.Prelude.{◌≡◌, ◌<◌, ◌≤◌, ℕ, true, length, slice_index, IfErr, OnOk, OnErr};
ghost use Rattle.vk_device.specs.Faults.{HasCause};
ghost use Rattle.play_model.specs.Plays.{HasEnded, MayPlay, none_done};
ghost use Rattle.world_core.specs.World.{play_of};
ghost use Rattle.world_core.specs.Steps.{HasHalted, IsAtBack};
ghost use Rattle.schedule.specs.Moves.{schedule, ready_threads, back_move, back_moves};
ghost use Rattle.schedule.specs.Made.{IsMade, IsStopped, AreMade, AreCutOff};

use play_model::some_thread_is_ready;
use rand_core::SeedableRng;
use rand_core::utils::NextWord;
use rand_xoshiro::Xoshiro256PlusPlus;
use vk_device::Device;
use vk_types::Stop;
use world_core::{Event, World};

/// Leads a world in which no line was answered through the schedule of its threads and this seed, until each line was answered or a step
/// ends by a stop. A round costs what its events cost, and a look at each thread.
pub fn play<D: Device>(world: &mut World<D>, seed: u64) -> Result<(), Stop>
    requires running { world.old.running ≡ true }
    requires fresh { world.old.done ≡ none_done world.old.threads }
    ensures made { OnOk result (AreMade D.journal world.old world.new (schedule world.old.threads seed)) }
    ensures running { OnOk result (world.new.running ≡ true) }
    ensures all { OnOk result ((thread : ℕ) → thread < length world.old.threads → HasEnded world.old.threads world.new.done thread) }
    ensures cut_off { IfErr result (λ stop. AreCutOff D.journal world.old world.new (schedule world.old.threads seed) stop) }
    ensures cause { HasCause (D.faults world.old.back.device) (D.faults world.new.back.device) result }
{
    let mut words = Xoshiro256PlusPlus::seed_from_u64(seed);
    let mut ready = ready_count(world);
    while 0 < ready {
        let word = words.next_word();
        make_back_moves(world, word)?;
        let number = (word >> 16) % u64::from(ready);
        let thread = ready_thread(world, number as u32);
        world.step(Event::Call(thread))?;
        ready = ready_count(world);
    }
    world.is_lawful();
    some_thread_is_ready();
    Ok(())
}

// How many threads are ready.
fn ready_count<D: Device>(world: &World<D>) -> u32
    ensures count { result ≡ length (ready_threads world.now.threads world.now.done) }
    ensures few { result ≤ 16 }
{
    world.is_lawful();
    let mut count = 0;
    for thread in 0..world.thread_count() {
        if world.ready(thread) {
            count += 1;
        }
    }
    count
}

// The ready thread of this number, counted from 0 in rising order.
fn ready_thread<D: Device>(world: &World<D>, number: u32) -> u32
    requires { number < length (ready_threads world.now.threads world.now.done) }
    ensures named { result ≡ slice_index (ready_threads world.now.threads world.now.done) number }
    ensures may { MayPlay world.now.threads (play_of world.now) result }
    ensures declared { result < length world.now.threads }
{
    world.is_lawful();
    let mut left = number;
    for thread in 0..world.thread_count() {
        if world.ready(thread) {
            if left == 0 {
                return thread;
            }
            left -= 1;
        }
    }
    unreachable!()
}

// Has the back make the steps of a round.
fn make_back_moves<D: Device>(world: &mut World<D>, word: u64) -> Result<(), Stop>
    requires { world.old.running ≡ true }
    ensures made { OnOk result (AreMade D.journal world.old world.new (back_moves word)) }
    ensures at_back { OnOk result (IsAtBack world.old world.new) }
    ensures cut_off { IfErr result (λ stop. AreCutOff D.journal world.old world.new (back_moves word) stop) }
    ensures cause { HasCause (D.faults world.old.back.device) (D.faults world.new.back.device) result }
{
    for k in 0..word % 4 {
        make_back_move(world, (word >> (8 + 2 * k)) % 4)?;
    }
    Ok(())
}

// Has the back make the step of this number.
fn make_back_move<D: Device>(world: &mut World<D>, kind: u64) -> Result<(), Stop>
    requires { world.old.running ≡ true }
    ensures made { OnOk result (IsMade D.journal world.old world.new (back_move kind)) }
    ensures at_back { OnOk result (IsAtBack world.old world.new) }
    ensures stopped { IfErr result (λ stop. IsStopped D.journal world.old world.new (back_move kind) stop) }
    ensures halted { OnErr result (HasHalted world.old world.new) }
    ensures cause { HasCause (D.faults world.old.back.device) (D.faults world.new.back.device) result }
{
    let event = match kind {
        0 => Event::Submit,
        1 => Event::Turn,
        2 => Event::Retire,
        _ => Event::Cleanup(world.completed()),
    };
    world.step(event)?;
    Ok(())
}
