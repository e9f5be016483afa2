// The workers of a back, side by side.
ghost use Rattle.std.specs.Prelude.{◌≡◌, ◌+◌, ◌-◌, ◌≤◌, ◌<◌, false, true, IfErr, OnOk, OnErr};
ghost use Rattle.std.specs.Bool.{OnTrue};
ghost use denote.Param.Send.{IsSend, IsSync};
ghost use mathlib.Core.List.{IsPrefix};
ghost use Rattle.back_core.specs.declared.ending.Ending.TheVariants.{Stopped};
ghost use Rattle.back_core.specs.Back.{ending_of};
ghost use Rattle.shared_gpu.specs.Notes.{events_of};
ghost use Rattle.shared_gpu.specs.Turns.{IsKept};
ghost use Rattle.shared_gpu.specs.Workers.{IsDone, AllAreRetired, AllHaveRun, NoneWaits};
ghost use Rattle.trace_threads.specs.Joins.{HasJoined, WasDone};

use shared_gpu::{Shared, cleanup_worker, device_worker, submission_worker};
use std::sync::Wait;
use std::thread::{Threads, join};
use turnstile::{Pass, Turnstile};
use vk_device::Device;
use vk_types::Stop;

/// The submission worker, the cleanup worker and so many device workers, each in a thread of its own where one can be started, and
/// else one after the other. All of them have ended when it returns. The passes of the device workers are made of pass 0, and joined
/// into it. Beside the passes it answers what the workers answered, and whether each device worker ended well.
pub fn run_workers<D: Device + Send, R: Threads + Wait + Sync>(
    rt: &R,
    back: &Turnstile<Shared<D>>,
    submission: Pass<Shared<D>>,
    cleanup: Pass<Shared<D>>,
    zero: Pass<Shared<D>>,
    devices: u8,
) -> (
    (Pass<Shared<D>>, Result<(), Stop>),
    ((Pass<Shared<D>>, Result<(), Stop>), (Pass<Shared<D>>, bool)),
)
    requires submission { (submission.name ≡ back.now.name) × (submission.holds ≡ false) }
    requires cleanup { (cleanup.name ≡ back.now.name) × (cleanup.holds ≡ false) }
    requires zero { (zero.name ≡ back.now.name) × (zero.number ≡ 0) × (zero.holds ≡ false) }
    requires seats { zero.made + devices ≤ back.now.seats }
    ensures submission { IsKept submission result.0.0 }
    ensures retired { OnOk result.0.1 (IsDone AllAreRetired result.0.0.seen) }
    ensures cleanup { IsKept cleanup result.1.0.0 }
    ensures cleaned { OnOk result.1.0.1 (IsDone NoneWaits result.1.0.0.seen) }
    ensures joined { HasJoined zero result.1.1.0 devices }
    ensures ran { 0 < devices → result.1.1.1 ≡ true → WasDone AllHaveRun result.1.1.0.seen }
{
    join(
        rt,
        move || -> (Pass<Shared<D>>, Result<(), Stop>)
            requires { (submission.name ≡ back.now.name) × (submission.holds ≡ false) }
            ensures { IsKept submission result.0 × OnOk result.1 (IsDone AllAreRetired result.0.seen) }
        { submission_worker(rt, back, submission) },
        move || -> ((Pass<Shared<D>>, Result<(), Stop>), (Pass<Shared<D>>, bool))
            requires { IsSync R.row × IsSend D.row × (cleanup.name ≡ back.now.name) × (cleanup.holds ≡ false) ×
                (zero.name ≡ back.now.name) × (zero.number ≡ 0) × (zero.holds ≡ false) × (zero.made + devices ≤ back.now.seats) }
            ensures { IsKept cleanup result.0.0 × OnOk result.0.1 (IsDone NoneWaits result.0.0.seen) × HasJoined zero result.1.0 devices ×
                (0 < devices → result.1.1 ≡ true → WasDone AllHaveRun result.1.0.seen) }
        { run_cleanup(rt, back, cleanup, zero, devices) },
    )
}

// The cleanup worker and so many device workers.
fn run_cleanup<D: Device + Send, R: Threads + Wait + Sync>(
    rt: &R,
    back: &Turnstile<Shared<D>>,
    cleanup: Pass<Shared<D>>,
    zero: Pass<Shared<D>>,
    devices: u8,
) -> ((Pass<Shared<D>>, Result<(), Stop>), (Pass<Shared<D>>, bool))
    requires bounds { IsSync R.row × IsSend D.row }
    requires cleanup { (cleanup.name ≡ back.now.name) × (cleanup.holds ≡ false) }
    requires zero { (zero.name ≡ back.now.name) × (zero.number ≡ 0) × (zero.holds ≡ false) }
    requires seats { zero.made + devices ≤ back.now.seats }
    ensures cleanup { IsKept cleanup result.0.0 }
    ensures cleaned { OnOk result.0.1 (IsDone NoneWaits result.0.0.seen) }
    ensures joined { HasJoined zero result.1.0 devices }
    ensures ran { 0 < devices → result.1.1 ≡ true → WasDone AllHaveRun result.1.0.seen }
{
    join(
        rt,
        move || -> (Pass<Shared<D>>, Result<(), Stop>)
            requires { (cleanup.name ≡ back.now.name) × (cleanup.holds ≡ false) }
            ensures { IsKept cleanup result.0 × OnOk result.1 (IsDone NoneWaits result.0.seen) }
        { cleanup_worker(rt, back, cleanup) },
        move || -> (Pass<Shared<D>>, bool)
            requires { IsSync R.row × IsSend D.row × (zero.name ≡ back.now.name) × (zero.number ≡ 0) × (zero.holds ≡ false) ×
                (zero.made + devices ≤ back.now.seats) }
            ensures { HasJoined zero result.0 devices × (0 < devices → result.1 ≡ true → WasDone AllHaveRun result.0.seen) }
        { run_devices(rt, back, zero, devices) },
    )
}

// So many device workers. Their passes are made of pass 0, and joined into it. It says whether each of them ended well.
#[cycle(devices)]
fn run_devices<D: Device + Send, R: Threads + Wait + Sync>(
    rt: &R,
    back: &Turnstile<Shared<D>>,
    mut zero: Pass<Shared<D>>,
    count: u8,
) -> (Pass<Shared<D>>, bool)
    requires bounds { IsSync R.row × IsSend D.row }
    requires zero { (zero.name ≡ back.now.name) × (zero.number ≡ 0) × (zero.holds ≡ false) }
    requires seats { zero.made + count ≤ back.now.seats }
    ensures joined { HasJoined zero result.0 count }
    ensures ran { 0 < count → result.1 ≡ true → WasDone AllHaveRun result.0.seen }
{
    if count == 0 {
        return (zero, true);
    }
    let pass = back.split(&mut zero);
    let one = move || -> (Pass<Shared<D>>, Result<(), Stop>)
        requires { (pass.name ≡ back.now.name) × (pass.holds ≡ false) }
        ensures { IsKept pass result.0 × OnOk result.1 (IsDone AllHaveRun result.0.seen) }
    { device_worker(rt, back, pass) };
    let others = move || -> (Pass<Shared<D>>, bool)
        requires { IsSync R.row × IsSend D.row × (zero.name ≡ back.now.name) × (zero.number ≡ 0) × (zero.holds ≡ false) ×
            (zero.made + (count - 1) ≤ back.now.seats) × (1 ≤ count) }
        ensures { HasJoined zero result.0 (count - 1) × (0 < count - 1 → result.1 ≡ true → WasDone AllHaveRun result.0.seen) }
    { run_devices(rt, back, zero, count - 1) };
    let ((pass, answer), (mut zero, all)) = join(rt, one, others);
    back.join(&mut zero, pass);
    match answer {
        Ok(()) => (zero, all),
        Err(_) => (zero, false),
    }
}
