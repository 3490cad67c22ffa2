// Functions for a program in Rust or C to link: on numbers and slices alone.
#![tactic(auto)]

ghost use Rattle.std.specs.Prelude.{◌≡◌};
ghost use Rattle.host.specs.Host.{used_after};

use lines::run;
use memory::Storage;
use table::Slots;

fn run_in(slots: &mut Slots, memory: &mut Storage, input: &[u8]) -> u32
    ensures { result ≡ used_after input.now }
{
    let a = run::run(slots, memory, input);
    if a.outcome.is_ok() {
        return server::queries::rows_used(memory) as u32;
    }
    255
}

// In a memory of its own. By itself, so that a call with less than a record takes no stack for it.
#[inline(never)]
fn run_alone(input: &[u8]) -> u32
    ensures { result ≡ used_after input.now }
{
    let mut slots = table::empty();
    let mut memory = [0u8; 21504];
    run_in(&mut slots, &mut memory, input)
}

// Runs a slice of records from settings to the last, in a memory of its own: the rows used then, 255 where the first record is not accepted settings.
#[unsafe(no_mangle)]
pub extern "C" fn wemelstuif_run(input: &[u8]) -> u32
    ensures { result ≡ used_after input.now }
{
    if input.len() < 292 {
        return 255;
    }
    run_alone(input)
}
