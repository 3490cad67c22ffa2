// The function of `host` as a static library exports it, for a program in Rust or C to link.
#![tactic(auto)]

ghost use Rattle.std.specs.Prelude.{◌≡◌};
ghost use Rattle.host.specs.Host.{used_after};

// Runs a slice of records from settings to the last, in a memory of its own: the rows used then, 255 where the first record is not accepted settings.
#[unsafe(no_mangle)]
pub extern "C" fn wemelstuif_run(input: &[u8]) -> u32
    ensures { result ≡ used_after input.now }
{
    host::wemelstuif_run(input)
}
