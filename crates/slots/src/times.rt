// Times are whole seconds.
ghost use Rattle.std.specs.Prelude.{◌≡◌, ◌*◌};
ghost use Rattle.protocol.specs.Hello as hello;
ghost use Rattle.rules.specs.Slots as rules;

// The product of two numbers of 16 bits fits 32 bits.
pub fn product(a: u16, b: u16) -> u32
    ensures { result ≡ a * b }
{
    u32::from(a) * u32::from(b)
}

// Whether n seconds or more have passed; none yet counts as passed.
pub fn passed(n: u32, last: Option<u32>, now: u32) -> bool
    ensures { result ≡ rules.passed n last now }
{
    last.is_none_or(|then| n <= now.saturating_sub(then))
}

// Whether more than interval times factor seconds have passed since the last taken Hello.
pub fn stale(interval: u16, factor: u16, heard: u32, now: u32) -> bool
    ensures { result ≡ hello.stale interval factor heard now }
{
    product(interval, factor) < now.saturating_sub(heard)
}
