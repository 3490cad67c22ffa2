// The fields of a record.
ghost use Rattle.std.specs.Prelude.{◌≡◌, ◌≤◌, [], length, nat_le};
ghost use Rattle.laws.specs.Choice.{pick};
ghost use Rattle.laws.specs.Lists as lists;
ghost use Rattle.rules.specs.Replay as replay;
ghost use Rattle.slots.specs.State.{settings_of};

use slots::state::Settings;

// A function for each field of a record: its contract names the field's place in document 01.
pub fn kind(r: &[u8]) -> u8
    ensures { result ≡ replay.kind_at r.now }
{
    octets::octet(r, 0)
}

pub fn slot(r: &[u8]) -> usize
    ensures { result ≡ replay.slot_octet r.now }
{
    octets::octet(r, 1) as usize
}

fn size(r: &[u8]) -> usize
    ensures { result ≡ replay.length_at r.now }
{
    octets::field2(r, 2) as usize
}

pub fn time(r: &[u8]) -> u32
    ensures { result ≡ replay.time_at r.now }
{
    octets::field4(r, 4)
}

// The first n octets of the data, none if there is no room for so many.
fn part(r: &[u8], at: usize, n: usize, most: usize) -> &[u8]
    ensures { result.now ≡ pick (nat_le n most) (lists.part r.now at n) [] }
{
    if n <= most {
        return octets::part_of(r, at, n);
    }
    &[]
}

pub fn packet(r: &[u8]) -> &[u8]
    ensures { result.now ≡ replay.packet_in r.now }
{
    part(r, 8, size(r), 284)
}

pub fn key(r: &[u8]) -> &[u8]
    ensures { result.now ≡ replay.key_in r.now }
{
    part(r, 8, slot(r), 16)
}

pub fn payload(r: &[u8]) -> &[u8]
    ensures { result.now ≡ replay.payload_in r.now }
{
    part(r, 24, size(r), 32)
}

pub fn id(r: &[u8]) -> &[u8]
    ensures { result.now ≡ lists.part r.now 8 4 }
{
    octets::part_of(r, 8, 4)
}

pub fn settings(r: &[u8]) -> Settings
    requires { 12 ≤ length r.now }
    ensures { settings_of result ≡ replay.settings_in r.now }
{
    Settings {
        id: octets::array4(id(r)),
        protocol: octets::field2(r, 12),
        group: octets::field2(r, 14),
        interval: octets::field2(r, 16),
        factor: octets::field2(r, 18),
    }
}
