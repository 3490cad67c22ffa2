// Names: key and originator of an entry, one behind the other, as they stand in a packet and in a row.
ghost use Rattle.std.specs.Prelude.{◌≡◌, ◌+◌, ◌<◌, ◌≤◌, ◌++◌, length, take};
ghost use Rattle.protocol.specs.Sizes.{id_length, key_most};
ghost use Rattle.memory.specs.Memory.{tag_of, tagged_entry};
ghost use Rattle.memory.specs.Search.{FitsKey, FitsName};

use crate::layout::ID;
use crate::tags;

// The name of an entry: a row has room for it.
#[derive(Clone, Copy)]
pub struct EntryName<'a> {
    pub octets: &'a [u8],
    pub ghost fits: { FitsName octets.now },
}

// Key and originator put together: the first len octets are the name. An array and a length: there is no heap.
#[derive(Clone, Copy)]
pub struct Name {
    pub octets: [u8; 20],
    pub len: usize,
    pub ghost fits: { (id_length < len) × (len ≤ id_length + key_most) },
}

impl Name {
    pub fn as_entry(&self) -> EntryName
        ensures { result.octets.now ≡ take self.now.len self.now.octets }
    {
        EntryName {
            octets: &self.octets[..self.len],
        }
    }
}

pub fn of_entry(key: &[u8], originator: &[u8]) -> Name
    requires { FitsKey key.now originator.now }
    ensures { (take result.len result.octets ≡ key.now ++ originator.now)
        × ((result.len ≡ length key.now + 4) × (length result.octets ≡ 20)) }
{
    let n = key.len();
    let mut b = [0u8; 20];
    octets::put(&mut b, 0, key);
    octets::put(&mut b, n, originator);
    Name {
        octets: b,
        len: n + 4,
    }
}

// A name with its tag.
#[derive(Clone, Copy)]
pub struct Named<'a> {
    pub name: EntryName<'a>,
    pub tag: u8,
    pub ghost tagged: { tag ≡ tag_of name.octets.now },
}

// The name of the entry of a tag and a name: where the tag is not that of the name, the originator alone.
pub fn tagged(name: &[u8], tag: u8) -> &[u8]
    requires { 4 ≤ length name.now }
    ensures { (result.now ≡ (tagged_entry tag name.now).key ++ (tagged_entry tag name.now).originator)
        × ((4 ≤ length result.now) × (length result.now ≤ length name.now)) }
{
    if tag == tags::tag_of(name) {
        return name;
    }
    octets::tail(name, name.len() - ID)
}
