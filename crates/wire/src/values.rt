// The rules on the values of fields.
ghost use Rattle.std.specs.Prelude.{◌≡◌, not, ◌||◌};
ghost use Rattle.protocol.specs.Sizes.{id_length};
ghost use Rattle.protocol.specs.Checks as definition;

use protocol::Kind;

fn is_request(k: Kind) -> bool
    ensures { result ≡ definition.is_request_kind k }
{
    k == Kind::CsuRequest
}

// The paper's numbers, which Kind itself has not.
pub fn count_most(k: Kind) -> u16
    ensures { result ≡ definition.count_most k }
{
    match k {
        Kind::Ca | Kind::CsuRequest | Kind::CsuReply | Kind::Csus => 4,
        Kind::Hello => 8,
    }
}

pub fn receiver_length_good(k: Kind, n: u8) -> bool
    ensures { result ≡ definition.receiver_length_good id_length k n }
{
    n == 4 || (k == Kind::Hello && n == 0)
}

pub fn key_length_good(k: Kind, key: usize, size: usize, len: usize) -> bool
    ensures { result ≡ definition.key_length_good k key size len }
{
    0 < key && key <= 16 && (len == size || (is_request(k) && size <= len))
}

// N is right in a CSU Request only.
pub fn n_good(k: Kind, null: bool) -> bool
    ensures { result ≡ (definition.is_request_kind k || not null) }
{
    is_request(k) || !null
}

pub fn payload_good(null: bool, bits: u32, n: usize) -> bool
    ensures { result ≡ definition.payload_good null bits n }
{
    n <= 32 && (n == 0 || (!null && bits != 2147483647))
}
