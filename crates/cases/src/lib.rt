// The marked cases of document 01 in one constant table, proved under a single statement: the contract of `marked`.
#![tactic(auto)]

ghost use Rattle.std.specs.Prelude.{◌≡◌};
ghost use Rattle.cases.specs.Cases.{numbers, outcome, case_at};

// What is computed from the numbers of a row. `outcome` says how.
#[derive(Clone, Copy, PartialEq, Eq)]
pub enum Rule {
    Order,
    Next,
    SetCode,
    Stale,
    Product,
    Checksum,
    RecordLength,
    PacketLength,
    PacketCode,
}

// The numbers of a row, unused ones 0; a CSA number by its 32 bits.
#[derive(Clone, Copy, PartialEq, Eq)]
pub struct Numbers(pub u32, pub u32, pub u32, pub u32, pub u32);

// A row: which marked case it is of, its rule, the numbers and the expected result.
#[derive(Clone, Copy, PartialEq, Eq)]
pub struct Case(pub u32, pub Rule, pub Numbers, pub u32);

const CASES: [Case; 18] = [
    // -2147483647 is older than 0
    Case(1, Rule::Order, Numbers(0x80000001, 0, 0, 0, 0), 0),
    // 2147483647 is newer than -2147483647
    Case(2, Rule::Order, Numbers(0x7FFFFFFF, 0x80000001, 0, 0, 0), 2),
    // 0xFFFFFFFF is older than 0
    Case(3, Rule::Order, Numbers(0xFFFFFFFF, 0, 0, 0, 0), 0),
    // 0x80000000 in a record: code 10
    Case(4, Rule::PacketCode, Numbers(1, 1, 0, 0x80000000, 0), 10),
    // set at 2147483645 gives 2147483646; the next, 16
    Case(5, Rule::SetCode, Numbers(2147483645, 0, 0, 0, 0), 0),
    Case(5, Rule::Next, Numbers(2147483645, 0, 0, 0, 0), 2147483646),
    Case(5, Rule::SetCode, Numbers(2147483646, 0, 0, 0, 0), 16),
    // interval 10, factor 3: alive at 30 seconds, Waiting at 31
    Case(6, Rule::Stale, Numbers(10, 3, 0, 30, 0), 0),
    Case(6, Rule::Stale, Numbers(10, 3, 0, 31, 0), 1),
    // 65535 times 65535 is 4294836225, and so many seconds are not too many
    Case(7, Rule::Product, Numbers(65535, 65535, 0, 0, 0), 4294836225),
    Case(7, Rule::Stale, Numbers(65535, 65535, 0, 4294836225, 0), 0),
    Case(7, Rule::Stale, Numbers(65535, 65535, 0, 4294836226, 0), 1),
    // the Hello of the listing: 10.0.0.2, 2, 7, 10, 3
    Case(8, Rule::Checksum, Numbers(0x0A000002, 2, 7, 10, 3), 0xF0C2),
    // key 16, payload 32: record length 64; payload 33: code 10
    Case(9, Rule::RecordLength, Numbers(1, 16, 32, 1, 0), 64),
    Case(9, Rule::PacketCode, Numbers(1, 16, 32, 1, 0), 0),
    Case(9, Rule::PacketCode, Numbers(1, 16, 33, 1, 0), 10),
    // four such records fill 284 octets
    Case(10, Rule::PacketLength, Numbers(4, 16, 32, 1, 0), 284),
    Case(10, Rule::PacketCode, Numbers(4, 16, 32, 1, 0), 0),
];

// The row at a place of the table: the case that the paper has there, with the result that the definitions give.
pub fn marked(i: usize) -> Option<Case>
    ensures { result ≡ case_at i }
{
    CASES.get(i).copied()
}

// Case 7 by the server's own function of two 16-bit numbers: no product of theirs is too large for 32 bits.
pub fn longest_alive() -> u32
    ensures { result ≡ outcome (Rule.Product) (numbers 65535 65535 0 0 0) }
{
    slots::times::product(65535, 65535)
}
