// What a record of a packet says.
use memory::names::EntryName;
use memory::store::Payload;
use protocol::CsaNumber;

// A record of a packet: name and payload stand in the packet.
#[derive(Clone, Copy)]
pub struct RecordView<'a> {
    pub hops: u16,
    pub null: bool,
    pub number: CsaNumber,
    pub name: EntryName<'a>,
    pub payload: Payload<'a>,
}
