// The records of a packet, each read where it stands.
ghost use Rattle.records.specs.Walks.{Walks, Walks-prop};

use crate::view::RecordView;
use memory::names::EntryName;
use memory::store::Payload;
use wire::record;
use wire::record::Cursor;

// The records that a cursor has before it: four at most, in reach, and a row has room for each.
#[derive(Clone, Copy)]
pub struct Records<'a> {
    pub packet: &'a [u8],
    pub cursor: Cursor,
    pub ghost walks: { Walks packet.now cursor } by { Walks-prop packet.now cursor },
}

impl<'a> Iterator for Records<'a> {
    ghost use Rattle.std.specs.Iterator.{YieldsFirstBy, item_count};
    ghost use Rattle.records.specs.Views.{record_shown, records_left};

    type Item = RecordView<'a>;

    ghost next_gives = { YieldsFirstBy record_shown records_left };

    ghost remaining = { item_count records_left };

    fn next(&mut self) -> Option<RecordView<'a>> {
        let Cursor { at, left } = self.cursor;
        if left == 0 {
            return None;
        }
        let p = self.packet;
        let cursor = Cursor {
            at: at + record::size(p, at),
            left: left - 1,
        };
        *self = Records { packet: p, cursor };
        Some(RecordView {
            hops: record::hops(p, at),
            null: record::null(p, at),
            number: record::number(p, at),
            name: EntryName {
                octets: record::name(p, at),
            },
            payload: Payload {
                octets: record::payload(p, at),
            },
        })
    }
}
