//! When two messages are the same.

ghost use Rattle.std.specs.Prelude.{◌≡◌, ◌↔◌, IsTrue};

use lazy_msgs::Msg;
use plain_lists::Sequence;
use rec_id::{Body, Bytes, Cell, Entry, Item, Marks, RecordId};
use view_config::Config;

/// Values that can be told apart.
pub(crate) trait Same {
    fn same(&self, other: &Self) -> bool
        ensures { IsTrue result ↔ (self.now ≡ other.now) };
}

impl Same for u32 {
    fn same(&self, other: &u32) -> bool {
        *self == *other
    }
}

impl Same for u64 {
    fn same(&self, other: &u64) -> bool {
        *self == *other
    }
}

impl Same for RecordId {
    fn same(&self, other: &RecordId) -> bool {
        *self == *other
    }
}

impl Same for Bytes {
    fn same(&self, other: &Bytes) -> bool {
        self.as_slice() == other.as_slice()
    }
}

impl<T: Same + Drop> Same for Option<T> {
    fn same(&self, other: &Option<T>) -> bool {
        match self {
            Some(member) => match other {
                Some(its) => member.same(its),
                None => false,
            },
            None => other.is_none(),
        }
    }
}

/// The two lists have the same members, in the same order.
fn same_members<T: Same + Drop>(members: &[T], others: &[T]) -> bool
    ensures { IsTrue result ↔ (members.now ≡ others.now) }
{
    if members.len() != others.len() {
        return false;
    }
    for i in 0..members.len() {
        if !members[i].same(&others[i]) {
            return false;
        }
    }
    true
}

impl<T: Same + Drop> Same for Sequence<T> {
    fn same(&self, other: &Sequence<T>) -> bool {
        same_members(self.as_slice(), other.as_slice())
    }
}

impl Same for Item {
    fn same(&self, other: &Item) -> bool {
        self.id.same(&other.id) && self.bytes.same(&other.bytes)
    }
}

impl Same for Body {
    fn same(&self, other: &Body) -> bool {
        match self {
            Body::Elsewhere => matches!(other, Body::Elsewhere),
            Body::Kept(bytes) => match other {
                Body::Kept(its) => bytes.same(its),
                _ => false,
            },
            Body::Noop => matches!(other, Body::Noop),
            Body::Open => matches!(other, Body::Open),
            Body::Gone => matches!(other, Body::Gone),
        }
    }
}

impl Same for Cell {
    fn same(&self, other: &Cell) -> bool {
        self.id.same(&other.id) && self.body.same(&other.body)
    }
}

impl Same for Entry {
    fn same(&self, other: &Entry) -> bool {
        match self {
            Entry::Kept(id, bytes) => match other {
                Entry::Kept(its, data) => id.same(its) && bytes.same(data),
                _ => false,
            },
            Entry::Noop(id) => match other {
                Entry::Noop(its) => id.same(its),
                _ => false,
            },
            Entry::Gone(id) => match other {
                Entry::Gone(its) => id.same(its),
                _ => false,
            },
        }
    }
}

impl Same for (u32, Entry) {
    fn same(&self, other: &(u32, Entry)) -> bool {
        self.0.same(&other.0) && self.1.same(&other.1)
    }
}

impl Same for Marks {
    fn same(&self, other: &Marks) -> bool {
        self.top.same(&other.top) && self.bits.same(&other.bits)
    }
}

impl Same for Config {
    fn same(&self, other: &Config) -> bool {
        self.view.same(&other.view) && self.seq.same(&other.seq) && self.shards.same(&other.shards)
    }
}

impl Same for Msg {
    fn same(&self, other: &Msg) -> bool {
        match self {
            Msg::Append { view, id, bytes } => match other {
                Msg::Append {
                    view: its_view,
                    id: its_id,
                    bytes: its_bytes,
                } => view.same(its_view) && id.same(its_id) && bytes.same(its_bytes),
                _ => false,
            },
            Msg::AppendAck { view, id } => match other {
                Msg::AppendAck {
                    view: its_view,
                    id: its_id,
                } => view.same(its_view) && id.same(its_id),
                _ => false,
            },
            Msg::Put { id, bytes } => match other {
                Msg::Put {
                    id: its_id,
                    bytes: its_bytes,
                } => id.same(its_id) && bytes.same(its_bytes),
                _ => false,
            },
            Msg::DataAck { view, id } => match other {
                Msg::DataAck {
                    view: its_view,
                    id: its_id,
                } => view.same(its_view) && id.same(its_id),
                _ => false,
            },
            Msg::Rejected { id, place } => match other {
                Msg::Rejected {
                    id: its_id,
                    place: its_place,
                } => id.same(its_id) && place.same(its_place),
                _ => false,
            },
            Msg::Place { view, from, items } => match other {
                Msg::Place {
                    view: its_view,
                    from: its_from,
                    items: its_items,
                } => view.same(its_view) && from.same(its_from) && items.same(its_items),
                _ => false,
            },
            Msg::Placed { view, upto } => match other {
                Msg::Placed {
                    view: its_view,
                    upto: its_upto,
                } => view.same(its_view) && upto.same(its_upto),
                _ => false,
            },
            Msg::Copy { view, from, cells } => match other {
                Msg::Copy {
                    view: its_view,
                    from: its_from,
                    cells: its_cells,
                } => view.same(its_view) && from.same(its_from) && cells.same(its_cells),
                _ => false,
            },
            Msg::Copied { view, upto } => match other {
                Msg::Copied {
                    view: its_view,
                    upto: its_upto,
                } => view.same(its_view) && upto.same(its_upto),
                _ => false,
            },
            Msg::Order { view, from, ids } => match other {
                Msg::Order {
                    view: its_view,
                    from: its_from,
                    ids: its_ids,
                } => view.same(its_view) && from.same(its_from) && ids.same(its_ids),
                _ => false,
            },
            Msg::Ordered { view, upto } => match other {
                Msg::Ordered {
                    view: its_view,
                    upto: its_upto,
                } => view.same(its_view) && upto.same(its_upto),
                _ => false,
            },
            Msg::Stable { view, upto } => match other {
                Msg::Stable {
                    view: its_view,
                    upto: its_upto,
                } => view.same(its_view) && upto.same(its_upto),
                _ => false,
            },
            Msg::Probe { view, read } => match other {
                Msg::Probe {
                    view: its_view,
                    read: its_read,
                } => view.same(its_view) && read.same(its_read),
                _ => false,
            },
            Msg::ProbeAck { view, read } => match other {
                Msg::ProbeAck {
                    view: its_view,
                    read: its_read,
                } => view.same(its_view) && read.same(its_read),
                _ => false,
            },
            Msg::TailReady { view, read, tail } => match other {
                Msg::TailReady {
                    view: its_view,
                    read: its_read,
                    tail: its_tail,
                } => view.same(its_view) && read.same(its_read) && tail.same(its_tail),
                _ => false,
            },
            Msg::Fetch { read, from, to } => match other {
                Msg::Fetch {
                    read: its_read,
                    from: its_from,
                    to: its_to,
                } => read.same(its_read) && from.same(its_from) && to.same(its_to),
                _ => false,
            },
            Msg::Part {
                read,
                from,
                end,
                entries,
            } => match other {
                Msg::Part {
                    read: its_read,
                    from: its_from,
                    end: its_end,
                    entries: its_entries,
                } => read.same(its_read)
                    && from.same(its_from)
                    && end.same(its_end)
                    && entries.same(its_entries),
                _ => false,
            },
            Msg::Flush {
                config,
                from,
                items,
            } => match other {
                Msg::Flush {
                    config: its_config,
                    from: its_from,
                    items: its_items,
                } => config.same(its_config) && from.same(its_from) && items.same(its_items),
                _ => false,
            },
            Msg::FlushCopy { view, from, cells } => match other {
                Msg::FlushCopy {
                    view: its_view,
                    from: its_from,
                    cells: its_cells,
                } => view.same(its_view) && from.same(its_from) && cells.same(its_cells),
                _ => false,
            },
            Msg::Flushed { view } => match other {
                Msg::Flushed { view: its_view } => view.same(its_view),
                _ => false,
            },
            Msg::Seal { view } => match other {
                Msg::Seal { view: its_view } => view.same(its_view),
                _ => false,
            },
            Msg::Sealed {
                view,
                bound,
                window,
                items,
            } => match other {
                Msg::Sealed {
                    view: its_view,
                    bound: its_bound,
                    window: its_window,
                    items: its_items,
                } => view.same(its_view)
                    && bound.same(its_bound)
                    && window.same(its_window)
                    && items.same(its_items),
                _ => false,
            },
            Msg::SealedEmpty { view } => match other {
                Msg::SealedEmpty { view: its_view } => view.same(its_view),
                _ => false,
            },
            Msg::NewView {
                config,
                base,
                window,
            } => match other {
                Msg::NewView {
                    config: its_config,
                    base: its_base,
                    window: its_window,
                } => config.same(its_config) && base.same(its_base) && window.same(its_window),
                _ => false,
            },
            Msg::Started { view } => match other {
                Msg::Started { view: its_view } => view.same(its_view),
                _ => false,
            },
            Msg::AskView => matches!(other, Msg::AskView),
            Msg::ViewIs { config } => match other {
                Msg::ViewIs { config: its_config } => config.same(its_config),
                _ => false,
            },
            Msg::Claim { stable } => match other {
                Msg::Claim { stable: its_stable } => stable.same(its_stable),
                _ => false,
            },
            Msg::Trim { read, floor } => match other {
                Msg::Trim {
                    read: its_read,
                    floor: its_floor,
                } => read.same(its_read) && floor.same(its_floor),
                _ => false,
            },
            Msg::TrimAck { read } => match other {
                Msg::TrimAck { read: its_read } => read.same(its_read),
                _ => false,
            },
            Msg::TrimmedAt { read, floor } => match other {
                Msg::TrimmedAt {
                    read: its_read,
                    floor: its_floor,
                } => read.same(its_read) && floor.same(its_floor),
                _ => false,
            },
        }
    }
}
