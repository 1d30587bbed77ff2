//! The messages that nodes send each other, and their envelopes.

ghost use Rattle.std.specs.Prelude.{◌≡◌, IfOk};

use rec_id::{Bytes, CellList, IdList, ItemList, PlacedList, RecordId, WindowList, copy_optional};
use std::alloc::AllocError;
use view_config::Config;

/// A message. `view` is the view that it was sent in, `read` the number of a read of its client.
#[derive(Drop)]
pub enum Msg {
    /// A client asks a sequencing replica to take a record. The bytes are there in Erwin-m alone.
    Append {
        view: u32,
        id: RecordId,
        bytes: Option<Bytes>,
    },
    /// A sequencing replica has the record.
    AppendAck {
        view: u32,
        id: RecordId,
    },
    /// A client hands a record's data to a shard replica, in Erwin-st.
    Put {
        id: RecordId,
        bytes: Bytes,
    },
    /// A shard replica has the data.
    DataAck {
        view: u32,
        id: RecordId,
    },
    /// The record became a no-op at this place.
    Rejected {
        id: RecordId,
        place: u32,
    },
    /// The leader gives a primary a batch that begins at `from`.
    Place {
        view: u32,
        from: u32,
        items: ItemList,
    },
    /// Every replica of the shard has the order up to `upto`.
    Placed {
        view: u32,
        upto: u32,
    },
    /// A primary gives a backup its cells from `from` on.
    Copy {
        view: u32,
        from: u32,
        cells: CellList,
    },
    /// A backup has the order up to `upto`.
    Copied {
        view: u32,
        upto: u32,
    },
    /// The leader tells a follower which identities are bound from `from` on.
    Order {
        view: u32,
        from: u32,
        ids: IdList,
    },
    /// A follower took the order up to `upto`.
    Ordered {
        view: u32,
        upto: u32,
    },
    /// All places below `upto` are bound for good.
    Stable {
        view: u32,
        upto: u32,
    },
    /// A reader forces the binding for its read.
    Probe {
        view: u32,
        read: u32,
    },
    /// A sequencing replica is still in the view.
    ProbeAck {
        view: u32,
        read: u32,
    },
    /// All that the leader knew when the probe came is stable below `tail`.
    TailReady {
        view: u32,
        read: u32,
        tail: u32,
    },
    /// A reader asks a shard replica for its places in `[from, to)`.
    Fetch {
        read: u32,
        from: u32,
        to: u32,
    },
    /// A shard replica's places in `[from, end)`.
    Part {
        read: u32,
        from: u32,
        end: u32,
        entries: PlacedList,
    },
    /// The controller replaces the order from `from` on, for a new view.
    Flush {
        config: Config,
        from: u32,
        items: ItemList,
    },
    /// A primary hands the flushed cells to a backup.
    FlushCopy {
        view: u32,
        from: u32,
        cells: CellList,
    },
    /// Every replica of the shard has the flushed order.
    Flushed {
        view: u32,
    },
    /// The controller ends a view.
    Seal {
        view: u32,
    },
    /// What a sealed replica had: its bound position, its window and its pending items.
    Sealed {
        view: u32,
        bound: u32,
        window: WindowList,
        items: ItemList,
    },
    /// The replica never started the view, and won't any more.
    SealedEmpty {
        view: u32,
    },
    /// A view starts at the bound position `base`.
    NewView {
        config: Config,
        base: u32,
        window: WindowList,
    },
    /// The replica is in the view.
    Started {
        view: u32,
    },
    /// A client asks for the newest configuration that has started.
    AskView,
    /// The configuration of the latest started view.
    ViewIs {
        config: Config,
    },
    /// A shard replica claims the order below `stable` on the board.
    Claim {
        stable: u32,
    },
    /// A client gives up the bytes below `floor`.
    Trim {
        read: u32,
        floor: u32,
    },
    /// The shard replica gave them up.
    TrimAck {
        read: u32,
    },
    /// The bytes that a fetch asked for were given up below `floor`.
    TrimmedAt {
        read: u32,
        floor: u32,
    },
}

impl Clone for Msg {
    ghost is_clone = { λ a b. b ≡ a };

    fn clone(&self) -> Result<Self, AllocError> {
        match self {
            Msg::Append { view, id, bytes } => Ok(Msg::Append {
                view: *view,
                id: *id,
                bytes: copy_optional(bytes)?,
            }),
            Msg::AppendAck { view, id } => Ok(Msg::AppendAck {
                view: *view,
                id: *id,
            }),
            Msg::Put { id, bytes } => Ok(Msg::Put {
                id: *id,
                bytes: bytes.clone()?,
            }),
            Msg::DataAck { view, id } => Ok(Msg::DataAck {
                view: *view,
                id: *id,
            }),
            Msg::Rejected { id, place } => Ok(Msg::Rejected {
                id: *id,
                place: *place,
            }),
            Msg::Place { view, from, items } => Ok(Msg::Place {
                view: *view,
                from: *from,
                items: items.copy()?,
            }),
            Msg::Placed { view, upto } => Ok(Msg::Placed {
                view: *view,
                upto: *upto,
            }),
            Msg::Copy { view, from, cells } => Ok(Msg::Copy {
                view: *view,
                from: *from,
                cells: cells.copy()?,
            }),
            Msg::Copied { view, upto } => Ok(Msg::Copied {
                view: *view,
                upto: *upto,
            }),
            Msg::Order { view, from, ids } => Ok(Msg::Order {
                view: *view,
                from: *from,
                ids: ids.copy()?,
            }),
            Msg::Ordered { view, upto } => Ok(Msg::Ordered {
                view: *view,
                upto: *upto,
            }),
            Msg::Stable { view, upto } => Ok(Msg::Stable {
                view: *view,
                upto: *upto,
            }),
            Msg::Probe { view, read } => Ok(Msg::Probe {
                view: *view,
                read: *read,
            }),
            Msg::ProbeAck { view, read } => Ok(Msg::ProbeAck {
                view: *view,
                read: *read,
            }),
            Msg::TailReady { view, read, tail } => Ok(Msg::TailReady {
                view: *view,
                read: *read,
                tail: *tail,
            }),
            Msg::Fetch { read, from, to } => Ok(Msg::Fetch {
                read: *read,
                from: *from,
                to: *to,
            }),
            Msg::Part {
                read,
                from,
                end,
                entries,
            } => Ok(Msg::Part {
                read: *read,
                from: *from,
                end: *end,
                entries: entries.copy()?,
            }),
            Msg::Flush {
                config,
                from,
                items,
            } => Ok(Msg::Flush {
                config: config.copy()?,
                from: *from,
                items: items.copy()?,
            }),
            Msg::FlushCopy { view, from, cells } => Ok(Msg::FlushCopy {
                view: *view,
                from: *from,
                cells: cells.copy()?,
            }),
            Msg::Flushed { view } => Ok(Msg::Flushed { view: *view }),
            Msg::Seal { view } => Ok(Msg::Seal { view: *view }),
            Msg::Sealed {
                view,
                bound,
                window,
                items,
            } => Ok(Msg::Sealed {
                view: *view,
                bound: *bound,
                window: window.copy()?,
                items: items.copy()?,
            }),
            Msg::SealedEmpty { view } => Ok(Msg::SealedEmpty { view: *view }),
            Msg::NewView {
                config,
                base,
                window,
            } => Ok(Msg::NewView {
                config: config.copy()?,
                base: *base,
                window: window.copy()?,
            }),
            Msg::Started { view } => Ok(Msg::Started { view: *view }),
            Msg::AskView => Ok(Msg::AskView),
            Msg::ViewIs { config } => Ok(Msg::ViewIs {
                config: config.copy()?,
            }),
            Msg::Claim { stable } => Ok(Msg::Claim { stable: *stable }),
            Msg::Trim { read, floor } => Ok(Msg::Trim {
                read: *read,
                floor: *floor,
            }),
            Msg::TrimAck { read } => Ok(Msg::TrimAck { read: *read }),
            Msg::TrimmedAt { read, floor } => Ok(Msg::TrimmedAt {
                read: *read,
                floor: *floor,
            }),
        }
    }
}

impl Msg {
    /// An equal message.
    pub fn copy(&self) -> Result<Msg, AllocError>
        ensures { IfOk result (λ made. made ≡ self.now) }
    {
        self.clone()
    }
}

/// A message on its way: from which node to which, and the Lamport time of the step that sent it.
#[derive(Drop)]
pub struct Envelope {
    pub from: u32,
    pub to: u32,
    pub time: u64,
    pub msg: Msg,
}

impl Clone for Envelope {
    ghost is_clone = { λ a b. b ≡ a };

    fn clone(&self) -> Result<Self, AllocError> {
        Ok(Envelope {
            from: self.from,
            to: self.to,
            time: self.time,
            msg: self.msg.copy()?,
        })
    }
}

impl Envelope {
    /// An equal envelope.
    pub fn copy(&self) -> Result<Envelope, AllocError>
        ensures { IfOk result (λ made. made ≡ self.now) }
    {
        self.clone()
    }
}
