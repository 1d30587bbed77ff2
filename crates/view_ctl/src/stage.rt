//! What the controller keeps in each of its phases.

ghost use Rattle.std.specs.Prelude.{◌≡◌};
ghost use Rattle.lazy_rules.specs.ControlRules.{new_reign, new_taken};

use plain_lists::Sequence;
use rec_id::{ItemList, WindowList};
use std::alloc::Global;
use std::marker::Model;
use view_config::{Config, NodeList};

/// A view that has started, and which of its sequencing replicas said so.
#[derive(Drop)]
pub(crate) struct Reign {
    pub(crate) config: Config,
    pub(crate) started: NodeList,
}

/// A view that is being sealed, and the configuration that comes after it.
#[derive(Drop)]
pub(crate) struct Change {
    pub(crate) old: Config,
    pub(crate) coming: Config,
}

/// The taken state and the configuration to whose shards it is flushed: how much of it is bound, what
/// follows, the marks of both, and which shards have it.
#[derive(Drop)]
pub(crate) struct Taken {
    pub(crate) config: Config,
    pub(crate) from: u32,
    pub(crate) items: ItemList,
    pub(crate) window: WindowList,
    pub(crate) flushed: Sequence<usize>,
}

/// What the controller is at, with what it keeps meanwhile.
#[derive(Drop)]
pub(crate) enum Stage {
    Running(Reign),
    Sealing(Change),
    Flushing(Taken),
}

impl Model for Reign {
    ghost use Rattle.lazy_rules.specs.ControlState.{Reign as RunningView};

    ghost Value = { RunningView };

    ghost view = { λ a. record { config = a.config; started = a.started } };
}

impl Model for Change {
    ghost use Rattle.lazy_rules.specs.ControlState.{Change as SealedView};

    ghost Value = { SealedView };

    ghost view = { λ a. record { old = a.old; coming = a.coming } };
}

impl Model for Taken {
    ghost use Rattle.lazy_rules.specs.ControlState.{Taken as TakenState};

    ghost Value = { TakenState };

    ghost view = { λ a. record { config = a.config; from = a.from; items = a.items; window = a.window; flushed = a.flushed } };
}

impl Reign {
    /// A view of which no replica has said yet that it started.
    pub(crate) fn new(alloc: Global, config: Config) -> Reign
        ensures { result ≡ new_reign config }
    {
        Reign {
            config,
            started: Sequence::new(alloc),
        }
    }
}

impl Taken {
    /// A taken state that no shard has yet.
    pub(crate) fn new(
        alloc: Global,
        config: Config,
        from: u32,
        items: ItemList,
        window: WindowList,
    ) -> Taken
        ensures { result ≡ new_taken config from items window }
    {
        Taken {
            config,
            from,
            items,
            window,
            flushed: Sequence::new(alloc),
        }
    }
}
