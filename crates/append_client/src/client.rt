//! A client's appends: its state, and what can be asked of it.

ghost use Rattle.std.specs.Prelude.{◌≡◌, ◌<◌, [], length, nat_lt, IfOk};
ghost use Rattle.std.specs.List.{list_all};
ghost use Rattle.lazy_rules.specs.ClientState.{first_client, id_of};
ghost use Rattle.lazy_rules.specs.ClientRules.{is_complete, noted, with_node};
ghost use Rattle.lazy_rules.specs.Rows.{has_node};
ghost use Rattle.append_client.specs.AppendState.{append_state};

use crate::nodes::has_node;
use crate::open_append::OpenAppend;
use crate::open_appends::OpenAppends;
use crate::sending::data_nodes;
use rec_id::RecordId;
use std::alloc::{AllocError, Global};
use std::marker::Model;
use view_config::{Config, Shape};

/// How far an append has come.
#[derive(Clone, Copy, Debug, PartialEq, Eq)]
pub enum AppendState {
    NotInvoked,
    Unfinished,
    Finished,
}

/// A client's appends: what it was told to append, and which nodes acknowledged it.
#[derive(Drop)]
pub struct AppendClient {
    pub(crate) shape: Shape,
    pub(crate) client: u32,
    pub(crate) config: Config,
    pub(crate) appends: OpenAppends,
}

impl Model for AppendClient {
    ghost use Rattle.std.specs.Prelude.{◌<◌, ◌≤◌};
    ghost use Rattle.lazy_rules.specs.ClientState.{ClientState};
    ghost use Rattle.view_config.specs.declared.limits.TheConstants.{MAX_CLIENTS};

    ghost Value = { ClientState };

    ghost view = { λ a. record { shape = a.shape; client = a.client; config = a.config; next = a.appends.next; unfinished = a.appends.unfinished } };

    ghost invariant = { λ a. (a.client < a.shape.clients) × (1 ≤ a.shape.shards) × (a.shape.clients ≤ MAX_CLIENTS) };
}

#[tactic(auto, using(crate::proofs::Acknowledged::has_more, crate::proofs::Acknowledged::has_other))]
/// The node is among those that acknowledged, with one more.
fn is_acked(acked: &[u32], more: u32, node: u32) -> bool
    ensures { result ≡ has_node (with_node acked.now more) node }
{
    node == more || has_node(acked, node)
}

/// All of these nodes are among those that acknowledged, with one more.
fn have_all(nodes: &[u32], acked: &[u32], more: u32) -> bool
    ensures { result ≡ list_all (has_node (with_node acked.now more)) nodes.now }
{
    nodes.iter().all(|node| is_acked(acked, more, *node))
}

impl AppendClient {
    /// Client `client`, which has appended nothing.
    pub fn new(alloc: Global, shape: &Shape, client: u32) -> Result<AppendClient, AllocError>
        requires { client < shape.now.clients }
        ensures { IfOk result (λ made. made ≡ first_client shape.now client) }
    {
        // Contracts know the limits of a shape behind a reference once one of its fields is read.
        let _within_limits = &shape.clients;
        Ok(AppendClient {
            shape: *shape,
            client,
            config: Config::initial(alloc, shape)?,
            appends: OpenAppends::new(alloc),
        })
    }

    pub(crate) fn allocator(&self) -> Global {
        self.appends.allocator()
    }

    /// The number of the client whose appends these are.
    pub fn client(&self) -> u32
        ensures is { result ≡ self.now.client }
        ensures within { result < self.now.shape.clients }
    {
        self.client
    }

    /// How far the append of this number has come.
    pub fn state(&self, number: u32) -> AppendState
        ensures { result ≡ append_state self.now number }
    {
        if number == 0 {
            return AppendState::NotInvoked;
        }
        if number >= self.appends.next() {
            return AppendState::NotInvoked;
        }
        if self.appends.get(number).is_some() {
            AppendState::Unfinished
        } else {
            AppendState::Finished
        }
    }

    /// Some append isn't finished.
    pub fn busy(&self) -> bool
        ensures { result ≡ nat_lt 0 (length self.now.unfinished) }
    {
        !self.appends.is_empty()
    }

    /// An equal client.
    pub fn copy(&self) -> Result<AppendClient, AllocError>
        ensures { IfOk result (λ made. made ≡ self.now) }
    {
        Ok(AppendClient {
            shape: self.shape,
            client: self.client,
            config: self.config.copy()?,
            appends: self.appends.copy()?,
        })
    }

    /// All whose word is wanted are among those that acknowledged the append, with one more.
    pub(crate) fn is_complete_with(&self, id: RecordId, append: &OpenAppend, more: u32) -> bool
        requires { id ≡ id_of self.now append.now.number }
        ensures { result ≡ is_complete self.now (noted append.now more) }
    {
        let acked = append.acked.as_slice();
        if !have_all(self.config.seq.as_slice(), acked, more) {
            return false;
        }
        have_all(data_nodes(&self.shape, &self.config, id), acked, more)
    }
}
