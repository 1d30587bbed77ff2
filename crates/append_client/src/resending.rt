//! What is sent for several appends at once.

ghost use Rattle.std.specs.Prelude.{◌≡◌, ◌<◌, ◌≤◌, ◌++◌, take, flat_map, IfOk, OnOk};
ghost use Rattle.lazy_rules.specs.ClientRules.{sending};
ghost use Rattle.append_client.specs.Appends.{taken};
ghost use Rattle.append_client.specs.Sender.{sender};
ghost use Rattle.view_config.specs.declared.limits.TheConstants.{MAX_CLIENTS};

use crate::client::AppendClient;
use crate::open_append::OpenAppend;
use crate::open_appends::OpenAppends;
use crate::sending::put_sending;
use lazy_msgs::SendList;
use plain_lists::Sequence;
use rec_id::RecordId;
use std::alloc::AllocError;
use view_config::{Config, Shape};

/// Puts behind `sends` what the client of this number sends for an append.
fn put_one(
    sends: &mut SendList,
    shape: &Shape,
    config: &Config,
    client: u32,
    append: &OpenAppend,
) -> Result<(), AllocError>
    requires { client < MAX_CLIENTS }
    ensures { OnOk result (sends.new ≡ sends.old ++ sending (sender shape.now config.now client) append.now) }
{
    let Ok(id) = RecordId::new(client, append.number()) else {
        unreachable!()
    };
    let acked = append.acked.as_slice();
    put_sending(sends, shape, config, id, &append.bytes, acked)
}

impl OpenAppends {
    /// What the client of this number sends for the first `limit` appends.
    fn sending_first(
        &self,
        shape: &Shape,
        config: &Config,
        client: u32,
        limit: usize,
    ) -> Result<SendList, AllocError>
        requires { client < MAX_CLIENTS }
        ensures { IfOk result (λ sends. sends ≡ flat_map (sending (sender shape.now config.now client)) (take limit self.now.unfinished)) }
    {
        let mut sends = Sequence::new(self.allocator());
        let mut left = limit;
        for i in 0..self.slots.len() {
            if left == 0 {
                break;
            }
            if let Some(append) = &self.slots[i] {
                put_one(&mut sends, shape, config, client, append)?;
                left -= 1;
            }
        }
        Ok(sends)
    }
}

impl AppendClient {
    /// What is sent for the first `limit` unfinished appends.
    pub(crate) fn sending_first(&self, limit: usize) -> Result<SendList, AllocError>
        ensures { IfOk result (λ sends. sends ≡ flat_map (sending self.now) (take limit self.now.unfinished)) }
    {
        self.appends
            .sending_first(&self.shape, &self.config, self.client, limit)
    }

    /// What is sent for all unfinished appends.
    pub(crate) fn sending_all(&self) -> Result<SendList, AllocError>
        ensures { IfOk result (λ sends. sends ≡ flat_map (sending self.now) self.now.unfinished) }
    {
        self.sending_first(self.appends.len())
    }
}
