//! Whether and where the data of a record is.

ghost use Rattle.std.specs.Prelude.{◌≡◌, option_map};
ghost use Rattle.lazy_rules.specs.Store.{held_bytes, kept_bytes};
ghost use Rattle.std.specs.Option.{option_or};
ghost use Rattle.shard_store.specs.Settling.{has_in};

use crate::held::Held;
use crate::kinds::Kind;
use crate::order::Order;
use crate::settling::bytes_in;
use rec_id::{Bytes, RecordId};

/// The data is held, or kept, or was given up.
pub(crate) fn has_data(order: &Order, held: &Held, id: RecordId) -> bool
    ensures { result ≡ has_in order.now.cells held.now.records id }
{
    if held.get(id).is_some() {
        return true;
    }
    order.first(Kind::Data, id).is_some()
}

/// The data of the first kept cell of the record.
pub(crate) fn kept_of(order: &Order, id: RecordId) -> Option<&Bytes>
    ensures { option_map (λ bytes. bytes.now) result ≡ kept_bytes order.now.cells id }
{
    match order.first(Kind::Kept, id) {
        Some(place) => bytes_in(&order.cell(place).body),
        None => None,
    }
}

/// The data that is held, or else what the first kept cell has.
pub(crate) fn data_of<'a>(order: &'a Order, held: &'a Held, id: RecordId) -> Option<&'a Bytes>
    ensures { option_map (λ bytes. bytes.now) result ≡ option_or (held_bytes held.now.records id) (kept_bytes order.now.cells id) }
{
    match held.get(id) {
        Some(bytes) => Some(bytes),
        None => kept_of(order, id),
    }
}
