//! Places in buckets by their identities. Each bucket knows the end of its last place, and each
//! place the end of the last one before it in its bucket. The end of a place is the number after
//! it; 0 stands for none.

ghost use Rattle.std.specs.Prelude.{◌≡◌, ◌<◌, ◌≤◌, ◌^◌, length, replicate, OnOk};
ghost use Rattle.shard_store.specs.Links.{bucket, tag_in, IsLinked};

use rec_id::{Cell, RecordId};
use std::alloc::AllocError;

/// The bucket of an identity, of so many.
pub(crate) fn bucket(size: usize, id: RecordId) -> usize
    requires { 0 < size }
    ensures bucket { result ≡ bucket size id }
    ensures within { result < size }
{
    ((u64::from(id.client()) * 40_503 + u64::from(id.number())) % size as u64) as usize
}

/// Links all cells anew.
pub(crate) fn link_all(cells: &[Cell], heads: &mut [u32], before: &mut [u32])
    requires heads { heads.old ≡ replicate (length heads.old) 0 }
    requires room { 0 < length heads.old }
    requires before { length before.old ≡ length cells.now }
    requires short { length cells.now < 2 ^ 32 }
    ensures heads_len { length heads.new ≡ length heads.old }
    ensures before_len { length before.new ≡ length before.old }
    ensures linked { IsLinked (tag_in (length heads.new) cells.now) heads.new before.new (length cells.now) }
{
    for place in 0..cells.len() {
        let at = bucket(heads.len(), cells[place].id);
        before[place] = heads[at];
        heads[at] = place as u32 + 1;
    }
}

/// Makes at least so many buckets, and links all cells anew where there were fewer. Each time there
/// are twice as many, so that a cell is linked a few times in all.
pub(crate) fn make_buckets(
    cells: &[Cell],
    heads: &mut Vec<u32>,
    before: &mut [u32],
    needed: usize,
) -> Result<(), AllocError>
    requires before { length before.old ≡ length cells.now }
    requires short { length cells.now < 2 ^ 32 }
    requires linked { IsLinked (tag_in (length heads.old.items) cells.now) heads.old.items before.old (length cells.now) }
    ensures linked { IsLinked (tag_in (length heads.new.items) cells.now) heads.new.items before.new (length cells.now) }
    ensures before_len { length before.new ≡ length before.old }
    ensures grown { length heads.old.items ≤ length heads.new.items }
    ensures room { OnOk result (needed ≤ length heads.new.items) }
{
    if needed <= heads.len() {
        return Ok(());
    }
    let size = needed.max(heads.len().saturating_mul(2));
    let mut made = Vec::from_elem(*heads.allocator(), 0u32, size)?;
    link_all(cells, &mut made, before);
    *heads = made;
    Ok(())
}
