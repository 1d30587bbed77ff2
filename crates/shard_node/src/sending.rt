//! Messages to several nodes.

ghost use Rattle.std.specs.Prelude.{◌≡◌, ◌++◌, OnOk};
ghost use Rattle.lazy_rules.specs.Rows.{to_each};

use lazy_msgs::{Msg, SendList};
use std::alloc::AllocError;

#[tactic(auto, using(crate::proofs::Rows::each_more))]
/// Appends equal messages to these nodes. The last gets this one.
pub(crate) fn send_each(sends: &mut SendList, nodes: &[u32], msg: Msg) -> Result<(), AllocError>
    ensures { OnOk result (sends.new ≡ sends.old ++ to_each nodes.now msg) }
{
    let Some((last, others)) = nodes.split_last() else {
        return Ok(());
    };
    for node in others {
        sends.push((*node, msg.copy()?))?;
    }
    sends.push((*last, msg))?;
    Ok(())
}
