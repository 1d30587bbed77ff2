//! The nodes of a shape, each with its diary, and the messages between them.

ghost use Rattle.view_config.specs.Shape.{Dimensions};

use lazy_core::NodeState;
use lazy_msgs::{DiaryList, Envelope, Input, Msg, WorldEvent};
use node_diary::{DiaryNode, Note, first_state};
use plain_lists::Sequence;
use rec_id::{Ask, Bytes, IdList};
use std::alloc::Global;
use std::test::Fail;
use view_config::{CONTROLLER, FIRST_SHARD, Shape};

/// Nodes that are fed, all that they sent, and the time that the last of them has reached.
#[derive(Drop)]
pub(crate) struct Net {
    nodes: Vec<DiaryNode>,
    sent: Vec<Envelope>,
    time: u64,
}

/// What happens. A message goes by its number, from 1. A read is of the first place.
#[derive(Clone, Copy)]
pub(crate) enum Act {
    Post(u32),
    Read(u32),
    Tail(u32),
    /// A client looks up the order, as far as the last Claim says.
    Peek(u32),
    Deliver(u32),
    Tick(u32),
    Grace(u32),
    Crash(u32),
    Suspect(u32),
}

/// A node of the shape in its first state, with an empty diary.
pub(crate) fn node_at(alloc: Global, shape: &Shape, number: u32) -> Result<DiaryNode, Fail> {
    if shape.node(number).is_none() {
        return Err("no such node")?;
    }
    Ok(DiaryNode::new(alloc, number, first_state(alloc, shape, number)?))
}

/// What a client appends: the first `a`, the others `b`.
fn record_of(alloc: Global, client: u32) -> Result<Bytes, Fail> {
    let bytes = if client == 0 { b"a" } else { b"b" };
    Ok(Bytes::copy(alloc, bytes.as_slice())?)
}

/// The identities that a shard replica has in its order at the first places.
fn ids_at(alloc: Global, node: &DiaryNode, count: u32) -> Result<IdList, Fail> {
    let mut ids = Sequence::new(alloc);
    if let NodeState::Shard(shard) = node.state() {
        let store = shard.store();
        for place in 0..count.min(store.len()) {
            ids.push(store.cell(place).id)?;
        }
    }
    Ok(ids)
}

/// Feeds a node, and adds what it sent.
fn feed(node: &mut DiaryNode, input: Input, sent: &mut Vec<Envelope>) -> Result<(), Fail> {
    let before = node.diary().entries.len();
    let _ = node.feed(input);
    if node.diary().entries.len() == before {
        return Ok(());
    }
    let from = node.diary().node;
    let entry = node.last().ok_or("an entry")?;
    for (to, msg) in entry.sends.as_slice() {
        sent.push(Envelope {
            from,
            to: *to,
            time: entry.time,
            msg: msg.copy()?,
        })?;
    }
    Ok(())
}

impl Net {
    pub(crate) fn new(alloc: Global, shape: &Shape) -> Result<Net, Fail> {
        let mut nodes = Vec::new(alloc);
        for number in 0..296 {
            if shape.node(number).is_some() {
                nodes.push(node_at(alloc, shape, number)?)?;
            }
        }
        Ok(Net {
            nodes,
            sent: Vec::new(alloc),
            time: 0,
        })
    }

    fn node(&self, number: u32) -> Result<&DiaryNode, Fail> {
        for node in self.nodes.as_slice() {
            if node.diary().node == number {
                return Ok(node);
            }
        }
        Err("a node")?
    }

    /// The last Claim: the number of its message, and how many places it says are stable.
    fn claim(&self) -> Option<(u32, u32)> {
        for i in (0..self.sent.len()).rev() {
            if let Msg::Claim { stable } = &self.sent[i].msg {
                return Some((u32::try_from(i).ok()?.checked_add(1)?, *stable));
            }
        }
        None
    }

    fn message(&self, number: u32) -> Result<&Envelope, Fail> {
        Ok(
            self.sent
                .get((number as usize).saturating_sub(1))
                .ok_or("a message")?,
        )
    }

    /// The act as an event of a world with these messages, `None` where it is none.
    pub(crate) fn event(&self, alloc: Global, act: Act) -> Result<Option<WorldEvent>, Fail> {
        Ok(Some(match act {
            Act::Post(c) => WorldEvent::Post(c, record_of(alloc, c)?),
            Act::Read(c) => WorldEvent::Ask(c, Ask::Range { from: 0, to: 1 }),
            Act::Tail(c) => WorldEvent::Ask(c, Ask::Tail { from: 0 }),
            Act::Peek(client) => match self.claim() {
                Some((message, stable)) => WorldEvent::Peek {
                    client,
                    message,
                    from: 0,
                    to: stable,
                },
                None => return Ok(None),
            },
            Act::Deliver(k) => WorldEvent::Deliver(k),
            Act::Tick(node) => WorldEvent::Tick(node),
            Act::Grace(node) => WorldEvent::Grace(node),
            Act::Crash(node) => WorldEvent::Crash(node),
            Act::Suspect(node) => WorldEvent::Suspect(node),
        }))
    }

    /// What a client sees of the order: nothing, where there is no Claim.
    fn peek(&self, alloc: Global) -> Result<Input, Fail> {
        let Some((message, stable)) = self.claim() else {
            return Ok(Input::Peek {
                stable: 0,
                time: 0,
                replica: 0,
                from: 0,
                ids: Sequence::new(alloc),
            });
        };
        let claim = self.message(message)?;
        Ok(Input::Peek {
            stable,
            time: claim.time,
            replica: claim.from.saturating_sub(FIRST_SHARD),
            from: 0,
            ids: ids_at(alloc, self.node(claim.from)?, stable)?,
        })
    }

    /// The act as an input, and whose it is.
    fn input(&self, alloc: Global, act: Act) -> Result<(u32, Input), Fail> {
        match act {
            Act::Post(c) => Ok((c, Input::Post(record_of(alloc, c)?))),
            Act::Read(c) => Ok((c, Input::Ask(Ask::Range { from: 0, to: 1 }))),
            Act::Tail(c) => Ok((c, Input::Ask(Ask::Tail { from: 0 }))),
            Act::Peek(c) => Ok((c, self.peek(alloc)?)),
            Act::Tick(node) => Ok((node, Input::Tick)),
            Act::Grace(node) => Ok((node, Input::Grace)),
            Act::Crash(node) => Ok((node, Input::Crash)),
            Act::Suspect(node) => Ok((CONTROLLER, Input::Suspect(node))),
            Act::Deliver(k) => {
                let envelope = self.message(k)?;
                Ok((envelope.to, Input::Take(envelope.copy()?)))
            }
        }
    }

    /// It happens, at a time behind that of a Claim that is looked at; where all hear of the latest time, behind all that
    /// happened.
    pub(crate) fn happens(&mut self, alloc: Global, act: Act, all_hear: bool) -> Result<(), Fail> {
        let (number, input) = self.input(alloc, act)?;
        let heard = match &input {
            _ if all_hear => self.time,
            Input::Peek { time, .. } => *time,
            _ => 0,
        };
        for i in 0..self.nodes.len() {
            if self.nodes[i].diary().node == number {
                let _ = self.nodes[i].hear(Note { time: heard });
                feed(&mut self.nodes[i], input, &mut self.sent)?;
                self.time = self.time.max(self.nodes[i].note().time);
                return Ok(());
            }
        }
        Err("a node")?
    }

    /// The diaries of all nodes.
    pub(crate) fn into_diaries(self, alloc: Global) -> Result<DiaryList, Fail> {
        let mut diaries = Sequence::new(alloc);
        for node in self.nodes {
            diaries.push(node.into_diary())?;
        }
        Ok(diaries)
    }
}
