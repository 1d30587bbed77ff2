//! What a command does: the event that it names, where its word names a node, or what it asks to see.

ghost use Rattle.std.specs.Prelude.{◌≡◌};
ghost use Rattle.trace_script.specs.Nodes.{node_of_word};
ghost use Rattle.trace_script.specs.Spelling.{IsSayable};
ghost use Rattle.lazylog_trace.specs.Actions.{action_of};

use lazy_msgs::WorldEvent;
use rec_id::Ask;
use trace_script::{Command, NodeWord};

/// What is asked of each holder.
#[derive(Clone, Copy, Debug, PartialEq, Eq)]
pub enum Asked {
    /// Its line.
    Line,
    /// What the law says of its line.
    Verdict,
}

/// What a command does.
#[derive(Drop)]
pub enum Action {
    Nothing,
    /// The event happens, or is refused.
    Event(WorldEvent),
    /// It is refused, since no node of any shape has this word.
    NoNode(NodeWord),
    /// So many messages are delivered, from the first number on.
    Deliveries(u32, u32),
    /// Each holder is shown.
    Holders(Asked),
    /// The message with this number is shown.
    Message(u32),
}

/// What the command does.
pub fn action_of(command: Command) -> Action
    requires { IsSayable command }
    ensures { result ≡ action_of command }
{
    match command {
        Command::Nothing => Action::Nothing,
        Command::Append(client, bytes) => match client.number() {
            Some(node) => Action::Event(WorldEvent::Post(node, bytes)),
            None => Action::NoNode(client),
        },
        Command::Read(client, from, to) => match client.number() {
            Some(node) => Action::Event(WorldEvent::Ask(node, Ask::Range { from, to })),
            None => Action::NoNode(client),
        },
        Command::Tail(client, from) => match client.number() {
            Some(node) => Action::Event(WorldEvent::Ask(node, Ask::Tail { from })),
            None => Action::NoNode(client),
        },
        Command::Trim(client, floor) => match client.number() {
            Some(node) => Action::Event(WorldEvent::Trim(node, floor)),
            None => Action::NoNode(client),
        },
        Command::Peek(client, claim, from, to) => match client.number() {
            Some(node) => Action::Event(WorldEvent::Peek {
                client: node,
                message: claim,
                from,
                to,
            }),
            None => Action::NoNode(client),
        },
        Command::Deliver(message) => Action::Event(WorldEvent::Deliver(message)),
        Command::Flow(first, last) => Action::Deliveries(first, last - first + 1),
        Command::Tick(word) => match word.number() {
            Some(node) => Action::Event(WorldEvent::Tick(node)),
            None => Action::NoNode(word),
        },
        Command::Grace(word) => match word.number() {
            Some(node) => Action::Event(WorldEvent::Grace(node)),
            None => Action::NoNode(word),
        },
        Command::Crash(word) => match word.number() {
            Some(node) => Action::Event(WorldEvent::Crash(node)),
            None => Action::NoNode(word),
        },
        Command::Suspect(word) => match word.number() {
            Some(node) => Action::Event(WorldEvent::Suspect(node)),
            None => Action::NoNode(word),
        },
        Command::Lines => Action::Holders(Asked::Line),
        Command::Law => Action::Holders(Asked::Verdict),
        Command::Show(message) => Action::Message(message),
    }
}
