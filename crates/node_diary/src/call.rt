//! A node takes an input: by its own call, where it has one that may refuse, else by its rule.

ghost use Rattle.std.specs.Prelude.{◌≡◌, ◌↔◌, ◌+◌, ◌<◌, ◌^◌, ℕ, List, [], length, IsTrue, None, IfOk};
ghost use Rattle.std.specs.Option.{option_map};
ghost use Rattle.view_config.specs.declared.edition.Edition.TheVariants.{Two};
ghost use Rattle.lazy_msgs.specs.declared.input.Input.TheVariants.{Post as PostInput, Ask as AskInput, Trim as TrimInput, Suspect as SuspectInput};
ghost use Rattle.lazy_rules.specs.ControlRules.{replaces, suspect_refusal};
ghost use Rattle.lazy_rules.specs.ReaderRules.{begin_refusal, begins_read, begins_trim, on_trim_input, trim_refusal};
ghost use Rattle.node_diary.specs.Calling.{CallsTo, IsPostOf, IsReady, IsTraced, Takes, has_open_cell};
ghost use Rattle.node_diary.specs.Feeding.{is_moment};
ghost use Rattle.node_diary.specs.Refusals.{feed_begin_refused, feed_suspect_refused, feed_trim_refused, own_refusal, trim_refusal_in};
ghost use Rattle.node_diary.specs.States.{law_state};

use crate::FeedRefused;
use append_client::AppendClient;
use lazy_core::NodeState;
use lazy_msgs::{BeginRefused, Input, Outbox, PostRefused, SuspectRefused, TrimRefused};
use log_reader::LogReader;
use rec_id::Ask;
use view_config::Edition;
use view_ctl::Controller;

/// How a feed is refused, where a read, a trim or a suspicion was refused so.
fn begin_refused(refused: BeginRefused) -> FeedRefused
    ensures { result ≡ feed_begin_refused refused }
{
    match refused {
        BeginRefused::Outstanding(number) => FeedRefused::Begin(BeginRefused::Outstanding(number)),
        BeginRefused::Backward => FeedRefused::Begin(BeginRefused::Backward),
        BeginRefused::Wide => FeedRefused::Begin(BeginRefused::Wide),
        BeginRefused::Over => FeedRefused::DiaryFull,
        BeginRefused::Memory => FeedRefused::Memory,
    }
}

fn trim_refused(refused: TrimRefused) -> FeedRefused
    ensures { result ≡ feed_trim_refused refused }
{
    match refused {
        TrimRefused::Outstanding(number) => FeedRefused::Trim(TrimRefused::Outstanding(number)),
        TrimRefused::Ahead(reach) => FeedRefused::Trim(TrimRefused::Ahead(reach)),
        TrimRefused::Over => FeedRefused::DiaryFull,
        TrimRefused::Memory => FeedRefused::Memory,
    }
}

fn suspect_refused(refused: SuspectRefused) -> FeedRefused
    ensures { result ≡ feed_suspect_refused refused }
{
    match refused {
        SuspectRefused::NotInView => FeedRefused::Suspect(SuspectRefused::NotInView),
        SuspectRefused::LastSeq => FeedRefused::Suspect(SuspectRefused::LastSeq),
        SuspectRefused::LastOfShard(shard) => {
            FeedRefused::Suspect(SuspectRefused::LastOfShard(shard))
        }
        SuspectRefused::ViewsSpent => FeedRefused::Suspect(SuspectRefused::ViewsSpent),
        SuspectRefused::Over => FeedRefused::DiaryFull,
        SuspectRefused::Memory => FeedRefused::Memory,
    }
}

fn begin(reads: &mut LogReader, ask: Ask, out: &mut Outbox) -> Result<(), FeedRefused>
    requires { reads.old.count + 1 < 2 ^ 32 }
    ensures { CallsTo (begins_read reads.old ask) (option_map FeedRefused.Begin (begin_refusal reads.old ask)) reads.old reads.new out.old out.new result }
{
    match reads.begin(ask, out) {
        Ok(_) => Ok(()),
        Err(refused) => Err(begin_refused(refused)),
    }
}

fn begin_trim(reads: &mut LogReader, floor: u32, out: &mut Outbox) -> Result<(), FeedRefused>
    requires number { reads.old.count + 1 < 2 ^ 32 }
    requires edition { reads.old.shape.edition ≡ Two }
    ensures { CallsTo (begins_trim reads.old floor) (option_map FeedRefused.Trim (trim_refusal reads.old floor)) reads.old reads.new out.old out.new result }
{
    match reads.trim(floor, out) {
        Ok(_) => Ok(()),
        Err(refused) => Err(trim_refused(refused)),
    }
}

fn replace(control: &mut Controller, node: u32, out: &mut Outbox) -> Result<(), FeedRefused>
    ensures { CallsTo (replaces control.old node) (option_map FeedRefused.Suspect (suspect_refusal control.old node)) control.old control.new out.old out.new result }
{
    match control.suspect(node, out) {
        Ok(()) => Ok(()),
        Err(refused) => Err(suspect_refused(refused)),
    }
}

/// The client is of edition Two, whose records may be longer than those of edition One.
fn has_trims(appends: &AppendClient) -> bool
    ensures { IsTrue result ↔ (appends.now.shape.edition ≡ Two) }
{
    appends.post_refusal(Edition::One.record_limit() + 1) != Some(PostRefused::TooLong)
}

/// A trim at a client. Edition One has none.
fn trim_at(
    appends: &AppendClient,
    reads: &mut LogReader,
    floor: u32,
    out: &mut Outbox,
) -> Result<(), FeedRefused>
    requires number { reads.old.count + 1 < 2 ^ 32 }
    requires shape { appends.now.shape ≡ reads.old.shape }
    ensures { CallsTo (on_trim_input reads.old floor) (trim_refusal_in reads.old.shape.edition reads.old floor) reads.old reads.new out.old out.new result }
{
    if has_trims(appends) {
        return begin_trim(reads, floor, out);
    }
    Ok(())
}

/// A client begins a read. To another node an ask means nothing.
fn ask(state: &mut NodeState, ask: Ask, out: &mut Outbox) -> Result<(), FeedRefused>
    requires { IsReady state.old }
    ensures { Takes (AskInput ask) state.old state.new out.old out.new result }
{
    match state {
        NodeState::Client(_, reads) => begin(reads, ask, out),
        NodeState::Seq(_) | NodeState::Shard(_) | NodeState::Control(_) => Ok(()),
    }
}

/// A client begins a trim. To another node it means nothing.
fn trim(state: &mut NodeState, floor: u32, out: &mut Outbox) -> Result<(), FeedRefused>
    requires { IsReady state.old }
    ensures { Takes (TrimInput floor) state.old state.new out.old out.new result }
{
    match state {
        NodeState::Client(appends, reads) => trim_at(appends, reads, floor, out),
        NodeState::Seq(_) | NodeState::Shard(_) | NodeState::Control(_) => Ok(()),
    }
}

/// The controller replaces a node. To another node a suspicion means nothing.
fn suspect(state: &mut NodeState, node: u32, out: &mut Outbox) -> Result<(), FeedRefused>
    ensures { Takes (SuspectInput node) state.old state.new out.old out.new result }
{
    match state {
        NodeState::Control(control) => replace(control, node, out),
        NodeState::Seq(_) | NodeState::Shard(_) | NodeState::Client(_, _) => Ok(()),
    }
}

/// Takes an input that the node doesn't refuse by itself.
fn step(state: &mut NodeState, input: &Input, out: &mut Outbox) -> Result<(), FeedRefused>
    requires { own_refusal (law_state state.old) input.now ≡ None }
    ensures { Takes input.now state.old state.new out.old out.new result }
{
    state.step(input, out)?;
    Ok(())
}

/// Why a node refuses to append so many bytes, if it does.
fn post_refused(state: &NodeState, size: usize) -> Option<FeedRefused>
    ensures { (bytes : List ℕ) → length bytes ≡ size → result ≡ own_refusal (law_state state.now) (PostInput bytes) }
{
    match state {
        NodeState::Client(appends, _) => appends.post_refusal(size).map(FeedRefused::Post),
        NodeState::Seq(_) | NodeState::Shard(_) | NodeState::Control(_) => None,
    }
}

/// A client appends. To another node a post means nothing.
fn post(
    state: &mut NodeState,
    size: usize,
    input: &Input,
    out: &mut Outbox,
) -> Result<(), FeedRefused>
    requires { IsPostOf size input.now }
    ensures { Takes input.now state.old state.new out.old out.new result }
{
    match post_refused(state, size) {
        Some(refused) => Err(refused),
        None => step(state, input, out),
    }
}

/// Takes an input. A node refuses with its own refusal, then as `DiaryFull` where what it sends doesn't fit into `out`,
/// then for want of memory; refused, nothing is changed.
fn call(state: &mut NodeState, input: &Input, out: &mut Outbox) -> Result<(), FeedRefused>
    requires { IsReady state.old }
    ensures { Takes input.now state.old state.new out.old out.new result }
{
    match input {
        Input::Post(bytes) => post(state, bytes.len(), input, out),
        Input::Ask(range) => ask(state, *range, out),
        Input::Trim(floor) => trim(state, *floor, out),
        Input::Suspect(node) => suspect(state, *node, out),
        Input::Take(_) | Input::Tick | Input::Grace | Input::Crash | Input::Peek { .. } => step(
            state, input, out,
        ),
    }
}

/// A shard replica has an open cell.
fn has_open_cell(state: &NodeState) -> bool
    ensures { result ≡ has_open_cell state.now }
{
    match state {
        NodeState::Shard(shard) => shard.store().has_open(),
        NodeState::Seq(_) | NodeState::Client(_, _) | NodeState::Control(_) => false,
    }
}

/// A Tick or a Grace.
fn is_moment(input: &Input) -> bool
    ensures { result ≡ is_moment input.now }
{
    match input {
        Input::Tick | Input::Grace => true,
        Input::Take(_)
        | Input::Crash
        | Input::Post(_)
        | Input::Ask(_)
        | Input::Trim(_)
        | Input::Suspect(_)
        | Input::Peek { .. } => false,
    }
}

/// Takes an input into an empty outbox, and tells whether that leaves a trace. At a Tick a node that changes also sends
/// something; at a Grace it has no open cell any more.
pub(crate) fn call_traced(
    state: &mut NodeState,
    input: &Input,
    out: &mut Outbox,
) -> Result<bool, FeedRefused>
    requires ready { IsReady state.old }
    requires empty { out.old.sends ≡ [] }
    ensures takes { Takes input.now state.old state.new out.old out.new result }
    ensures traced { IfOk result (IsTraced state.old input.now) }
{
    let had_open = has_open_cell(state);
    call(state, input, out)?;
    if !is_moment(input) {
        return Ok(true);
    }
    if !out.sends().is_empty() {
        return Ok(true);
    }
    Ok(has_open_cell(state) != had_open)
}
