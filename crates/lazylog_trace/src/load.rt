//! The word `load`: the steps of a schedule, drawn from a number, are made in a log, and one line counts what came
//! of it.
//!
//! No source is read, and the history isn't printed.

ghost use Rattle.std.specs.Prelude.{◌≡◌, ◌≢◌, IfOk};
ghost use Rattle.view_config.specs.Shape.{IsShape};
ghost use Rattle.io_edges.specs.declared.status.Status.TheVariants.{Memory, WriteFault};
ghost use Rattle.load_gen.specs.Counting.{counts_of};
ghost use Rattle.load_gen.specs.Summary.{summary_text};
ghost use Rattle.lazy_core.specs.Filled.{AreLawful, IsFilled, spared_lines};
ghost use Rattle.lazylog_trace.specs.LoadOutput.{EndsWith, IsLoad, end_as, last_of_load};
ghost use Rattle.script_streams.specs.Texts.{with_newline};
ghost use Rattle.script_streams.specs.Streams.{sink_use};

use io_edges::{Sink, Status};
use lazy_core::{HolderLines, Trail, World};
use load_gen::{Load, Outcome, summary};
use plain_lists::Sequence;
use rec_id::Text;
use script_streams::write_ended;
use std::alloc::{AllocError, Global};
use trace_script::print_limit;
use view_config::Shape;

/// What a load ends with whose steps came to this.
fn end_of(outcome: Outcome) -> Status
    ensures { result ≡ end_as outcome }
{
    match outcome {
        Outcome::Through => Status::Done,
        Outcome::Spent(step) => Status::Limit(step),
    }
}

/// The counts of a load as a line.
fn summary_of(alloc: Global, load: &Load) -> Result<Text, AllocError>
    ensures { IfOk result (λ text. text ≡ summary_text (counts_of load.now)) }
{
    let counts = load.counts(alloc)?;
    summary(alloc, &counts)
}

/// The line that a load prints: its counts, or at which step it stopped.
fn last_line(alloc: Global, load: &Load, outcome: Outcome) -> Result<Text, AllocError>
    ensures { IfOk result (λ text. text ≡ last_of_load load.now outcome) }
{
    match outcome {
        Outcome::Through => summary_of(alloc, load),
        Outcome::Spent(step) => {
            let mut text = Sequence::new(alloc);
            print_limit(alloc, step, &mut text)?;
            Ok(text)
        }
    }
}

/// Writes the line of a load that ends so, and answers what it ends with.
fn write_line<K: Sink>(sink: &mut K, line: Text, given: Status) -> Status
    requires { (given ≢ WriteFault) × (given ≢ Memory) }
    ensures { EndsWith (with_newline line) given (sink_use K.written K.faults sink.old sink.new) result }
{
    match write_ended(sink, line) {
        Ok(()) => given,
        Err(status) => status,
    }
}

/// Writes the line of a load that ends so, and fills in the trail, unless there is no memory.
fn close<K: Sink>(
    world: World,
    lines: HolderLines,
    line: Text,
    given: Status,
    sink: &mut K,
    trail: &mut Trail,
) -> Status
    requires lines { lines ≡ spared_lines world }
    requires lawful { AreLawful world.history lines }
    requires given { (given ≢ WriteFault) × (given ≢ Memory) }
    ensures written { EndsWith (with_newline line) given (sink_use K.written K.faults sink.old sink.new) result }
    ensures filled { result ≢ Memory → IsFilled world trail.old trail.new }
    ensures unfilled { result ≡ Memory → trail.new ≡ trail.old }
{
    let status = write_line(sink, line, given);
    if status != Status::Memory {
        trail.fill(world, lines);
    }
    status
}

/// Puts the load of this number on a log of this shape, and fills in the trail, unless there is no memory.
pub fn load_shape<K: Sink>(
    alloc: Global,
    shape: &Shape,
    seed: u32,
    sink: &mut K,
    trail: &mut Trail,
) -> Status
    requires { IsShape shape.now }
    ensures loaded { IsLoad shape.now seed (sink_use K.written K.faults sink.old sink.new) trail.old trail.new result }
    ensures unfilled { result ≡ Memory → trail.new ≡ trail.old }
{
    let Ok(mut load) = Load::new(alloc, shape, seed as u64) else {
        return Status::Memory;
    };
    let Ok(outcome) = load.run(alloc) else {
        return Status::Memory;
    };
    let Ok(last) = last_line(alloc, &load, outcome) else {
        return Status::Memory;
    };
    let Ok(lines) = load.world().lines(alloc) else {
        return Status::Memory;
    };
    close(load.into_world(), lines, last, end_of(outcome), sink, trail)
}
