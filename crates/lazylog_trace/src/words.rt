//! The words that the program is called with.

ghost use Rattle.std.specs.Prelude.{◌≡◌, ◌≢◌, ◌↔◌, ◌<◌, ◌≤◌, ◌^◌, ℕ, length, slice_get, Some, IfSome, IfNone, IsTrue, decimal};
ghost use Rattle.view_config.specs.Shape.{Dimensions};
ghost use Rattle.lazylog_trace.specs.Words.{AskFor, IsAsked, IsNoMode, NameShape, mode_word};
ghost use Rattle.lazylog_trace.specs.declared.words.Task.TheVariants.{Load, Recode, Trace};

use rec_id::TextList;
use trace_script::read_number;
use view_config::{Edition, Mode, Shape};

/// What the program is to do.
#[derive(Clone, Copy, Debug, PartialEq, Eq)]
pub enum Task {
    /// A script is traced in a log of this shape.
    Trace(Shape),
    /// The load of this number is put on a log of this shape.
    Load(Shape, u32),
    /// The frames of a script are brought over to edition Two. No log belongs to it.
    Recode,
}

/// The number that word `i` is the decimal text of.
fn number_at(words: &TextList, i: usize) -> Option<u32>
    requires { i < length words.now }
    ensures some { IfSome result (λ number. slice_get words.now i ≡ Some (decimal number)) }
    ensures none { IfNone result ((number : ℕ) → number < 2 ^ 32 → slice_get words.now i ≢ Some (decimal number)) }
{
    read_number(words.at(i).as_slice())
}

/// Whether word `i` is this one.
fn is_word(words: &TextList, i: usize, word: &[u8]) -> bool
    requires { i < length words.now }
    ensures { IsTrue result ↔ (slice_get words.now i ≡ Some word.now) }
{
    words.at(i).as_slice() == word
}

/// The edition and the mode that a word names.
fn mode_of(word: &[u8]) -> Option<(Edition, Mode)>
    ensures some { IfSome result (λ said. word.now ≡ mode_word said.0 said.1) }
    ensures none { IfNone result (IsNoMode word.now) }
{
    if word == b"m".as_slice() {
        return Some((Edition::One, Mode::M));
    }
    if word == b"st".as_slice() {
        return Some((Edition::One, Mode::St));
    }
    if word == b"m2".as_slice() {
        return Some((Edition::Two, Mode::M));
    }
    if word == b"st2".as_slice() {
        return Some((Edition::Two, Mode::St));
    }
    None
}

/// The shape that the words `MODE SEQ SPARES SHARDS COPIES CLIENTS` name, which are those behind the first.
fn shape_named(words: &TextList) -> Option<Shape>
    requires { 7 ≤ length words.now }
    ensures some { IfSome result (NameShape words.now) }
    ensures none { IfNone result ((shape : Dimensions) → ¬ NameShape words.now shape) }
{
    let (edition, mode) = mode_of(words.at(1).as_slice())?;
    Shape::of(
        edition,
        mode,
        number_at(words, 2)?,
        number_at(words, 3)?,
        number_at(words, 4)?,
        number_at(words, 5)?,
        number_at(words, 6)?,
    )
}

/// A trace, where the words are `trace` and those of a shape.
fn trace_named(words: &TextList) -> Option<Task>
    ensures some { IfSome result (AskFor words.now) }
    ensures none { IfNone result ((shape : Dimensions) → ¬ AskFor words.now (Trace shape)) }
{
    if words.len() != 7 {
        return None;
    }
    if !is_word(words, 0, b"trace") {
        return None;
    }
    Some(Task::Trace(shape_named(words)?))
}

/// A load, where the words are `load`, those of a shape, and a number.
fn load_named(words: &TextList) -> Option<Task>
    ensures some { IfSome result (AskFor words.now) }
    ensures none { IfNone result ((shape : Dimensions) (seed : ℕ) → ¬ AskFor words.now (Load shape seed)) }
{
    if words.len() != 8 {
        return None;
    }
    if !is_word(words, 0, b"load") {
        return None;
    }
    let shape = shape_named(words)?;
    Some(Task::Load(shape, number_at(words, 7)?))
}

/// Frames are brought over, where the only word is `recode`.
fn recode_named(words: &TextList) -> Option<Task>
    ensures some { IfSome result (AskFor words.now) }
    ensures none { IfNone result (¬ AskFor words.now Recode) }
{
    if words.len() != 1 {
        return None;
    }
    if !is_word(words, 0, b"recode") {
        return None;
    }
    Some(Task::Recode)
}

/// What the words ask for, `None` for any others and for numbers outside their limits. MODE is `m` or `st`, and of
/// edition Two `m2` or `st2`.
pub fn read_words(words: &TextList) -> Option<Task>
    ensures some { IfSome result (AskFor words.now) }
    ensures none { IfNone result (¬ IsAsked words.now) }
{
    if let Some(trace) = trace_named(words) {
        return Some(trace);
    }
    if let Some(load) = load_named(words) {
        return Some(load);
    }
    recode_named(words)
}
