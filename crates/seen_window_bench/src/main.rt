//! Marks and looks in the window of eight clients, as often as it is told, for a look at the time
//! that they take. It prints a checksum and no times. Its words are a mode (`mark` or `seen`), the
//! window (256 or 4096) and a number of rounds. `bench/run` compares it with the same work in Rust.
#![tactic(auto)]

ghost use Rattle.std.specs.Prelude.{◌≡◌, ◌<◌, ◌≤◌, length, IfOk, IfSome};

use rec_id::RecordId;
use seen_window::SeenWindow;
use std::io;

const CLIENTS: u32 = 8;

/// How far a client's numbers jump about.
const SPREAD: u32 = 5;

/// How many rounds are marked before any is looked for.
const MARKED: u32 = 65_536;

/// The identity of a round: each client in turn, numbers that rise and jump about.
fn id_of(round: u32) -> Option<RecordId>
    ensures { IfSome result (λ id. id.client < CLIENTS) }
{
    let number = 1 + round / CLIENTS + round % SPREAD;
    match RecordId::new(round % CLIENTS, number) {
        Ok(id) => Some(id),
        Err(_) => None,
    }
}

fn mark_rounds(window: &mut SeenWindow, rounds: u32)
    requires { length window.old ≡ CLIENTS }
    ensures { length window.new ≡ CLIENTS }
{
    for round in 0..rounds {
        if let Some(id) = id_of(round) {
            window.mark(id);
        }
    }
}

fn seen_rounds(window: &SeenWindow, rounds: u32) -> u64
    requires { length window.now ≡ CLIENTS }
{
    let mut sum = 0u64;
    for round in 0..rounds {
        if let Some(id) = id_of(round % MARKED) {
            sum = sum.wrapping_add(u64::from(window.seen(id)));
        }
    }
    sum
}

/// All tops and counts of marks.
fn told(window: &SeenWindow) -> u64
    requires { length window.now ≡ CLIENTS }
{
    let mut sum = 0u64;
    for client in 0..CLIENTS {
        sum = sum.wrapping_add(u64::from(window.top(client)));
        sum = sum.wrapping_add(u64::from(window.marked(client)));
    }
    sum
}

fn checksum(window: &mut SeenWindow, mode: &str, rounds: u32) -> u64
    requires { length window.old ≡ CLIENTS }
{
    match mode {
        "mark" => {
            mark_rounds(window, rounds);
            told(window)
        }
        "seen" => {
            mark_rounds(window, MARKED);
            seen_rounds(window, rounds)
        }
        _ => 0,
    }
}

fn number(text: &str) -> u32 {
    text.parse::<u32>().unwrap_or(0)
}

fn main(rt: HostRuntime) -> io::Result<()> {
    let mut arguments = std::env::args(&rt)?;
    let _program = arguments.next();
    if let (Some(mode), Some(bits), Some(rounds)) = (
        arguments.next(),
        arguments.next(),
        arguments.next(),
    ) {
        let bits = if number(bits.as_str()) == 4096 {
            4096
        } else {
            256
        };
        let mut window = SeenWindow::new(rt.alloc(), CLIENTS, bits)?;
        let sum = checksum(&mut window, mode.as_str(), number(rounds.as_str()));
        println!(rt; "{sum}")?;
    }
    Ok(())
}
