//! What is left of a run once it is closed: what clients did and were told, the line of each holder,
//! and what the nodes noted.
//!
//! A trail only holds what its maker puts in it.

ghost use Rattle.std.specs.Prelude.{◌≡◌, ◌++◌, [], true, IfOk, OnOk};
ghost use Rattle.std.specs.List.{flat_map};
ghost use Rattle.lazy_rules.specs.Holders.{holders};
ghost use Rattle.lazy_rules.specs.Rows.{has_node};
ghost use Rattle.lazy_core.specs.Filled.{AreLawful, IsFilled, spared_line, spared_lines};

use crate::line::LineError;
use crate::world::World;
use lazy_msgs::DiaryList;
use plain_lists::Sequence;
use rec_id::{EventList, Line, Words};
use std::alloc::{AllocError, Global};

/// The line of a holder, by the holder's number.
#[derive(Drop)]
pub struct HolderLine {
    pub holder: u32,
    pub line: Line,
}

pub type HolderLines = Sequence<HolderLine>;

/// What clients did and were told in a run, the lines of its holders, and what its threads noted: a
/// diary for each node, how often each client polled, and the greatest stable number claimed.
#[derive(Drop)]
pub struct Trail {
    pub history: EventList,
    pub lines: HolderLines,
    pub diaries: DiaryList,
    pub polls: Words,
    pub claimed: u32,
}

impl Trail {
    /// The trail of nothing. It takes no memory.
    pub fn new(alloc: Global) -> Trail
        ensures { result ≡ record { history = []; lines = []; diaries = []; polls = []; claimed = 0 } }
    {
        Trail {
            history: Sequence::new(alloc),
            lines: Sequence::new(alloc),
            diaries: Sequence::new(alloc),
            polls: Sequence::new(alloc),
            claimed: 0,
        }
    }

    /// Fills in what is left of a world that is over: its history, and these lines of its holders. It takes no
    /// memory.
    pub fn fill(&mut self, world: World, lines: HolderLines)
        requires lines { lines ≡ spared_lines world }
        requires lawful { AreLawful world.history lines }
        ensures { IsFilled world self.old self.new }
    {
        self.history = world.into_history();
        self.lines = lines;
    }
}

/// Adds the line of one holder, if it isn't lost.
fn add_line(world: &World, holder: u32, lines: &mut HolderLines) -> Result<(), AllocError>
    requires holds { has_node (holders world.now) holder ≡ true }
    requires so_far { AreLawful world.now.history lines.old }
    ensures added { OnOk result (lines.new ≡ lines.old ++ spared_line world.now holder) }
    ensures lawful { OnOk result (AreLawful world.now.history lines.new) }
{
    match world.line(holder) {
        Ok(line) => lines.push(HolderLine { holder, line }),
        Err(LineError::Lost(_)) => Ok(()),
        Err(LineError::Memory) => Err(AllocError),
    }
}

/// The lines of these, who are all the holders.
fn lines_at(alloc: Global, world: &World, nodes: &[u32]) -> Result<HolderLines, AllocError>
    requires { nodes.now ≡ holders world.now }
    ensures lines { IfOk result (λ lines. lines ≡ flat_map (spared_line world.now) nodes.now) }
    ensures lawful { IfOk result (λ lines. AreLawful world.now.history lines) }
{
    let mut lines = Sequence::new(alloc);
    for holder in nodes {
        add_line(world, *holder, &mut lines)?;
    }
    Ok(lines)
}

impl World {
    /// The line of each holder whose line isn't lost, in the order of the holders.
    pub fn lines(&self, alloc: Global) -> Result<HolderLines, AllocError>
        ensures lines { IfOk result (λ lines. lines ≡ spared_lines self.now) }
        ensures lawful { IfOk result (λ lines. AreLawful self.now.history lines) }
    {
        let holders = self.holders()?;
        lines_at(alloc, self, holders.as_slice())
    }
}
