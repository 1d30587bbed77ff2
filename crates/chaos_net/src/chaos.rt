//! The injector: a generator, and the frames that are held, in their order.

ghost use Rattle.std.specs.Prelude.{◌≡◌, ◌≤◌, ◌<◌, ◌+◌, ◌^◌, List, Contains, true, Some, Ok, IfOk, IfErr, OnErr};
ghost use Rattle.link_queue.specs.Rule.{Bytes};
ghost use Rattle.rand_pcg.specs.Lcg.{Lcg};
ghost use Rattle.chaos_net.specs.declared.fate.Fate.TheVariants.{Repeated};
ghost use Rattle.chaos_net.specs.Fates.{Injector, fresh, drawn, fate_of, after_draw, has_room, dealt, passed, given_again, OutOf, HeldOf};

use crate::fate::{Fate, fate_of};
use link_queue::Frame;
use rand_core::SeedableRng;
use rand_core::utils::NextWord;
use rand_pcg::Pcg32;
use std::alloc::{AllocError, Global};
use std::collections::VecDeque;
use std::marker::Model;

/// How many frames are held at most.
const HELD: usize = 16;

/// The injector of one node. It takes memory when it is made, and later only for the copies of frames
/// that are repeated.
#[derive(Drop)]
pub struct Chaos {
    generator: Pcg32,
    loss: u32,
    held: VecDeque<Frame>,
}

impl Model for Chaos {
    ghost use Rattle.std.specs.Prelude.{◌≡◌, ◌≤◌, length};
    ghost use Rattle.std.specs.VecDeque.{deque_capacity};
    ghost use Rattle.chaos_net.specs.Fates.{Injector};

    ghost Value = { Injector };

    ghost view = { λ chaos. record { generator = chaos.generator; loss = chaos.loss; held = chaos.held.items } };

    ghost invariant = { λ chaos. (chaos.loss ≤ 300) × (length chaos.held.items ≤ 16) × (deque_capacity chaos.held ≡ 16) };
}

impl Chaos {
    /// The injector of a node (by its number), with a loss of `loss` in a thousand: as many frames
    /// are repeated, and as many held back. It takes all the memory that holding needs.
    pub fn new(alloc: Global, seed: u64, node: u32, loss: u32) -> Result<Chaos, AllocError>
        requires loss { loss ≤ 300 }
        requires seed { seed + node < 2 ^ 64 }
        ensures { IfOk result (λ made. made ≡ fresh seed node loss) }
    {
        Ok(Chaos {
            generator: Pcg32::seed_from_u64(seed + u64::from(node)),
            loss,
            held: VecDeque::with_capacity(alloc, HELD)?,
        })
    }

    /// Draws what becomes of `frame`, and hands it out unless it is dropped or held. Where there is
    /// no memory for the copy of a frame that is to be repeated, the frame is lost.
    pub fn pass(&mut self, frame: Frame) -> Result<Option<Frame>, AllocError>
        ensures handed { IfOk result (λ out. (out, self.new) ≡ passed self.old frame) }
        ensures refused { OnErr result (self.new ≡ after_draw self.old) }
        ensures copied { IfErr result (λ _. (fate_of self.old.loss (drawn self.old) ≡ Repeated) × (has_room self.old ≡ true)) }
        ensures lossless { self.old.loss ≡ 0 → result ≡ Ok (Some frame) }
        ensures origin { (given : List Bytes) → Contains given frame → HeldOf given self.old → IfOk result (λ out. OutOf given out self.new) }
    {
        let number = self.generator.next_word() % 1000;
        self.deal(fate_of(self.loss, number), frame)
    }

    fn deal(&mut self, fate: Fate, frame: Frame) -> Result<Option<Frame>, AllocError>
        ensures handed { IfOk result (λ out. (out, self.new) ≡ dealt fate self.old frame) }
        ensures refused { OnErr result (self.new ≡ self.old) }
        ensures copied { IfErr result (λ _. (fate ≡ Repeated) × (has_room self.old ≡ true)) }
    {
        let has_room = self.held.len() < HELD;
        match fate {
            Fate::Dropped => Ok(None),
            Fate::Repeated => {
                if has_room {
                    let copy = frame.copy()?;
                    self.held.push_back_reserved(copy);
                }
                Ok(Some(frame))
            }
            Fate::Delayed => {
                if has_room {
                    self.held.push_back_reserved(frame);
                    return Ok(None);
                }
                Ok(Some(frame))
            }
            Fate::Passed => Ok(Some(frame)),
        }
    }

    /// Hands out the frame that is held longest, or none where none is held.
    pub fn again(&mut self) -> Option<Frame>
        ensures handed { (result, self.new) ≡ given_again self.old }
        ensures origin { (given : List Bytes) → HeldOf given self.old → OutOf given result self.new }
    {
        self.held.pop_front()
    }
}
