//! The marks of one client.

ghost use Rattle.std.specs.Prelude.{◌≡◌, ◌+◌, ◌*◌, ◌^◌, ◌<◌, ◌≤◌, ◌==◌, length, IfOk, IsTrue};
ghost use Rattle.rec_id.specs.Marks.{is_seen, mark, no_marks};
ghost use Rattle.seen_window.specs.Image.{is_formed, marked_count};

use crate::bits::{count_set, has_bit, move_up, set_bit};
use plain_lists::Sequence;
use rec_id::Marks;
use std::alloc::{AllocError, Global};
use std::marker::Model;

/// Marks `number`, and answers the greatest marked number.
fn mark_bits(top: u32, bits: &mut [u64], number: u32) -> u32
    requires numbered { 1 ≤ number }
    requires formed { IsTrue (is_formed (length bits.old) (record { top = top; bits = bits.old })) }
    ensures { record { top = result; bits = bits.new } ≡ mark (record { top = top; bits = bits.old }) number }
{
    if number > top {
        move_up(bits, (number - top) as usize);
    }
    let greatest = number.max(top);
    set_bit(bits, (greatest - number) as usize);
    greatest
}

/// The greatest marked number, and a bit for each of the numbers up to it.
#[derive(Drop)]
pub(crate) struct ClientMarks {
    top: u32,
    bits: Vec<u64>,
}

impl Model for ClientMarks {
    ghost use Rattle.rec_id.specs.declared.marks.Marks.{Marks};

    ghost Value = { Marks };

    ghost view = { λ client. record { top = client.top; bits = client.bits.items } };
}

impl ClientMarks {
    /// No marks, in so many words.
    pub(crate) fn new(alloc: Global, words: usize) -> Result<ClientMarks, AllocError>
        ensures { IfOk result (λ made. made ≡ no_marks words) }
    {
        Ok(ClientMarks {
            top: 0,
            bits: Vec::from_elem(alloc, 0, words)?,
        })
    }

    pub(crate) fn from_marks(alloc: Global, marks: &Marks) -> Result<ClientMarks, AllocError>
        ensures { IfOk result (λ made. made ≡ marks.now) }
    {
        Ok(ClientMarks {
            top: marks.top,
            bits: Vec::from_slice(alloc, marks.bits.as_slice())?,
        })
    }

    pub(crate) fn to_marks(&self, alloc: Global) -> Result<Marks, AllocError>
        ensures { IfOk result (λ made. made ≡ self.now) }
    {
        Ok(Marks {
            top: self.top,
            bits: Sequence::from_vec(Vec::from_slice(alloc, self.bits.as_slice())?),
        })
    }

    pub(crate) fn top(&self) -> u32
        ensures { result ≡ self.now.top }
    {
        self.top
    }

    #[inline(always)]
    pub(crate) fn seen(&self, number: u32) -> bool
        ensures { result ≡ is_seen self.now number }
    {
        if number > self.top {
            return false;
        }
        let below = (self.top - number) as usize;
        if below / 64 >= self.bits.len() {
            return true;
        }
        has_bit(&self.bits, below)
    }

    pub(crate) fn mark(&mut self, number: u32)
        requires numbered { 1 ≤ number }
        requires formed { IsTrue (is_formed (length self.old.bits) self.old) }
        ensures { self.new ≡ mark self.old number }
    {
        self.top = mark_bits(self.top, &mut self.bits, number);
    }

    pub(crate) fn marked(&self) -> u32
        requires short { length self.now.bits ≤ 64 }
        requires formed { IsTrue (is_formed (length self.now.bits) self.now) }
        ensures { result ≡ marked_count self.now }
    {
        count_set(&self.bits) as u32
    }
}
