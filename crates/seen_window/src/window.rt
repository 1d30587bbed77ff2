//! The marks of all clients.

ghost use Rattle.std.specs.Prelude.{◌≡◌, ◌*◌, ◌/◌, ◌<◌, ◌≤◌, ◌⊎◌, length, IfOk, OnOk, IsTrue};
ghost use Rattle.rec_id.specs.Identity.{IsIdentity};
ghost use Rattle.seen_window.specs.Image.{no_image, is_image, top_in, seen_in, mark_in, marked_in};

use crate::client::ClientMarks;
use plain_lists::Sequence;
use rec_id::{RecordId, WindowList};
use std::alloc::{AllocError, Global};
use std::marker::Model;

/// Which identities of each client are known. How many numbers of a client have a bit, 256 or
/// 4,096, is set when the window is made.
#[derive(Drop)]
pub struct SeenWindow {
    clients: Vec<ClientMarks>,
}

impl Model for SeenWindow {
    ghost use Rattle.std.specs.Prelude.{List};
    ghost use Rattle.rec_id.specs.declared.marks.Marks.{Marks};

    ghost Value = { List Marks };

    ghost use Rattle.std.specs.Prelude.{IsTrue};
    ghost use Rattle.seen_window.specs.Image.{is_image};

    ghost view = { λ window. window.clients.items };

    ghost invariant = { λ window. IsTrue (is_image window.clients.items) };
}

impl SeenWindow {
    /// The window of so many clients in which nothing is marked, with so many bits a client.
    pub fn new(alloc: Global, clients: u32, window: u32) -> Result<SeenWindow, AllocError>
        requires clients { (1 ≤ clients) × (clients ≤ 256) }
        requires window { (window ≡ 256) ⊎ (window ≡ 4096) }
        ensures made { IfOk result (λ made. made ≡ no_image clients (window / 64)) }
        ensures image { IfOk result (λ made. IsTrue (is_image made)) }
    {
        let mut made = Vec::with_capacity(alloc, clients as usize)?;
        for _client in 0..clients {
            made.push(ClientMarks::new(alloc, (window / 64) as usize)?)?;
        }
        Ok(SeenWindow { clients: made })
    }

    /// The window with this image.
    pub fn from_image(alloc: Global, list: &WindowList) -> Result<SeenWindow, AllocError>
        requires { IsTrue (is_image list.now) }
        ensures { IfOk result (λ made. made ≡ list.now) }
    {
        let mut made = Vec::with_capacity(alloc, list.len())?;
        for marks in list.as_slice() {
            made.push(ClientMarks::from_marks(alloc, marks)?)?;
        }
        Ok(SeenWindow { clients: made })
    }

    /// The marks of each client, by the client's number.
    pub fn image(&self) -> Result<WindowList, AllocError>
        ensures ok { IfOk result (λ list. list ≡ self.now) }
        ensures image { IsTrue (is_image self.now) }
    {
        let alloc = *self.clients.allocator();
        let mut list = Vec::with_capacity(alloc, self.clients.len())?;
        for client in &self.clients {
            list.push(client.to_marks(alloc)?)?;
        }
        Ok(Sequence::from_vec(list))
    }

    /// The identity was marked, or its number is more than a window below the greatest marked one.
    #[inline]
    pub fn seen(&self, id: RecordId) -> bool
        requires { id.client < length self.now }
        ensures { result ≡ seen_in self.now id }
    {
        self.clients[id.client() as usize].seen(id.number())
    }

    /// The greatest marked number of the client, 0 where there is none.
    pub fn top(&self, client: u32) -> u32
        requires { client < length self.now }
        ensures { result ≡ top_in self.now client }
    {
        self.clients[client as usize].top()
    }

    pub fn mark(&mut self, id: RecordId)
        requires { id.client < length self.old }
        ensures marked { self.new ≡ mark_in self.old id }
        ensures image { IsTrue (is_image self.new) }
    {
        let client = &mut self.clients[id.client() as usize];
        client.mark(id.number());
    }

    /// How many of the numbers that have a bit are marked.
    pub fn marked(&self, client: u32) -> u32
        requires { client < length self.now }
        ensures { result ≡ marked_in self.now client }
    {
        self.clients[client as usize].marked()
    }
}

#[cfg(test)]
mod tests {
    use super::*;
    use std::test::Fail;

    fn id(number: u32) -> Result<RecordId, Fail>
        ensures { IfOk result (λ id. id.client ≡ 0) }
    {
        match RecordId::new(0, number) {
            Ok(id) => Ok(id),
            Err(_) => Err("no identity")?,
        }
    }

    #[test]
    fn one_client(rt: HostRuntime) -> Result<(), Fail> {
        let mut window = SeenWindow::new(rt.alloc(), 1, 256)?;
        window.mark(id(300)?);
        let window = SeenWindow::from_image(rt.alloc(), &window.image()?)?;
        assert_eq!(rt; window.seen(id(44)?), true);
        assert_eq!(rt; window.seen(id(45)?), false);
        assert_eq!(rt; window.top(0), 300);
        assert_eq!(rt; window.marked(0), 1);
        Ok(())
    }
}
