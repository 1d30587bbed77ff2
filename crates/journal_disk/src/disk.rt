//! A disk with one file, as a journal sees it.

ghost use Rattle.std.specs.Prelude.{◌≡◌, ◌+◌, ◌^◌, ◌<◌, ◌≤◌, ℕ, List, length, take, drop, IfOk, OnOk, OnErr, Bool};
ghost use Rattle.journal_disk.specs.Calls.{Call, Makes, Sizes, Reads, Writes, Cuts, Syncs};
ghost use Rattle.journal_disk.specs.Disk.{Room, room_after, with_bytes, Torn, PartCut, Follows, AddsNothing, Only, Elapses, IsCounted, IsUntouched};

use io_edges::Failed;
use std::alloc::AllocError;

/// One file, which can be read, written, cut and made to last. A crash may come at any moment, inside a
/// call too.
///
/// `size`, `read`, `write_at`, `cut` and `sync` are device calls. They take no memory: what a write, a
/// cut or a sync needs is asked for before, by `reserve`.
pub trait Disk {
    // What a read gives.
    ghost seen: { Self → List ℕ };

    // What a crash now may leave.
    ghost may_leave: { Self → List ℕ → Type 0 };

    // The moment, as a number that doesn't fall.
    ghost moment: { Self → ℕ };

    // What a crash at some moment from that one on might have left, during a call or between two.
    ghost left_since: { Self → ℕ → List ℕ → Type 0 };

    // How many device calls were made; it stays at its last value. And how many faults the disk has had,
    // which never falls.
    ghost calls: { Self → ℕ };

    ghost faults: { Self → ℕ };

    // For how many calls and bytes there is room.
    ghost room: { Self → Room };

    // What a disk is once its power went off and came on again.
    ghost off: { Self → Self → Type 0 };

    // What a device call makes of the disk, where it succeeds and where it fails.
    ghost made: { Self → Call → Bool → Self → Type 0 };

    // What a disk is once there is more room.
    ghost alike: { Self → Self → Type 0 };

    /// How many bytes the file has.
    fn size(&mut self) -> Result<u32, Failed>
        ensures size { IfOk result (λ size. size ≡ length (seen self.old)) }
        ensures untouched { IsUntouched (seen self.old) (seen self.new) (may_leave self.old) (may_leave self.new) }
        ensures room { room self.new ≡ room self.old }
        ensures time { Elapses (moment self.old) (moment self.new) (left_since self.old) (left_since self.new) (may_leave self.new) }
        ensures counted { IsCounted (calls self.old) (calls self.new) (faults self.old) (faults self.new) result }
        ensures makes { Makes made self.old Sizes self.new result };

    /// Reads the bytes from `at` on, as many as `buf` takes.
    fn read(&mut self, at: u32, buf: &mut [u8]) -> Result<(), Failed>
        requires { at + length buf.old ≤ length (seen self.old) }
        ensures bytes { OnOk result (buf.new ≡ take (length buf.old) (drop at (seen self.old))) }
        ensures untouched { IsUntouched (seen self.old) (seen self.new) (may_leave self.old) (may_leave self.new) }
        ensures room { room self.new ≡ room self.old }
        ensures time { Elapses (moment self.old) (moment self.new) (left_since self.old) (left_since self.new) (may_leave self.new) }
        ensures counted { IsCounted (calls self.old) (calls self.new) (faults self.old) (faults self.new) result }
        ensures makes { Makes made self.old (Reads at (length buf.old)) self.new result };

    /// Writes over what is there, and past the end. Until a sync a crash may leave any bytes in the range.
    /// After a write that failed the same is true, and the file reads as any of these.
    fn write_at(&mut self, at: u32, bytes: &[u8]) -> Result<(), Failed>
        requires begins { at ≤ length (seen self.old) }
        requires ends { at + length bytes.now < 2 ^ 32 }
        requires call_room { 1 ≤ (room self.old).calls }
        requires byte_room { length bytes.now ≤ (room self.old).bytes }
        ensures written { OnOk result (seen self.new ≡ with_bytes (seen self.old) at bytes.now) }
        ensures crash { Follows (Torn at (length bytes.now)) (may_leave self.old) (may_leave self.new) }
        ensures room { room self.new ≡ room_after (room self.old) (length bytes.now) }
        ensures time { Elapses (moment self.old) (moment self.new) (left_since self.old) (left_since self.new) (may_leave self.new) }
        ensures counted { IsCounted (calls self.old) (calls self.new) (faults self.old) (faults self.new) result }
        ensures makes { Makes made self.old (Writes at bytes.now) self.new result };

    /// Cuts the file to `size` bytes. Until a sync a crash may leave any length from there to the old one,
    /// and after a cut that failed the file reads as any of these.
    fn cut(&mut self, size: u32) -> Result<(), Failed>
        requires within { size ≤ length (seen self.old) }
        requires call_room { 1 ≤ (room self.old).calls }
        ensures cut { OnOk result (seen self.new ≡ take size (seen self.old)) }
        ensures crash { Follows (PartCut size) (may_leave self.old) (may_leave self.new) }
        ensures room { room self.new ≡ room_after (room self.old) 0 }
        ensures time { Elapses (moment self.old) (moment self.new) (left_since self.old) (left_since self.new) (may_leave self.new) }
        ensures counted { IsCounted (calls self.old) (calls self.new) (faults self.old) (faults self.new) result }
        ensures makes { Makes made self.old (Cuts size) self.new result };

    /// Makes what a read gives last. From then on a crash leaves that. A sync that failed adds nothing to
    /// what a crash may leave.
    fn sync(&mut self) -> Result<(), Failed>
        requires { 1 ≤ (room self.old).calls }
        ensures durable { OnOk result (Only (seen self.old) (may_leave self.new)) }
        ensures reads { seen self.new ≡ seen self.old }
        ensures crash { AddsNothing (may_leave self.old) (may_leave self.new) }
        ensures room { room self.new ≡ room_after (room self.old) 0 }
        ensures time { Elapses (moment self.old) (moment self.new) (left_since self.old) (left_since self.new) (may_leave self.new) }
        ensures counted { IsCounted (calls self.old) (calls self.new) (faults self.old) (faults self.new) result }
        ensures makes { Makes made self.old Syncs self.new result };

    /// Makes room for so many calls and bytes, and changes nothing else.
    fn reserve(&mut self, more_calls: u32, more_bytes: u32) -> Result<(), AllocError>
        ensures room_calls { OnOk result (more_calls ≤ (room self.new).calls) }
        ensures room_bytes { OnOk result (more_bytes ≤ (room self.new).bytes) }
        ensures untouched { IsUntouched (seen self.old) (seen self.new) (may_leave self.old) (may_leave self.new) }
        ensures time { Elapses (moment self.old) (moment self.new) (left_since self.old) (left_since self.new) (may_leave self.new) }
        ensures same_calls { calls self.new ≡ calls self.old }
        ensures same_faults { faults self.new ≡ faults self.old }
        ensures alike { alike self.old self.new };

    /// Lets the power go off and come on again. The file then reads as one of those that a crash might have
    /// left.
    fn power_off(&mut self)
        ensures off { off self.old self.new }
        ensures reads { may_leave self.old (seen self.new) }
        ensures crash { AddsNothing (may_leave self.old) (may_leave self.new) }
        ensures grows { faults self.old ≤ faults self.new };

    // The file as it reads is one of those that a crash may leave.
    ghost reads_one: { (disk : Self) → may_leave disk (seen disk) };

    // This moment is one of those since an earlier one.
    ghost counts_now: { (disk : Self) (t : ℕ) (file : List ℕ) → t ≤ moment disk → may_leave disk file → left_since disk t file };

    // Since this moment there is no other.
    ghost only_now: { (disk : Self) (file : List ℕ) → left_since disk (moment disk) file → may_leave disk file };
}
