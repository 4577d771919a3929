//! A list of blocks in memory.
ghost use Rattle.std.specs.Prelude.{◌≡◌, ◌≤◌, [], ◌∷◌, ◌++◌, length, take, OnOk, OnErr};
ghost use Rattle.vx_file.specs.Blocks.{block_at};

use std::alloc::Global;
use std::marker::Model;
use vx_bits::{Buffer, NoMemory};

/// A list of blocks, each of at most 8201 bytes.
///
/// Clauses see the list of the blocks' bytes.
#[derive(Drop)]
pub struct Blocks {
    alloc: Global,
    held: Vec<Buffer<u8>>,
}

impl Model for Blocks {
    ghost use Rattle.std.specs.Prelude.{ℕ, ◌≤◌, List, length};
    ghost use Rattle.std.specs.List.{All};

    ghost Value = { List (List ℕ) };

    ghost view = { λ b. b.held.items };

    ghost invariant = { λ b. All (λ bytes. length bytes ≤ 8201) b.held.items };
}

impl Blocks {
    /// An empty list of blocks. Allocates nothing.
    pub fn new(alloc: Global) -> Blocks
        ensures { result ≡ [] }
    {
        Blocks {
            alloc,
            held: Vec::new(alloc),
        }
    }

    /// Appends a block. Fails only with `NoMemory`, which leaves the list as it was.
    pub fn push(&mut self, bytes: &[u8]) -> Result<(), NoMemory>
        requires { length bytes.now ≤ 8201 }
        ensures ok { OnOk result (self.new ≡ self.old ++ bytes.now ∷ []) }
        ensures err { OnErr result (self.new ≡ self.old) }
    {
        let block = Buffer::from_vec(self.alloc, bytes.to_vec(self.alloc)?)?;
        self.held.push(block)?;
        Ok(())
    }

    /// Puts the bytes of a block to the front of `dst`, and gives their number.
    pub(crate) fn put(&self, block: usize, dst: &mut [u8; 8201]) -> usize
        ensures within { result ≤ 8201 }
        ensures value { take result dst.new ≡ block_at self.now block }
    {
        if block >= self.held.len() {
            return 0;
        }
        let bytes = self.held[block].as_slice();
        put_front(bytes, dst);
        bytes.len()
    }
}

// Copies bytes to the front of others.
fn put_front(bytes: &[u8], dst: &mut [u8])
    requires { length bytes.now ≤ length dst.old }
    ensures { take (length bytes.now) dst.new ≡ bytes.now }
{
    dst[..bytes.len()].copy_from_slice(bytes);
}
