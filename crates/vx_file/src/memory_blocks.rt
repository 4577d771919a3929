//! Blocks in memory, of which some reads fail.
ghost use Rattle.std.specs.Prelude.{◌≡◌, ◌↔◌, ◌+◌, ◌-◌, ◌<◌, ◌≤◌, [], ◌∷◌, take, IsErr, IfOk, OnOk, OnErr, Contains};
ghost use Rattle.vx_bits.specs.WordReader.{then_told};
ghost use Rattle.vx_io.specs.Bytes.{Rose};
ghost use Rattle.vx_file.specs.Blocks.{after_call, after_failed_call, block_at, new_reader, reads_left, told_reads};

use crate::block_reader::BlockReader;
use crate::blocks::Blocks;
use crate::read_log::ReadLog;
use std::alloc::Global;
use std::marker::Model;
use vx_bits::{Buffer, Failed, NoMemory};

/// Blocks in memory. Some calls fail, by their numbers, and the first reads are kept, as many as
/// there is room for.
///
/// It tells the reads while all are kept.
#[derive(Drop)]
pub struct MemoryBlocks {
    held: Blocks,
    failing: Buffer<usize>,
    made: Vec<usize>,
    room: usize,
    call: usize,
    faults: u64,
}

impl Model for MemoryBlocks {
    ghost use Rattle.std.specs.Prelude.{◌≡◌, ◌≤◌, min, vec_len, vec_capacity};
    ghost use Rattle.vx_file.specs.Blocks.{BlocksState};

    ghost Value = { BlocksState };

    ghost view = { λ s. record {
      blocks = s.held;
      failing = s.failing;
      kept = s.made.items;
      room = s.room;
      call = s.call;
      faults = s.faults;
    } };

    ghost invariant = { λ s. (vec_len s.made ≡ min s.call s.room)
        × (s.room ≤ vec_capacity s.made) };
}

impl MemoryBlocks {
    /// A reader of these blocks, which keeps its first `room` reads. A call fails where its number,
    /// from 0, is in `failing`. Fails only with `NoMemory`.
    pub fn new(
        alloc: Global,
        blocks: Blocks,
        failing: Buffer<usize>,
        room: usize,
    ) -> Result<MemoryBlocks, NoMemory>
        ensures { IfOk result (λ s. s ≡ new_reader blocks failing room) }
    {
        let made = Vec::with_capacity(alloc, room)?;
        Ok(MemoryBlocks {
            held: blocks,
            failing,
            made,
            room,
            call: 0,
            faults: 0,
        })
    }

    /// The first reads, without the reader.
    pub fn into_reads(self) -> ReadLog
        ensures { result ≡ self.kept }
    {
        ReadLog {
            made: Some(self.made),
        }
    }

    /// The first reads: the numbers of the blocks, in order.
    pub fn reads(&self) -> &[usize]
        ensures { result.now ≡ self.now.kept }
    {
        self.made.as_slice()
    }

    // Notes a call for a block.
    fn note(&mut self, block: usize)
        ensures { self.new ≡ after_call self.old block }
    {
        if self.call < self.room {
            self.made.push_reserved(block);
        }
        self.call = self.call.saturating_add(1);
    }
}

impl BlockReader for MemoryBlocks {
    ghost use Rattle.std.specs.Prelude.{Some};

    ghost blocks = { λ s. Some s.blocks };

    ghost reads = { λ s. told_reads s };

    ghost spare = { λ s. reads_left s };

    ghost faults = { λ s. s.faults };

    fn read_block(&mut self, block: usize, dst: &mut [u8; 8201]) -> Result<usize, Failed>
        ensures within { IfOk result (λ n. n ≤ 8201) }
        ensures value { IfOk result (λ n. take n dst.new ≡ block_at self.old.blocks block) }
        ensures same { self.new.blocks ≡ self.old.blocks }
        ensures told { 1 ≤ reads_left self.old
            → told_reads self.new ≡ then_told (told_reads self.old) (block ∷ []) }
        ensures cost { reads_left self.old ≤ reads_left self.new + 1 }
        ensures read { OnOk result (self.new ≡ after_call self.old block) }

        // It fails exactly where its number says so.
        ensures fails { IsErr result ↔ Contains self.old.failing self.old.call }
        ensures failed { OnErr result (self.new ≡ after_failed_call self.old block) }
        ensures cause { OnErr result (Rose self.old.faults self.new.faults) }
        ensures never_falls { self.old.faults ≤ self.new.faults }
    {
        let fails = self.failing.as_slice().contains(&self.call);
        self.note(block);
        if fails {
            self.faults = self.faults.saturating_add(1);
            return Err(Failed);
        }
        Ok(self.held.put(block, dst))
    }
}
