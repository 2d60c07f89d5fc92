//! A storage in memory, which tells everything. Some of its calls can be made to fail, by their numbers.
ghost use Rattle.std.specs.Prelude.{◌≡◌, ◌+◌, ◌-◌, ◌^◌, ◌<◌, ◌≤◌, max, [], ◌++◌, length, take, drop, Some, true, ⊤, ◌||◌, OnOk, OnErr, IfOk, IsErr, is_err, nat_lt};
ghost use Rattle.counts.specs.Counts.{raised, HasCause};
ghost use Rattle.raf_io.specs.Storage.{spliced, resized, ReadsFrom, Torn, Cut, Strays, Told, SyncedTo, IsLengthOf};

use crate::storage::RafIo;
use std::alloc::{AllocError, Global};
use std::io;

/// A storage in memory. The calls whose numbers, counted from 0, are in the list `fail` fail and change no byte.
#[derive(Drop)]
pub struct MemIo {
    alloc: Global,
    bytes: Vec<u8>,
    durable: Vec<u8>,
    fail: Vec<u64>,
    calls: u64,
    faults: u64,
    reach: u64,
    traffic: u64,
    changes: u64,
    strays: u64,
}

// The error of a call that fails.
fn refused() -> io::Error {
    io::Error::from(io::ErrorKind::Other)
}

impl MemIo {
    ghost use Rattle.raf_io.specs.Memory.{memory_bytes, durable_bytes, failing, IsFresh, Turn, Faulted};

    /// These bytes, none of them durable. It takes no memory.
    pub fn new(alloc: Global, bytes: Vec<u8>, fail: Vec<u64>) -> Self
        ensures bytes { memory_bytes result ≡ bytes.items }
        ensures durable { durable_bytes result ≡ [] }
        ensures failing { failing result ≡ fail.items }
        ensures fresh { IsFresh result }
    {
        MemIo {
            alloc,
            bytes,
            durable: Vec::new(alloc),
            fail,
            calls: 0,
            faults: 0,
            reach: 0,
            traffic: 0,
            changes: 0,
            strays: 0,
        }
    }

    /// What it holds.
    pub fn bytes(&self) -> &[u8]
        ensures { result.now ≡ memory_bytes self.now }
    {
        &self.bytes
    }

    /// What is durable.
    pub fn durable(&self) -> &[u8]
        ensures { result.now ≡ durable_bytes self.now }
    {
        &self.durable
    }

    /// How often it has failed.
    pub fn faults(&self) -> u64
        ensures { result ≡ self.now.faults }
    {
        self.faults
    }

    /// The greatest end of any range or size asked.
    pub fn reach(&self) -> u64
        ensures { result ≡ self.now.reach }
    {
        self.reach
    }

    /// How many bytes reads and writes have asked.
    pub fn traffic(&self) -> u64
        ensures { result ≡ self.now.traffic }
    {
        self.traffic
    }

    /// How many writes and resizes were asked.
    pub fn changes(&self) -> u64
        ensures { result ≡ self.now.changes }
    {
        self.changes
    }

    /// How many reads passed the end.
    pub fn strays(&self) -> u64
        ensures { result ≡ self.now.strays }
    {
        self.strays
    }

    /// What it holds, given away.
    pub fn into_bytes(self) -> Vec<u8>
        ensures { result.items ≡ memory_bytes self }
    {
        let MemIo { bytes, .. } = self;
        bytes
    }

    // Counts a call, and says whether it is to fail.
    fn turn(&mut self) -> bool
        ensures { Turn self.old self.new result }
    {
        let number = self.calls;
        self.calls = self.calls.saturating_add(1);
        let fails = self.fail.contains(&number);
        if fails {
            self.fault();
        }
        fails
    }

    // Counts a fault.
    fn fault(&mut self)
        ensures { Faulted self.old self.new }
    {
        self.faults = self.faults.saturating_add(1);
    }
}

// Puts these bytes in the place of those there.
fn overwrite(bytes: &mut [u8], at: usize, new: &[u8])
    requires { at + length new.now ≤ length bytes.old }
    ensures { bytes.new ≡ take at bytes.old ++ new.now ++ drop (at + length new.now) bytes.old }
{
    bytes[at..at + new.len()].copy_from_slice(new);
}

// Puts these bytes at an offset. A gap between the end and the offset becomes zeros. The error is that no memory was found; no byte
// changes then.
fn splice(bytes: &mut Vec<u8>, at: usize, new: &[u8]) -> Result<(), AllocError>
    requires { at + length new.now < 2 ^ 64 }
    ensures ok { OnOk result (bytes.new.items ≡ spliced at new.now bytes.old.items) }
    ensures err { OnErr result (bytes.new.items ≡ bytes.old.items) }
    ensures grows { IsErr result → length bytes.old.items < at + length new.now }
{
    let end = at + new.len();
    if end > bytes.len() {
        bytes.resize(end, 0)?;
    }
    overwrite(bytes, at, new);
    Ok(())
}

// Cuts the bytes down, or adds zeros.
fn resize(bytes: &mut Vec<u8>, size: usize) -> Result<(), AllocError>
    ensures ok { OnOk result (bytes.new.items ≡ resized size bytes.old.items) }
    ensures err { OnErr result (bytes.new.items ≡ bytes.old.items) }
    ensures grows { IsErr result → length bytes.old.items < size }
{
    if size > bytes.len() {
        bytes.resize(size, 0)
    } else {
        bytes.truncate(size);
        Ok(())
    }
}

impl RafIo for MemIo {
    ghost use Rattle.raf_io.specs.Memory.{memory_bytes, durable_bytes, failing, fails_now};

    ghost bytes = { λ m. Some (memory_bytes m) };

    ghost durable = { λ m. Some (durable_bytes m) };

    ghost faults = { λ m. m.faults };

    ghost reach = { λ m. m.reach };

    ghost traffic = { λ m. m.traffic };

    ghost changes = { λ m. m.changes };

    ghost strays = { λ m. m.strays };

    /// It fails exactly where it is to fail, or the range passes the end.
    fn read_at(&mut self, buf: &mut [u8], offset: u64) -> io::Result<()>
        requires { offset + length buf.old < 2 ^ 64 }
        ensures fails { is_err result ≡ (fails_now self.old || nat_lt (length (memory_bytes self.old)) (offset + length buf.old)) }
        ensures read { OnOk result (ReadsFrom (Some (memory_bytes self.old)) offset buf.new) }
        ensures bytes { Some (memory_bytes self.new) ≡ Some (memory_bytes self.old) }
        ensures durable { Some (durable_bytes self.new) ≡ Some (durable_bytes self.old) }
        ensures cause { HasCause self.old.faults self.new.faults result }
        ensures reach { self.new.reach ≡ max self.old.reach (offset + length buf.old) }
        ensures traffic { self.new.traffic ≡ raised self.old.traffic (length buf.old) }
        ensures changes { self.new.changes ≡ self.old.changes }
        ensures strays { Strays (Some (memory_bytes self.old)) offset (length buf.old) self.old.strays self.new.strays }
        ensures one { OnErr result (self.new.faults ≡ raised self.old.faults 1) }
        ensures count { self.new.calls ≡ raised self.old.calls 1 }
        ensures list { failing self.new ≡ failing self.old }
    {
        let end = offset + buf.len() as u64;
        self.reach = self.reach.max(end);
        self.traffic = self.traffic.saturating_add(buf.len() as u64);
        let past = end > self.bytes.len() as u64;
        if past {
            self.strays = self.strays.saturating_add(1);
        }
        if self.turn() {
            return Err(refused());
        }
        if past {
            self.fault();
            return Err(refused());
        }
        buf.copy_from_slice(&self.bytes[offset as usize..end as usize]);
        Ok(())
    }

    /// It fails where it is to fail, and where it has to grow and finds no memory; it changes no byte then.
    fn write_at(&mut self, buf: &[u8], offset: u64) -> io::Result<()>
        requires { offset + length buf.now < 2 ^ 64 }
        ensures fails { fails_now self.old ≡ true → IsErr result }
        ensures only { IsErr result → (fails_now self.old || nat_lt (length (memory_bytes self.old)) (offset + length buf.now)) ≡ true }
        ensures unchanged { OnErr result (memory_bytes self.new ≡ memory_bytes self.old) }
        ensures durable_kept { durable_bytes self.new ≡ durable_bytes self.old }
        ensures written { OnOk result (Some (memory_bytes self.new) ≡ Some (spliced offset buf.now (memory_bytes self.old))) }
        ensures torn { OnErr result (Told (Torn offset (length buf.now)) (Some (memory_bytes self.old)) (Some (memory_bytes self.new))) }
        ensures durable_tells { Told (λ _ _. ⊤) (Some (durable_bytes self.old)) (Some (durable_bytes self.new)) }
        ensures cause { HasCause self.old.faults self.new.faults result }
        ensures reach { self.new.reach ≡ max self.old.reach (offset + length buf.now) }
        ensures traffic { self.new.traffic ≡ raised self.old.traffic (length buf.now) }
        ensures changes { self.new.changes ≡ raised self.old.changes 1 }
        ensures strays { self.new.strays ≡ self.old.strays }
        ensures one { OnErr result (self.new.faults ≡ raised self.old.faults 1) }
        ensures count { self.new.calls ≡ raised self.old.calls 1 }
        ensures list { failing self.new ≡ failing self.old }
    {
        self.reach = self.reach.max(offset + buf.len() as u64);
        self.traffic = self.traffic.saturating_add(buf.len() as u64);
        self.changes = self.changes.saturating_add(1);
        if self.turn() {
            return Err(refused());
        }
        if splice(&mut self.bytes, offset as usize, buf).is_err() {
            self.fault();
            return Err(refused());
        }
        Ok(())
    }

    /// It fails exactly where it is to fail.
    fn get_size(&mut self) -> io::Result<u64>
        ensures fails { is_err result ≡ fails_now self.old }
        ensures size { IfOk result (IsLengthOf (Some (memory_bytes self.old))) }
        ensures bytes { Some (memory_bytes self.new) ≡ Some (memory_bytes self.old) }
        ensures durable { Some (durable_bytes self.new) ≡ Some (durable_bytes self.old) }
        ensures cause { HasCause self.old.faults self.new.faults result }
        ensures reach { self.new.reach ≡ self.old.reach }
        ensures traffic { self.new.traffic ≡ self.old.traffic }
        ensures changes { self.new.changes ≡ self.old.changes }
        ensures strays { self.new.strays ≡ self.old.strays }
        ensures one { OnErr result (self.new.faults ≡ raised self.old.faults 1) }
        ensures count { self.new.calls ≡ raised self.old.calls 1 }
        ensures list { failing self.new ≡ failing self.old }
    {
        if self.turn() {
            return Err(refused());
        }
        Ok(self.bytes.len() as u64)
    }

    /// It fails where it is to fail, and where it has to grow and finds no memory; it changes no byte then.
    fn set_size(&mut self, size: u64) -> io::Result<()>
        ensures fails { fails_now self.old ≡ true → IsErr result }
        ensures only { IsErr result → (fails_now self.old || nat_lt (length (memory_bytes self.old)) size) ≡ true }
        ensures unchanged { OnErr result (memory_bytes self.new ≡ memory_bytes self.old) }
        ensures durable_kept { durable_bytes self.new ≡ durable_bytes self.old }
        ensures resized { OnOk result (Some (memory_bytes self.new) ≡ Some (resized size (memory_bytes self.old))) }
        ensures cut { OnErr result (Told (Cut size) (Some (memory_bytes self.old)) (Some (memory_bytes self.new))) }
        ensures durable_tells { Told (λ _ _. ⊤) (Some (durable_bytes self.old)) (Some (durable_bytes self.new)) }
        ensures cause { HasCause self.old.faults self.new.faults result }
        ensures reach { self.new.reach ≡ max self.old.reach size }
        ensures traffic { self.new.traffic ≡ self.old.traffic }
        ensures changes { self.new.changes ≡ raised self.old.changes 1 }
        ensures strays { self.new.strays ≡ self.old.strays }
        ensures one { OnErr result (self.new.faults ≡ raised self.old.faults 1) }
        ensures count { self.new.calls ≡ raised self.old.calls 1 }
        ensures list { failing self.new ≡ failing self.old }
    {
        self.reach = self.reach.max(size);
        self.changes = self.changes.saturating_add(1);
        if self.turn() {
            return Err(refused());
        }
        if resize(&mut self.bytes, size as usize).is_err() {
            self.fault();
            return Err(refused());
        }
        Ok(())
    }

    /// It fails where it is to fail, and where it finds no memory; what is durable stays then.
    fn sync(&mut self) -> io::Result<()>
        ensures fails { fails_now self.old ≡ true → IsErr result }
        ensures unchanged { OnErr result (durable_bytes self.new ≡ durable_bytes self.old) }
        ensures synced { OnOk result (Told (SyncedTo (Some (memory_bytes self.old))) (Some (durable_bytes self.old)) (Some (durable_bytes self.new))) }
        ensures durable_tells { Told (λ _ _. ⊤) (Some (durable_bytes self.old)) (Some (durable_bytes self.new)) }
        ensures bytes { Some (memory_bytes self.new) ≡ Some (memory_bytes self.old) }
        ensures cause { HasCause self.old.faults self.new.faults result }
        ensures reach { self.new.reach ≡ self.old.reach }
        ensures traffic { self.new.traffic ≡ self.old.traffic }
        ensures changes { self.new.changes ≡ self.old.changes }
        ensures strays { self.new.strays ≡ self.old.strays }
        ensures one { OnErr result (self.new.faults ≡ raised self.old.faults 1) }
        ensures count { self.new.calls ≡ raised self.old.calls 1 }
        ensures list { failing self.new ≡ failing self.old }
    {
        if self.turn() {
            return Err(refused());
        }
        match self.bytes.to_vec(self.alloc) {
            Ok(copy) => {
                self.durable = copy;
                Ok(())
            }
            Err(_) => {
                self.fault();
                Err(refused())
            }
        }
    }
}
