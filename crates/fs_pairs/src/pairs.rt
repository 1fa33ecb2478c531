//! Keys and numbers, one to one.
use std::alloc::{AllocError, Global};
use std::collections::BTreeMap;
use std::marker::Model;

/// Keys and numbers, one to one, looked for by either. Contracts see the numbers by the keys.
///
///     session 4 owns stream 1, and session 7 stream 2      4 has 1; 2 is that of 7
///     session 4 leaves                                     4 has none, and no one has 1
///
/// A call costs a logarithm of how many there are.
#[derive(Drop)]
pub struct Pairs {
    numbers: BTreeMap<u32, u64>,
    keys: BTreeMap<u64, u32>,
}

impl Model for Pairs {
    ghost use Rattle.std.specs.Prelude.{ℕ};
    ghost use Rattle.std.specs.Coded.{coded_ℕ};
    ghost use Rattle.std.specs.FinMap.{FinMap, code, from_entries};
    ghost use Rattle.std.specs.Ordering.{nat_cmp};
    ghost use Rattle.fs_pairs.specs.Pairs.{AreKeysOf};

    ghost Value = { FinMap nat_cmp ℕ };

    ghost coded = { code coded_ℕ coded_ℕ };

    ghost view = { λ p. from_entries p.numbers.entries };

    ghost invariant = { λ p. AreKeysOf (from_entries p.numbers.entries) (from_entries p.keys.entries) };
}

impl Pairs {
    ghost use Rattle.std.specs.Prelude.{◌≡◌, ◌≢◌, ℕ, None, OnErr, OnOk, Some};
    ghost use Rattle.std.specs.FinMap.{empty, entries, from_entries, get, insert, remove};
    ghost use Rattle.std.specs.Ordering.{nat_cmp};
    ghost use Rattle.fs_pairs.specs.Pairs.{AreDistinct, freed, key_of};

    /// No pairs. The allocator serves those that come.
    pub fn new(alloc: Global) -> Pairs
        ensures { result ≡ empty }
    {
        Pairs {
            numbers: BTreeMap::new(alloc),
            keys: BTreeMap::new(alloc),
        }
    }

    /// The number of a key.
    pub fn get(&self, key: u32) -> Option<u64>
        ensures value { result ≡ get self.now key }
        ensures distinct { AreDistinct self.now }
    {
        self.numbers.get(&key).copied()
    }

    /// The key of a number.
    pub fn key_of(&self, number: u64) -> Option<u32>
        ensures { result ≡ key_of number (entries self.now) }
    {
        self.keys.get(&number).copied()
    }

    /// One pair more, of a key and a number that no other has.
    pub fn insert(&mut self, key: u32, number: u64) -> Result<(), AllocError>
        requires absent { get self.old key ≡ None }
        requires unused { (other : ℕ) → get self.old other ≢ Some number }
        ensures ok { OnOk result (self.new ≡ insert self.old key number) }
        ensures err { OnErr result (self.new ≡ self.old) }
    {
        self.give(key, number)
    }

    /// A key that has none gets a number, and who had it has none then.
    pub fn give(&mut self, key: u32, number: u64) -> Result<(), AllocError>
        requires { get self.old key ≡ None }
        ensures ok { OnOk result (self.new ≡ insert (freed self.old number) key number) }
        ensures err { OnErr result (self.new ≡ self.old) }
    {
        let former = self.key_of(number);
        self.numbers.insert(key, number)?;
        if let Err(_) = self.keys.insert(number, key) {
            self.numbers.remove(&key);
            return Err(AllocError);
        }
        if let Some(former) = former {
            self.numbers.remove(&former);
        }
        Ok(())
    }

    /// The pair of a key less. It takes no memory.
    pub fn remove(&mut self, key: u32)
        ensures { self.new ≡ remove self.old key }
    {
        if let Some(number) = self.numbers.remove(&key) {
            self.keys.remove(&number);
        }
    }

    /// All of them, by their keys.
    pub fn by_key(&self) -> &BTreeMap<u32, u64>
        ensures { from_entries {R = nat_cmp} result.now.entries ≡ self.now }
    {
        &self.numbers
    }
}
