// The chip of a program, which lies in memory: its bytes with its geometry, and the store's calls on it.
ghost use Rattle.std.specs.Prelude.{◌≡◌};
ghost use Rattle.format.specs.declared.Removal.{Removal};
ghost use Rattle.store.specs.Collect.{collect_of};
ghost use Rattle.store.specs.Read.{get_of};
ghost use Rattle.store.specs.Write.{append_of, remove_of, initialise_of};

use plans::Answer;

// n regions of s bytes.
#[derive(Clone, Copy, PartialEq, Eq)]
pub struct Image<const SIZE: usize> {
    pub s: usize,
    pub n: usize,
    pub bytes: [u8; SIZE],
}

impl<const SIZE: usize> Image<SIZE> {
    // R5.2
    pub fn get(&self, key: u64, buffer: &mut [u8]) -> Answer
        ensures { (result ≡ (get_of self.now.bytes self.now.s self.now.n key buffer.old).answer) × (buffer.new ≡ (get_of self.now.bytes self.now.s self.now.n key buffer.old).buffer) }
    {
        store::get_key(&self.bytes, self.s, self.n, key, buffer)
    }

    // R5.3, R5.4
    pub fn append(&mut self, key: u64, value: &[u8]) -> Answer
        ensures { (result ≡ (append_of self.old.bytes self.old.s self.old.n key value.now).answer) × (self.new.bytes ≡ (append_of self.old.bytes self.old.s self.old.n key value.now).image) }
    {
        store::append_key(&mut self.bytes, self.s, self.n, key, value)
    }

    // R5.5
    pub fn invalidate(&mut self, key: u64) -> Answer
        ensures { (result ≡ (remove_of Removal.Invalidate self.old.bytes self.old.s self.old.n key).answer) × (self.new.bytes ≡ (remove_of Removal.Invalidate self.old.bytes self.old.s self.old.n key).image) }
    {
        store::invalidate_key(&mut self.bytes, self.s, self.n, key)
    }

    // R5.6
    pub fn zeroise(&mut self, key: u64) -> Answer
        ensures { (result ≡ (remove_of Removal.Zeroise self.old.bytes self.old.s self.old.n key).answer) × (self.new.bytes ≡ (remove_of Removal.Zeroise self.old.bytes self.old.s self.old.n key).image) }
    {
        store::zeroise_key(&mut self.bytes, self.s, self.n, key)
    }

    // R5.7, R5.8
    pub fn collect(&mut self) -> Answer
        ensures { (result ≡ (collect_of self.old.bytes self.old.s self.old.n).answer) × (self.new.bytes ≡ (collect_of self.old.bytes self.old.s self.old.n).image) }
    {
        store::garbage_collect(&mut self.bytes, self.s, self.n)
    }

    // R5.9, with the main key.
    pub fn initialise(&mut self, key: u64) -> Answer
        ensures { (result ≡ (initialise_of self.old.bytes self.old.s self.old.n key).answer) × (self.new.bytes ≡ (initialise_of self.old.bytes self.old.s self.old.n key).image) }
    {
        store::initialise(&mut self.bytes, self.s, self.n, key)
    }
}
