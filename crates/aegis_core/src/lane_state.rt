//! What sealing needs of the lanes of a family.

ghost use Rattle.std.specs.Prelude.{◌≡◌, ◌⊎◌, ℕ, ◌<◌, ◌≤◌, length};
ghost use Rattle.aes_spec.specs.Bytes.{xor_bytes};
ghost use Rattle.aegis_core.specs.Lanes.{State};
ghost use Rattle.aegis_core.specs.Family.{Family};

/// The state of a family's lanes: what absorbing, encrypting and the tag are made of.
pub trait LaneState: Copy {
    /// The family with its lanes.
    ghost family: { Self → Family };
    /// The blocks of the lanes in use.
    ghost lanes: { Self → State };
    /// How many bytes a key has, and a nonce.
    ghost key_bytes: { ℕ };

    /// Sets the initial state under a key and a nonce, in place: a state that is handed back by value is
    /// cleared and copied on its way.
    fn start(&mut self, key: &[u8], nonce: &[u8])
        requires key { length key.now ≡ key_bytes }
        requires nonce { length nonce.now ≡ key_bytes }
        ensures same { family self.new ≡ family self.old }
        ensures initial { lanes self.new ≡ (family self.old).initial key.now nonce.now };

    /// How many bytes a block of input has.
    fn rate(&self) -> usize
        ensures rate { result ≡ (family self.now).rate }
        ensures some { 0 < result }
        ensures most { result ≤ 128 };

    /// The keystream of a block.
    fn keystream(&self, out: &mut [u8])
        requires { length out.old ≡ (family self.now).rate }
        ensures { out.new ≡ (family self.now).keystream (lanes self.now) };

    /// Updates with a whole block.
    fn absorb(&mut self, block: &[u8])
        requires { length block.now ≡ (family self.old).rate }
        ensures same { family self.new ≡ family self.old }
        ensures updated { lanes self.new ≡ (family self.old).update (lanes self.old) block.now };

    /// Encrypts a whole block in place.
    fn encrypt(&mut self, block: &mut [u8])
        requires { length block.old ≡ (family self.old).rate }
        ensures same { family self.new ≡ family self.old }
        ensures text { block.new ≡ xor_bytes block.old ((family self.old).keystream (lanes self.old)) }
        ensures updated { lanes self.new ≡ (family self.old).update (lanes self.old) block.old };

    /// Decrypts a whole block in place.
    fn decrypt(&mut self, block: &mut [u8])
        requires { length block.old ≡ (family self.old).rate }
        ensures same { family self.new ≡ family self.old }
        ensures text { block.new ≡ xor_bytes block.old ((family self.old).keystream (lanes self.old)) }
        ensures updated { lanes self.new ≡ (family self.old).update (lanes self.old) block.new };

    /// Encrypts a whole block into another.
    fn encrypt_into(&mut self, from: &[u8], to: &mut [u8])
        requires from { length from.now ≡ (family self.old).rate }
        requires to { length to.old ≡ (family self.old).rate }
        ensures same { family self.new ≡ family self.old }
        ensures text { to.new ≡ xor_bytes from.now ((family self.old).keystream (lanes self.old)) }
        ensures updated { lanes self.new ≡ (family self.old).update (lanes self.old) from.now };

    /// Decrypts a whole block into another.
    fn decrypt_into(&mut self, from: &[u8], to: &mut [u8])
        requires from { length from.now ≡ (family self.old).rate }
        requires to { length to.old ≡ (family self.old).rate }
        ensures same { family self.new ≡ family self.old }
        ensures text { to.new ≡ xor_bytes from.now ((family self.old).keystream (lanes self.old)) }
        ensures updated { lanes self.new ≡ (family self.old).update (lanes self.old) to.new };

    /// Decrypts a whole block into another, whose bytes go to the first.
    fn decrypt_swapping(&mut self, from: &mut [u8], to: &mut [u8])
        requires from { length from.old ≡ (family self.old).rate }
        requires to { length to.old ≡ (family self.old).rate }
        ensures same { family self.new ≡ family self.old }
        ensures text { to.new ≡ xor_bytes from.old ((family self.old).keystream (lanes self.old)) }
        ensures updated { lanes self.new ≡ (family self.old).update (lanes self.old) to.new }
        ensures swapped { from.new ≡ to.old };

    /// Overwrites the blocks with zeros.
    fn clear(&mut self)
        ensures { family self.new ≡ family self.old };

    /// The tag, with these two numbers in the places of the lengths in bits.
    fn finalise(&self, first: u64, second: u64, tag: &mut [u8])
        requires { (length tag.old ≡ 16) ⊎ (length tag.old ≡ 32) }
        ensures { tag.new ≡ (family self.now).finalise (length tag.old) first second (lanes self.now) };
}
