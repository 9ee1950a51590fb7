//! The words of a path's key, and the hash of a path: SipHash 1-3 over these, with keys of zero or
//! of the caller. The hashers of std that are of this kind have keys of zero or random ones.

ghost use Rattle.std.specs.Prelude.{◌≡◌, ◌+◌, ◌*◌, length};
ghost use Rattle.std.specs.Hash.DefaultHasher as sip;
ghost use Rattle.typed_path.specs.order.{key_bytes};
ghost use Rattle.typed_path_c.specs.Answers.{hash_of, Hashes, IsPut, Keys, Suffices};
ghost use Rattle.typed_path_c.specs.HasherViews.{sip_hasher_of, std_hasher_of};

use crate::status::{BAD_DIALECT, DONE, TOO_SMALL, of_encoding};
use std::hash::{Hash, Hasher};
use typed_path::{Encoding, Key, Path};

/// Puts the words of the path's key: the bytes that it feeds a hasher, one word after the other.
#[tactic(auto, using(crate::proofs::Crossed::never_small, typed_path::proofs::lemmas::order::KeyBytes::key_bytes_size))]
#[unsafe(no_mangle)]
pub extern "C" fn typed_path_key_words(
    dialect: u32,
    path: &[u8],
    out: &mut [u8],
    len: &mut usize,
) -> u32
    ensures words { Keys dialect path.now out.old len.old out.new len.new result }
    ensures fits { Suffices (2 * length path.now + 1) out.old result }
{
    of_encoding!(dialect, put_key(path, out, len), BAD_DIALECT)
}

/// Puts what [`typed_path_key_words`] does, for a path of one encoding.
#[tactic(auto, using(crate::proofs::Crossed::never_small, typed_path::proofs::lemmas::order::KeyBytes::key_bytes_size))]
fn put_key<T: Encoding>(path: &[u8], out: &mut [u8], len: &mut usize) -> u32
    ensures put { IsPut (key_bytes T.dialect path.now) out.old out.new len.new result }
    ensures fits { Suffices (2 * length path.now + 1) out.old result }
{
    let needed = Path::<T>::new(path).put_key(out);
    *len = needed;
    if out.len() < needed {
        return TOO_SMALL;
    }
    let (_, behind) = out.split_at_mut(needed);
    if let [first, ..] = behind {
        *first = 0;
    }
    DONE
}

/// Sets `hash` to the hash of the path with keys of zero. Equal paths have the same hash.
#[unsafe(no_mangle)]
pub extern "C" fn typed_path_hash(dialect: u32, path: &[u8], hash: &mut u64) -> u32
    ensures { Hashes dialect 0 0 path.now hash.old hash.new result }
{
    typed_path_hash_keyed(dialect, 0, 0, path, hash)
}

/// Sets `hash` to the hash of the path with two keys of the caller. Equal paths have the same hash.
#[unsafe(no_mangle)]
pub extern "C" fn typed_path_hash_keyed(
    dialect: u32,
    key0: u64,
    key1: u64,
    path: &[u8],
    hash: &mut u64,
) -> u32
    ensures { Hashes dialect key0 key1 path.now hash.old hash.new result }
{
    *hash = of_encoding!(dialect, hash_of(key0, key1, path), return BAD_DIALECT);
    DONE
}

/// Returns the hash of a path of one encoding with two keys.
fn hash_of<T: Encoding>(key0: u64, key1: u64, path: &[u8]) -> u64
    ensures { result ≡ hash_of T.dialect key0 key1 path.now }
{
    let mut state = SipHasher::new(key0, key1);
    Key::new(Path::<T>::new(path)).hash(&mut state);
    state.finish()
}

/// The state of a hash by SipHash 1-3.
#[derive(Clone, Copy)]
struct SipHasher {
    v0: u64,
    v1: u64,
    v2: u64,
    v3: u64,
    /// The bytes after the last whole word, the first of them lowest.
    tail: u64,
    /// How many bytes were written, modulo 2^64.
    length: u64,
}

impl SipHasher {
    /// Returns the state with two keys and nothing written.
    fn new(key0: u64, key1: u64) -> SipHasher
        ensures { result ≡ sip_hasher_of (sip.with_keys key0 key1) }
    {
        SipHasher {
            v0: key0 ^ 0x736f_6d65_7073_6575,
            v1: key1 ^ 0x646f_7261_6e64_6f6d,
            v2: key0 ^ 0x6c79_6765_6e65_7261,
            v3: key1 ^ 0x7465_6462_7974_6573,
            tail: 0,
            length: 0,
        }
    }

    /// Does one round.
    #[inline(always)]
    fn round(&mut self)
        ensures { self.new ≡ sip_hasher_of (sip.round (std_hasher_of self.old)) }
    {
        self.v0 = self.v0.wrapping_add(self.v1);
        self.v2 = self.v2.wrapping_add(self.v3);
        self.v1 = self.v1.rotate_left(13) ^ self.v0;
        self.v3 = self.v3.rotate_left(16) ^ self.v2;
        self.v0 = self.v0.rotate_left(32);
        self.v2 = self.v2.wrapping_add(self.v1);
        self.v0 = self.v0.wrapping_add(self.v3);
        self.v1 = self.v1.rotate_left(17) ^ self.v2;
        self.v3 = self.v3.rotate_left(21) ^ self.v0;
        self.v2 = self.v2.rotate_left(32);
    }

    /// Feeds a word of eight bytes.
    #[inline(always)]
    fn write_word(&mut self, word: u64)
        ensures { self.new ≡ sip_hasher_of (sip.write_word (std_hasher_of self.old) word) }
    {
        self.v3 ^= word;
        self.round();
        self.v0 ^= word;
    }

    /// Feeds a byte, and with it the word that it completes.
    #[inline(always)]
    fn write_byte(&mut self, byte: u8)
        ensures { self.new ≡ sip_hasher_of (sip.write_byte (std_hasher_of self.old) byte) }
    {
        self.tail |= (byte as u64) << (8 * (self.length % 8));
        self.length = self.length.wrapping_add(1);
        if self.length % 8 == 0 {
            self.write_word(self.tail);
            self.tail = 0;
        }
    }
}

impl Hasher for SipHasher {
    ghost write = { λ s bytes. sip_hasher_of (sip.write (std_hasher_of s) bytes) };

    ghost finish = { λ s. sip.finish (std_hasher_of s) };

    fn write(&mut self, bytes: &[u8]) {
        for i in 0..bytes.len() {
            self.write_byte(bytes[i]);
        }
    }

    fn finish(&self) -> u64 {
        let mut s = *self;
        s.write_word((self.length & 0xFF) << 56 | self.tail);
        s.v2 ^= 0xFF;
        s.round();
        s.round();
        s.round();
        s.v0 ^ s.v1 ^ s.v2 ^ s.v3
    }
}
